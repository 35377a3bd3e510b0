//! The plain search, which keeps every judgement. It is the definition's own, and tests run it beside the other.

ghost use Rattle.std.specs.Prelude.{◌≡◌, ◌≤◌, [], IfOk};
ghost use Rattle.symmetric_matrix.specs.Symmetric.{entry};
ghost use Rattle.unimodular_cone.specs.Answer.{BoundFits};
ghost use Rattle.search_core.specs.Fair.{IsFair};
ghost use Rattle.serial_search.specs.Turns.{IsRootAlone};

use crate::search::turn;
use crate::searcher::bound_wide;
use cone_arena::ConeArena;
use search_core::{Judged, Least, Sign, code, judgement, settle_least, settle_sign, start_word};
use std::alloc::{AllocError, Global};
use symmetric_matrix::SymInt;
use unimodular_cone::Mode;

/// Every judgement, and the word after all of them.
#[derive(Drop)]
struct EveryJudgement {
    judged: Vec<Judged>,
    final_word: u64,
}

/// Every judgement of a search from the root of a matrix, which stands alone in an arena that was made for the limit, the last
/// one first, and the final word.
fn every_judgement(
    alloc: Global,
    mode: Mode,
    q: &SymInt,
    limit: u8,
    arena: &mut ConeArena,
) -> Result<EveryJudgement, AllocError>
    requires limited { limit ≤ 200 }
    requires bound_fits { BoundFits mode q.now.size (entry q.now) }
    requires room { limit ≤ arena.old.depth }
    requires root { IsRootAlone q.now arena.old.cones }
    ensures { IfOk result (λ r. IsFair mode q.now.size (entry q.now) limit r.judged.items r.final_word) }
{
    let _n = q.n();
    let mut judged = Vec::new(alloc);
    let mut word = start_word(mode, q);
    while arena.len() > 0 {
        let cone = arena.top();
        let lower = word.min(code(mode, &cone));
        let j = judgement(mode, &cone, limit, lower);
        let fate = j.fate;
        word = lower;
        judged.insert(0, j)?;
        turn(arena, &fate);
    }
    Ok(EveryJudgement {
        judged,
        final_word: word,
    })
}

/// The least value of a matrix, from every judgement. None where the matrix is refused or memory is wanting.
pub fn plain_least(alloc: Global, q: &SymInt, limit: u8) -> Option<Least>
    requires { limit ≤ 200 }
{
    match bound_wide(q) {
        Some(_) => None,
        None => match ConeArena::with_cones(alloc, q.n(), limit) {
            Ok(arena) => least_of_all(alloc, q, limit, arena),
            Err(_) => None,
        },
    }
}

/// The same of a matrix whose least diagonal entry is at most 2^63 - 1, over an empty arena.
fn least_of_all(alloc: Global, q: &SymInt, limit: u8, mut arena: ConeArena) -> Option<Least>
    requires limited { limit ≤ 200 }
    requires bound_fits { BoundFits Mode.Least q.now.size (entry q.now) }
    requires size { arena.size ≡ q.now.size }
    requires room { limit ≤ arena.depth }
    requires empty { arena.cones ≡ [] }
{
    match arena.push_root(q) {
        Ok(()) => match every_judgement(alloc, Mode::Least, q, limit, &mut arena) {
            Ok(all) => Some(settle_least(alloc, q, limit, &all.judged, all.final_word)),
            Err(_) => None,
        },
        Err(_) => None,
    }
}

/// Whether some value of a matrix is below 0, from every judgement. None where the matrix is refused or memory is wanting.
pub fn plain_sign(alloc: Global, q: &SymInt, limit: u8) -> Option<Sign>
    requires { limit ≤ 200 }
{
    match ConeArena::with_cones(alloc, q.n(), limit) {
        Ok(arena) => sign_of_all(alloc, q, limit, arena),
        Err(_) => None,
    }
}

/// The same, over an empty arena.
fn sign_of_all(alloc: Global, q: &SymInt, limit: u8, mut arena: ConeArena) -> Option<Sign>
    requires limited { limit ≤ 200 }
    requires size { arena.size ≡ q.now.size }
    requires room { limit ≤ arena.depth }
    requires empty { arena.cones ≡ [] }
{
    match arena.push_root(q) {
        Ok(()) => match every_judgement(alloc, Mode::Sign, q, limit, &mut arena) {
            Ok(all) => Some(settle_sign(alloc, q, limit, &all.judged, all.final_word)),
            Err(_) => None,
        },
        Err(_) => None,
    }
}
