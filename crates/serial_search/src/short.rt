//! Searches that are given up after a number of turns.

ghost use Rattle.std.specs.Prelude.{◌≡◌, ◌≤◌, ◌<◌, [], length, IfOk, IfSome};
ghost use Rattle.symmetric_matrix.specs.Symmetric.{entry};
ghost use Rattle.unimodular_cone.specs.Answer.{BoundFits};
ghost use Rattle.search_core.specs.Answers.{IsLeastAnswer, IsSignAnswer};
ghost use Rattle.serial_search.specs.Found.{IsFairSearch};
ghost use Rattle.serial_search.specs.Turns.{IsRootAlone};

use crate::search::{Judgements, settled_least, settled_sign, turn};
use cone_arena::ConeArena;
use search_core::{
    KeySet, Least, NewGenerators, Sign, keep_fate, lowering_fate, note_new, settle_least_noted,
    settle_sign_part, start_word,
};
use std::alloc::{AllocError, Global};
use symmetric_matrix::SymInt;
use unimodular_cone::Mode;

/// Searches from the root of a matrix, which stands alone in an arena that was made for the limit. None where so many turns
/// don't end the search.
fn search_in_turns(
    alloc: Global,
    mode: Mode,
    q: &SymInt,
    limit: u8,
    arena: &mut ConeArena,
    turns: u64,
) -> Result<Option<Judgements>, AllocError>
    requires limited { limit ≤ 200 }
    requires bound_fits { BoundFits mode q.now.size (entry q.now) }
    requires room { limit ≤ arena.old.depth }
    requires root { IsRootAlone q.now arena.old.cones }
    ensures { IfOk result (λ found. IfSome found
        (IsFairSearch mode q.now limit)) }
{
    let _n = q.n();
    let mut judged = Vec::new(alloc);
    let mut attaining = KeySet::new(alloc);
    let mut word = start_word(mode, q);
    let mut fresh = NewGenerators::Each;
    for _ in 0..turns {
        if arena.len() == 0 {
            return Ok(Some(Judgements {
                judged,
                attaining,
                final_word: word,
            }));
        }
        let cone = arena.top();
        let before = word;
        let fate = lowering_fate(mode, &cone, limit, fresh, &mut word);
        keep_fate(&mut judged, mode, &cone, limit, &fate, word)?;
        note_new(&mut attaining, &cone, fresh, before, word)?;
        turn(arena, &fate);
        fresh = NewGenerators::after(&fate);
    }
    Ok(None)
}

/// The answer of a search for the least value of a matrix whose least diagonal entry is at most 2^63 - 1, if it takes fewer
/// turns than these.
pub fn least_in_turns(alloc: Global, q: &SymInt, limit: u8, turns: u64) -> Option<Least>
    requires limited { limit ≤ 200 }
    requires bound_fits { BoundFits Mode.Least q.now.size (entry q.now) }
    ensures { IfSome result (IsLeastAnswer q.now.size (entry q.now) limit) }
{
    match ConeArena::with_cones(alloc, q.n(), limit) {
        Err(_) => Some(Least::OutOfMemory),
        Ok(arena) => least_over(alloc, q, limit, arena, turns),
    }
}

/// The same, over an empty arena.
fn least_over(
    alloc: Global,
    q: &SymInt,
    limit: u8,
    mut arena: ConeArena,
    turns: u64,
) -> Option<Least>
    requires limited { limit ≤ 200 }
    requires bound_fits { BoundFits Mode.Least q.now.size (entry q.now) }
    requires size { arena.size ≡ q.now.size }
    requires room { limit ≤ arena.depth }
    requires empty { arena.cones ≡ [] }
    ensures { IfSome result (IsLeastAnswer q.now.size (entry q.now) limit) }
{
    match arena.push_root(q) {
        Err(at) => Some(Least::Wide { at }),
        Ok(()) => match search_in_turns(alloc, Mode::Least, q, limit, &mut arena, turns) {
            Ok(Some(found)) => Some(settled_least(alloc, q, limit, found)),
            Ok(None) => None,
            Err(_) => Some(Least::OutOfMemory),
        },
    }
}

/// The answer of a search for a value below 0, if it takes fewer turns than these.
pub fn sign_in_turns(alloc: Global, q: &SymInt, limit: u8, turns: u64) -> Option<Sign>
    requires { limit ≤ 200 }
    ensures { IfSome result (IsSignAnswer q.now.size (entry q.now) limit) }
{
    match ConeArena::with_cones(alloc, q.n(), limit) {
        Err(_) => Some(Sign::OutOfMemory),
        Ok(arena) => sign_over(alloc, q, limit, arena, turns),
    }
}

/// The same, over an empty arena.
fn sign_over(alloc: Global, q: &SymInt, limit: u8, mut arena: ConeArena, turns: u64) -> Option<Sign>
    requires limited { limit ≤ 200 }
    requires size { arena.size ≡ q.now.size }
    requires room { limit ≤ arena.depth }
    requires empty { arena.cones ≡ [] }
    ensures { IfSome result (IsSignAnswer q.now.size (entry q.now) limit) }
{
    match arena.push_root(q) {
        Err(at) => Some(Sign::Wide { at }),
        Ok(()) => match search_in_turns(alloc, Mode::Sign, q, limit, &mut arena, turns) {
            Ok(Some(found)) => Some(settled_sign(alloc, q, limit, &found)),
            Ok(None) => None,
            Err(_) => Some(Sign::OutOfMemory),
        },
    }
}
