//! A search depth first over the cones of an arena: the top is judged where it stands. A split one becomes its child 1, with its
//! child 0 above, and any other is taken away.

ghost use Rattle.std.specs.Prelude.{◌≡◌, ◌≤◌, ◌<◌, [], length, IfOk};
ghost use Rattle.symmetric_matrix.specs.Symmetric.{entry};
ghost use Rattle.unimodular_cone.specs.Answer.{BoundFits};
ghost use Rattle.unimodular_cone.specs.Cones.{Fits, unit_vectors};
ghost use Rattle.search_core.specs.Answers.{IsLeastAnswer, IsSignAnswer};
ghost use Rattle.serial_search.specs.Found.{IsFairSearch};
ghost use Rattle.serial_search.specs.Turns.{MayTurn, IsTurnOf, IsRootAlone};

use cone_arena::ConeArena;
use search_core::{
    Fate, Judged, KeySet, Least, NewGenerators, Sign, keep_fate, lowering_fate, note_new,
    settle_least_noted, settle_sign_part, start_word,
};
use std::alloc::{AllocError, Global};
use symmetric_matrix::SymInt;
use unimodular_cone::Mode;

/// What a search found, as far as an answer looks at it.
#[derive(Drop)]
pub struct Judgements {
    /// The judgements of low cones, and the ends of the tree.
    pub judged: Vec<Judged>,
    /// The keys of the generators that attain the final bound, where the final word is over 256.
    pub attaining: KeySet,
    /// The word after all of them.
    pub final_word: u64,
}

impl Judgements {
    /// Nothing found yet, under the word before any cone is judged.
    pub(crate) fn none(alloc: Global, word: u64) -> Judgements
        ensures judged { result.judged.items ≡ [] }
        ensures attaining { result.attaining.keys ≡ [] }
        ensures word { result.final_word ≡ word }
    {
        Judgements {
            judged: Vec::new(alloc),
            attaining: KeySet::new(alloc),
            final_word: word,
        }
    }
}

/// Puts the children of a split top in its place, child 0 last. A top of any other fate is taken away.
#[inline(always)]
pub(crate) fn turn(arena: &mut ConeArena, fate: &Fate)
    requires some { 0 < length arena.old.cones }
    requires may { MayTurn arena.old fate.now }
    ensures { IsTurnOf arena.old fate.now arena.new }
{
    if let Fate::Split { i, j, .. } = *fate {
        arena.split_fitting(i, j);
    } else {
        arena.drop_top();
    }
}

/// Searches from the root of a matrix, which stands alone in an arena that was made for the limit.
pub fn search(
    alloc: Global,
    mode: Mode,
    q: &SymInt,
    limit: u8,
    arena: &mut ConeArena,
) -> Result<Judgements, AllocError>
    requires limited { limit ≤ 200 }
    requires bound_fits { BoundFits mode q.now.size (entry q.now) }
    requires room { limit ≤ arena.old.depth }
    requires root { IsRootAlone q.now arena.old.cones }
    ensures { IfOk result (IsFairSearch mode q.now limit) }
{
    let _n = q.n();
    let mut judged = Vec::new(alloc);
    let mut attaining = KeySet::new(alloc);
    let mut word = start_word(mode, q);
    let mut fresh = NewGenerators::Each;
    while arena.len() > 0 {
        let cone = arena.top();
        let before = word;
        let fate = lowering_fate(mode, &cone, limit, fresh, &mut word);
        keep_fate(&mut judged, mode, &cone, limit, &fate, word)?;
        note_new(&mut attaining, &cone, fresh, before, word)?;
        turn(arena, &fate);
        fresh = NewGenerators::after(&fate);
    }
    Ok(Judgements {
        judged,
        attaining,
        final_word: word,
    })
}

/// What a fair search for the least value answers.
pub fn settled_least(alloc: Global, q: &SymInt, limit: u8, found: Judgements) -> Least
    requires fair { IsFairSearch Mode.Least q.now limit found }
    requires limited { limit ≤ 200 }
    requires fits { Fits q.now.size (entry q.now) unit_vectors }
    requires bound_fits { BoundFits Mode.Least q.now.size (entry q.now) }
    ensures { IsLeastAnswer q.now.size (entry q.now) limit result }
{
    let Judgements {
        judged,
        attaining,
        final_word,
    } = found;
    settle_least_noted(alloc, q, limit, &judged, attaining, final_word)
}

/// What a fair search for a value below 0 answers.
pub fn settled_sign(alloc: Global, q: &SymInt, limit: u8, found: &Judgements) -> Sign
    requires fair { IsFairSearch Mode.Sign q.now limit found.now }
    requires limited { limit ≤ 200 }
    requires fits { Fits q.now.size (entry q.now) unit_vectors }
    ensures { IsSignAnswer q.now.size (entry q.now) limit result }
{
    settle_sign_part(alloc, q, limit, &found.judged, found.final_word)
}
