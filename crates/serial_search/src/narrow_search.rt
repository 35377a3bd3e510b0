//! The search over narrow cones, as far as cones are narrow: from the root, or from each cone that is the first narrow one on its
//! path. It ends without an answer where a narrow cone has a child that is not.

ghost use Rattle.std.specs.Prelude.{◌≡◌, ◌≤◌, ◌<◌, ◌^◌, ◌++◌, [], ◌∷◌, length, List, slice_index_or, IfOk, OnOk, IfSome, IsTrue};
ghost use Rattle.symmetric_matrix.specs.Symmetric.{entry};
ghost use Rattle.unimodular_cone.specs.Answer.{BoundFits};
ghost use Rattle.unimodular_cone.specs.Cones.{Fits, unit_vectors};
ghost use Rattle.unimodular_cone.specs.Shown.{ShownCone, IsConeAt, IsWithinLimits};
ghost use Rattle.serial_search.specs.Found.{IsFairSearch};
ghost use Rattle.serial_search.specs.Searching.{IsSearchingOver, IsOne};
ghost use Rattle.serial_search.specs.OpenTurns.{new_among, NotesMediant, MayOpen, IsOpenTurnOf};
ghost use Rattle.serial_search.specs.Turns.{IsArenaEmptied};

use crate::mixed_search::search_from_wide;
use crate::search::Judgements;
use cone_arena::NarrowArena;
use search_core::{
    Key, KeySet, NewGenerators, Next, bound_under, keep_next, lowering_next, note_new, start_word,
};
use std::alloc::{AllocError, Global};
use symmetric_matrix::SymInt;
use unimodular_cone::{Mode, NarrowCone, OpenChildren, narrow_root};

/// Which generators are new in the cone that is judged directly after a split of which these children were made, on the sides of
/// generator i and another.
#[inline(always)]
fn new_in(made: OpenChildren, i: u8) -> NewGenerators
    ensures { result ≡ new_among made i }
{
    match made {
        OpenChildren::Below => NewGenerators::One { which: i },
        _ => NewGenerators::NoOne,
    }
}

/// Notes the key of a mediant whose value is the bound of this word, if the word is over 256.
#[inline(always)]
fn note_mediant(
    noted: &mut KeySet,
    attains: bool,
    mediant: &Key,
    word: u64,
) -> Result<(), AllocError>
    requires { IsTrue attains → slice_index_or mediant.now 0 0 ≤ 2 ^ 62 }
    ensures { OnOk result (NotesMediant word attains mediant.now noted.old.keys noted.new.keys) }
{
    if attains && word > 256 {
        return noted.insert(mediant);
    }
    Ok(())
}

/// Puts the children of a split top that are made in its place, child 0 last, where both are narrow, and notes the mediant's key if
/// it attains the word's bound. Any other top is taken away. Answers which generators are new in the cone that is then on top. None
/// where a child is not narrow. The key is written into `mediant` first, whatever was there.
#[inline(always)]
fn turn(
    arena: &mut NarrowArena,
    mode: Mode,
    next: Next,
    word: u64,
    noted: &mut KeySet,
    mediant: &mut Key,
) -> Result<Option<NewGenerators>, AllocError>
    requires some { 0 < length arena.old.cones }
    requires may { MayOpen arena.old next }
    ensures { IfOk result (λ r. IfSome r
        (IsOpenTurnOf mode word arena.old next noted.old.keys arena.new noted.new.keys)) }
{
    let Next::Split { i, j } = next else {
        arena.drop_top();
        return Ok(Some(NewGenerators::NoOne));
    };
    let Some(opened) = arena.split_open(i, j, bound_under(mode, word), mediant) else {
        return Ok(None);
    };
    note_mediant(noted, opened.attains, mediant, word)?;
    Ok(Some(new_in(opened.made, i)))
}

/// Searches from a narrow cone, which stands alone in an arena that was made for the limit and is then empty. It is the top of
/// what the search that found this has still to judge, and of which these generators are new. Answers which are new in the cone
/// below it. None where a child is not narrow.
pub(crate) fn search_above(
    mode: Mode,
    q: &SymInt,
    limit: u8,
    arena: &mut NarrowArena,
    fresh: NewGenerators,
    found: &mut Judgements,
) -> Result<Option<NewGenerators>, AllocError>
    requires limited { limit ≤ 200 }
    requires room { limit ≤ arena.old.depth }
    requires alone { IsOne arena.old.cones }
    requires stands { (below : List ShownCone)
        × IsSearchingOver mode q.now limit (below ++ arena.old.cones) fresh found.old }
    ensures searched { (below : List ShownCone)
        → IsSearchingOver mode q.now limit (below ++ arena.old.cones) fresh found.old
        → IfOk result (λ r. IfSome r (λ next. IsSearchingOver mode q.now limit below next found.new)) }
    ensures emptied { IfOk result (λ r. IfSome r (λ _. IsArenaEmptied arena.old arena.new)) }
{
    let _n = q.n();
    let mut word = found.final_word;
    let mut fresh = fresh;
    let mut mediant = [0; 8];
    while arena.len() > 0 {
        let cone = arena.top();
        let before = word;
        let next = lowering_next(mode, cone, limit, fresh, &mut word);
        keep_next(&mut found.judged, mode, cone, limit, next, word)?;
        note_new(&mut found.attaining, cone, fresh, before, word)?;
        let Some(new) = turn(arena, mode, next, word, &mut found.attaining, &mut mediant)? else {
            return Ok(None);
        };
        fresh = new;
    }
    found.final_word = word;
    Ok(Some(fresh))
}

/// Searches from the root, which is narrow, over an empty arena that was made for the limit. None where a child is not narrow.
fn search_from(
    alloc: Global,
    mode: Mode,
    q: &SymInt,
    limit: u8,
    root: NarrowCone,
    mut arena: NarrowArena,
) -> Result<Option<Judgements>, AllocError>
    requires limited { limit ≤ 200 }
    requires bound_fits { BoundFits mode q.now.size (entry q.now) }
    requires room { limit ≤ arena.depth }
    requires size { arena.size ≡ q.now.size }
    requires empty { arena.cones ≡ [] }
    requires root { IsConeAt q.now.size (entry q.now) [] root }
    ensures { IfOk result (λ r. IfSome r (IsFairSearch mode q.now limit)) }
{
    arena.put_alone(root);
    let mut found = Judgements::none(alloc, start_word(mode, q));
    match search_above(mode, q, limit, &mut arena, NewGenerators::Each, &mut found)? {
        Some(_) => Ok(Some(found)),
        None => Ok(None),
    }
}

/// Searches a matrix over narrow cones, as far as cones are narrow. None where a narrow cone has a child that is not, and where the
/// root is over its limit.
pub fn search_narrow(
    alloc: Global,
    mode: Mode,
    q: &SymInt,
    limit: u8,
) -> Result<Option<Judgements>, AllocError>
    requires limited { limit ≤ 200 }
    requires bound_fits { BoundFits mode q.now.size (entry q.now) }
    ensures fair { IfOk result (λ r. IfSome r (IsFairSearch mode q.now limit)) }
    ensures fits { IfOk result (λ r. IfSome r (λ _. Fits q.now.size (entry q.now) unit_vectors)) }
{
    let arena = NarrowArena::with_cones(alloc, q.n(), limit)?;
    match narrow_root(q) {
        Some(root) => search_from(alloc, mode, q, limit, root, arena),
        None => search_from_wide(alloc, mode, q, limit, arena),
    }
}
