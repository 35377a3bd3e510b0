//! The search from a root that is not narrow: over cones of any Gram entries, and below each narrow one over narrow cones.

ghost use Rattle.std.specs.Prelude.{◌≡◌, ◌≤◌, ◌<◌, [], length, IfOk, IfSome};
ghost use Rattle.symmetric_matrix.specs.Symmetric.{entry};
ghost use Rattle.unimodular_cone.specs.Answer.{BoundFits};
ghost use Rattle.unimodular_cone.specs.Cones.{Fits, unit_vectors};
ghost use Rattle.serial_search.specs.Found.{IsFairSearch};
ghost use Rattle.serial_search.specs.Turns.{IsRootAlone};

use crate::narrow_search::search_above;
use crate::search::{Judgements, turn};
use cone_arena::{ConeArena, NarrowArena};
use search_core::{NewGenerators, keep_fate, lowering_fate, note_new, start_word};
use std::alloc::{AllocError, Global};
use symmetric_matrix::SymInt;
use unimodular_cone::Mode;

/// Searches from the root of a matrix, which stands alone in an arena that was made for the limit; a top that is narrow is
/// searched over another. None where a narrow cone has a child that is not.
fn search_mixed(
    alloc: Global,
    mode: Mode,
    q: &SymInt,
    limit: u8,
    wide: &mut ConeArena,
    narrow: &mut NarrowArena,
) -> Result<Option<Judgements>, AllocError>
    requires limited { limit ≤ 200 }
    requires bound_fits { BoundFits mode q.now.size (entry q.now) }
    requires room { limit ≤ wide.old.depth }
    requires root { IsRootAlone q.now wide.old.cones }
    requires narrow_room { limit ≤ narrow.old.depth }
    requires sizes { narrow.old.size ≡ wide.old.size }
    requires empty { narrow.old.cones ≡ [] }
    ensures { IfOk result (λ r. IfSome r (IsFairSearch mode q.now limit)) }
{
    let _n = q.n();
    let mut found = Judgements::none(alloc, start_word(mode, q));
    let mut fresh = NewGenerators::Each;
    while wide.len() > 0 {
        if let Some(cone) = wide.narrow_top() {
            wide.drop_top();
            narrow.put_alone(cone);
            match search_above(mode, q, limit, narrow, fresh, &mut found)? {
                Some(next) => fresh = next,
                None => return Ok(None),
            }
        } else {
            let cone = wide.top();
            let before = found.final_word;
            let fate = lowering_fate(mode, &cone, limit, fresh, &mut found.final_word);
            keep_fate(
                &mut found.judged,
                mode,
                &cone,
                limit,
                &fate,
                found.final_word,
            )?;
            note_new(&mut found.attaining, &cone, fresh, before, found.final_word)?;
            turn(wide, &fate);
            fresh = NewGenerators::after(&fate);
        }
    }
    Ok(Some(found))
}

/// Searches a matrix from its root over cones of any Gram entries, and over an empty arena of narrow ones. None where a narrow cone
/// has a child that is not, and where the root is over its limit.
pub(crate) fn search_from_wide(
    alloc: Global,
    mode: Mode,
    q: &SymInt,
    limit: u8,
    mut narrow: NarrowArena,
) -> Result<Option<Judgements>, AllocError>
    requires limited { limit ≤ 200 }
    requires bound_fits { BoundFits mode q.now.size (entry q.now) }
    requires room { limit ≤ narrow.depth }
    requires size { narrow.size ≡ q.now.size }
    requires empty { narrow.cones ≡ [] }
    ensures fair { IfOk result (λ r. IfSome r (IsFairSearch mode q.now limit)) }
    ensures fits { IfOk result (λ r. IfSome r (λ _. Fits q.now.size (entry q.now) unit_vectors)) }
{
    let mut wide = ConeArena::with_cones(alloc, q.n(), limit)?;
    match wide.push_root(q) {
        Err(_) => Ok(None),
        Ok(()) => search_mixed(alloc, mode, q, limit, &mut wide, &mut narrow),
    }
}
