//! What the workers left is gathered by the coordinator.

ghost use Rattle.std.specs.Prelude.{◌≡◌, ◌<◌, ◌≤◌, ◌-◌, ◌^◌, true, false, [], length, OnOk, IfOk};
ghost use Rattle.std.specs.List.{Contains};
ghost use Rattle.symmetric_matrix.specs.Symmetric.{entry};
ghost use Rattle.unimodular_cone.specs.Cones.{Fits, unit_vectors};
ghost use Rattle.search_core.specs.Fair.{start_word, IsFair, IsFairPart};
ghost use Rattle.cone_pool.specs.Crews.{AllKeep};
ghost use Rattle.cone_pool.specs.Parts.{Member, IsDrained, IsSafe, IsMerged, IsReturned, HasGathered};

use crate::kept::Kept;
use crate::lot::Lot;
use crate::member::Member;
use crate::pooled::Pooled;
use bound_word::BoundTable;
use search_core::Mode;
use std::alloc::AllocError;
use symmetric_matrix::SymInt;

/// Moves all paths of a deque, on which no other pass is in use, to another deque.
fn drain(from: &mut Lot, to: &mut Lot) -> Result<(), AllocError>
    requires { from.old.out ≡ 0 }
    ensures { OnOk result (IsDrained from.old to.old to.new) }
{
    for _ in 0..u64::MAX {
        match from.pop() {
            Some(path) => {
                match to.push(path) {
                    Ok(()) => {}
                    Err(_) => return Err(AllocError),
                }
            }
            None => return Ok(()),
        }
    }
    Err(AllocError)
}

/// Moves the paths that were kept to a deque.
fn unkeep(kept: &mut Kept, to: &mut Lot) -> Result<(), AllocError>
    ensures { OnOk result (IsSafe kept.old to.old [] to.new []) }
{
    while let Some(path) = kept.take() {
        match to.push(path) {
            Ok(()) => {}
            Err(_) => return Err(AllocError),
        }
    }
    Ok(())
}

/// Takes over all that a worker left: the paths in its deque and those that it kept, its judgements and its seat.
pub(crate) fn merge(
    chief: &mut Member,
    member: Member,
    table: &BoundTable,
) -> Result<(), AllocError>
    requires tables { (chief.old.seat.table ≡ table.now.id) × (member.seat.table ≡ table.now.id) }
    requires first { chief.old.seat.first ≡ true }
    requires second { member.seat.first ≡ false }
    requires whole { member.judged.whole ≡ chief.old.judged.whole }
    requires out { member.lot.out ≡ 0 }
    requires tokens { member.lot.tokens ≡ [] }
    ensures { OnOk result (IsMerged member chief.old chief.new) }
{
    let Member {
        number: _,
        mut lot,
        seat,
        judged,
        mut kept,
        cones: _,
    } = member;
    drain(&mut lot, &mut chief.lot)?;
    unkeep(&mut kept, &mut chief.lot)?;
    chief.judged.append(judged)?;
    chief.seat.join(table, seat);
    Ok(())
}

/// Takes over all workers, the last one first.
pub(crate) fn gather(
    chief: &mut Member,
    members: Vec<Member>,
    mode: Mode,
    q: &SymInt,
    limit: u8,
    table: &BoundTable,
) -> Result<(), AllocError>
    requires returned { (w : Member) → Contains members.items w
        → IsReturned mode q.now.size (entry q.now) limit table.now.id w }
    requires alike { AllKeep chief.old.judged.whole members.items }
    requires gathered { HasGathered mode q.now.size (entry q.now) limit table.now.id members.items chief.old }
    ensures gathered { OnOk result (HasGathered mode q.now.size (entry q.now) limit table.now.id [] chief.new) }
    ensures whole { OnOk result (chief.new.judged.whole ≡ chief.old.judged.whole) }
{
    let mut rest = members;
    while let Some(member) = rest.pop() {
        merge(chief, member, table)?;
    }
    Ok(())
}

/// Judges what is left, closes the table, and gives what was kept of the judgements.
pub(crate) fn conclude(
    chief: Member,
    mode: Mode,
    q: &SymInt,
    limit: u8,
    table: BoundTable,
) -> Result<Pooled, AllocError>
    requires root { Fits q.now.size (entry q.now) unit_vectors }
    requires limited { limit ≤ 200 }
    requires start { table.start ≡ start_word mode q.now.size (entry q.now) }
    requires small { table.start ≤ 2 ^ 64 - 1 }
    requires gathered { HasGathered mode q.now.size (entry q.now) limit table.id [] chief }
    ensures part { IfOk result
        (λ pooled. IsFairPart mode q.now.size (entry q.now) limit pooled.judged.items pooled.final_word) }
    ensures whole { chief.judged.whole ≡ true → IfOk result
        (λ pooled. IsFair mode q.now.size (entry q.now) limit pooled.judged.items pooled.final_word) }
{
    let mut chief = chief;
    chief.finish(mode, q, limit, &table)?;
    let Member {
        number: _,
        lot: _,
        seat,
        judged,
        kept: _,
        cones: _,
    } = chief;
    let last = table.close(seat.into_seat());
    Ok(Pooled {
        judged: judged.into_kept(),
        final_word: last.word,
    })
}
