//! The workers are made.

ghost use Rattle.std.specs.Prelude.{◌≡◌, ◌<◌, ◌≤◌, ◌+◌, length, IfOk, true};
ghost use Rattle.bound_word.specs.Seats.{Seat, another_seat, with_one_out};
ghost use Rattle.cone_pool.specs.Crews.{opening_lot, IsNewWorker, AreNewWorkers, AllKeep, seat_with_out};

use crate::cone_stack::ConeStack;
use crate::counted::CountedSeat;
use crate::judgements::Judgements;
use crate::kept::Kept;
use crate::lot::Lot;
use crate::member::Member;
use bound_word::{BoundSeat, BoundTable};
use std::alloc::{AllocError, Global};
use unimodular_cone::Path;

/// A deque that has the root.
fn rooted(alloc: Global) -> Result<Lot, AllocError>
    ensures { IfOk result (λ lot. lot ≡ opening_lot 1 lot.deque) }
{
    let mut lot = Lot::new(alloc)?;
    match lot.push(Path::root()) {
        Ok(()) => Ok(lot),
        Err(_) => Err(AllocError),
    }
}

/// The deque of the worker after the first `k`. The first worker's has the root.
fn lot_after(alloc: Global, k: usize) -> Result<Lot, AllocError>
    ensures { IfOk result (λ lot. lot ≡ opening_lot (k + 1) lot.deque) }
{
    match k {
        0 => rooted(alloc),
        _ => Lot::new(alloc),
    }
}

/// The worker after the first `k`. It keeps the whole list of its judgements, or those that an answer may look at.
fn hire(
    alloc: Global,
    table: &BoundTable,
    first: &mut BoundSeat,
    k: usize,
    whole: bool,
) -> Result<Member, AllocError>
    requires few { k < 16 }
    requires table { first.old.table ≡ table.now.id }
    requires first { first.old.first ≡ true }
    ensures worker { IfOk result (λ w. IsNewWorker table.now.id (k + 1) w) }
    ensures whole { IfOk result (λ w. w.judged.whole ≡ whole) }
    ensures seat { IfOk result (λ w. first.new ≡ with_one_out first.old) }
{
    let lot = lot_after(alloc, k)?;
    Ok(Member {
        number: k + 1,
        lot,
        seat: CountedSeat::of(table.split(first)),
        judged: Judgements::new(alloc, whole),
        kept: Kept::new(alloc),
        cones: ConeStack::new(alloc),
    })
}

/// The workers, whose deques are empty but for the first one's, which has the root. Each keeps the whole list of its
/// judgements, or those that an answer may look at.
pub(crate) fn hired(
    alloc: Global,
    table: &BoundTable,
    first: &mut BoundSeat,
    workers: usize,
    whole: bool,
) -> Result<Vec<Member>, AllocError>
    requires few { workers ≤ 16 }
    requires table { first.old.table ≡ table.now.id }
    requires first { first.old.first ≡ true }
    ensures workers { IfOk result (λ members. AreNewWorkers table.now.id 1 members.items) }
    ensures alike { IfOk result (λ members. AllKeep whole members.items) }
    ensures many { IfOk result (λ members. length members.items ≡ workers) }
    ensures seat { IfOk result (λ members. first.new ≡ seat_with_out (first.old.out + workers) first.old) }
{
    let mut members = Vec::new(alloc);
    for k in 0..workers {
        members.push(hire(alloc, table, first, k, whole)?)?;
    }
    Ok(members)
}
