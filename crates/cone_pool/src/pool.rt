//! The pool.

ghost use Rattle.std.specs.Prelude.{◌≡◌, ◌<◌, ◌≤◌, ◌+◌, Bool, true, [], ◌∷◌, length, IfOk, OnOk};
ghost use Rattle.std.specs.List.{Contains};
ghost use Rattle.symmetric_matrix.specs.Symmetric.{entry};
ghost use Rattle.unimodular_cone.specs.Answer.{BoundFits};
ghost use Rattle.unimodular_cone.specs.Cones.{Fits, unit_vectors};
ghost use Rattle.unimodular_cone.specs.Paths.{Path};
ghost use Rattle.search_core.specs.Fair.{IsFair, IsFairPart};
ghost use Rattle.search_core.specs.Machine.{times};
ghost use Rattle.cone_pool.specs.Parts.{Member, IsReturned, total_found, total_handled};
ghost use Rattle.cone_pool.specs.Crews.{AreNewWorkers, AllKeep};

use crate::cone_stack::ConeStack;
use crate::counted::CountedSeat;
use crate::crew::work_all;
use crate::gate::Gate;
use crate::gathering::{conclude, gather};
use crate::hiring::hired;
use crate::judgements::Judgements;
use crate::kept::Kept;
use crate::lending::{hand_out, take_back, thieves};
use crate::lot::Lot;
use crate::member::Member;
use crate::pooled::Pooled;
use bound_word::BoundTable;
use search_core::{Mode, start_word};
use std::alloc::{AllocError, Global};
use std::sync::Wait;
use std::thread::Threads;
use symmetric_matrix::SymInt;

/// All that the workers do, from their first pass on a deque until all passes are back.
fn share<R: Threads + Sync, G: Gate + Sync>(
    rt: &R,
    alloc: Global,
    members: &mut [Member],
    mode: Mode,
    q: &SymInt,
    limit: u8,
    table: &BoundTable,
    gate: &G,
) -> Result<(), AllocError>
    requires limited { limit ≤ 200 }
    requires some { 0 < length members.old }
    requires new { AreNewWorkers table.now.id 1 members.old }
    ensures returned { OnOk result ((w : Member) → Contains members.new w
        → IsReturned mode q.now.size (entry q.now) limit table.now.id w) }
    ensures sums { OnOk result ((p : Path)
        → total_found p members.new + times p ([] ∷ []) ≡ total_handled p members.new) }
    ensures alike { OnOk result ((whole : Bool) → AllKeep whole members.old → AllKeep whole members.new) }
{
    hand_out(alloc, members)?;
    let stealers = thieves(alloc, members)?;
    work_all(
        rt,
        members,
        mode,
        q,
        limit,
        table,
        stealers.as_slice(),
        gate,
    );
    take_back(alloc, members);
    Ok(())
}

/// What is kept of the judgements of a search by 1 to 16 workers: the whole list, or those that an answer may look at.
fn search<R: Threads + Wait + Sync, G: Gate + Sync>(
    rt: &R,
    alloc: Global,
    workers: usize,
    q: &SymInt,
    mode: Mode,
    limit: u8,
    whole: bool,
    gate: &G,
) -> Result<Pooled, AllocError>
    requires workers { (1 ≤ workers) × (workers ≤ 16) }
    requires limited { limit ≤ 200 }
    requires root { Fits q.now.size (entry q.now) unit_vectors }
    requires bound_fits { BoundFits mode q.now.size (entry q.now) }
    ensures part { IfOk result
        (λ pooled. IsFairPart mode q.now.size (entry q.now) limit pooled.judged.items pooled.final_word) }
    ensures whole { whole ≡ true → IfOk result
        (λ pooled. IsFair mode q.now.size (entry q.now) limit pooled.judged.items pooled.final_word) }
{
    let start = start_word(mode, q);
    let (table, mut seat) = BoundTable::make(alloc, start)?;
    let mut members = hired(alloc, &table, &mut seat, workers, whole)?;
    share(
        rt,
        alloc,
        members.as_mut_slice(),
        mode,
        q,
        limit,
        &table,
        gate,
    )?;
    let mut chief = Member {
        number: 1,
        lot: Lot::new(alloc)?,
        seat: CountedSeat::of(seat),
        judged: Judgements::new(alloc, whole),
        kept: Kept::new(alloc),
        cones: ConeStack::new(alloc),
    };
    gather(&mut chief, members, mode, q, limit, &table)?;
    conclude(chief, mode, q, limit, table)
}

/// The judgements of a search by 1 to 16 workers in threads, and its final word. The limit is a depth, at most 200, and
/// each worker passes the gate at the beginning of each of its turns. What a worker without memory leaves is judged at
/// the end by the caller's thread; the call is refused where that finds no memory either, or where a worker can't be
/// made.
pub fn run_pool<R: Threads + Wait + Sync, G: Gate + Sync>(
    rt: &R,
    alloc: Global,
    workers: usize,
    q: &SymInt,
    mode: Mode,
    limit: u8,
    gate: &G,
) -> Result<Pooled, AllocError>
    requires workers { (1 ≤ workers) × (workers ≤ 16) }
    requires limited { limit ≤ 200 }
    requires root { Fits q.now.size (entry q.now) unit_vectors }
    requires bound_fits { BoundFits mode q.now.size (entry q.now) }
    ensures { IfOk result (λ pooled. IsFair mode q.now.size (entry q.now) limit pooled.judged.items pooled.final_word) }
{
    search(rt, alloc, workers, q, mode, limit, true, gate)
}

/// The same search, of whose judgements those are kept that an answer may look at, as a search on one thread keeps them.
/// It takes the same arguments, and is refused where `run_pool` is.
pub fn run_pool_part<R: Threads + Wait + Sync, G: Gate + Sync>(
    rt: &R,
    alloc: Global,
    workers: usize,
    q: &SymInt,
    mode: Mode,
    limit: u8,
    gate: &G,
) -> Result<Pooled, AllocError>
    requires workers { (1 ≤ workers) × (workers ≤ 16) }
    requires limited { limit ≤ 200 }
    requires root { Fits q.now.size (entry q.now) unit_vectors }
    requires bound_fits { BoundFits mode q.now.size (entry q.now) }
    ensures { IfOk result
        (λ pooled. IsFairPart mode q.now.size (entry q.now) limit pooled.judged.items pooled.final_word) }
{
    search(rt, alloc, workers, q, mode, limit, false, gate)
}
