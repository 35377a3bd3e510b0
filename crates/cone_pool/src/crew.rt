//! All workers at once.

ghost use Rattle.std.specs.Prelude.{◌≡◌, ◌<◌, ◌≤◌, ℕ, All, length, slice_index_or};
ghost use Rattle.symmetric_matrix.specs.Symmetric.{entry};
ghost use Rattle.cone_pool.specs.Parts.{Member, IsWorkerReady, IsWorkerDone, deques_of};

use crate::gate::Gate;
use crate::member::Member;
use crate::rule::Thief;
use bound_word::BoundTable;
use search_core::Mode;
use std::thread;
use std::thread::Threads;
use symmetric_matrix::SymInt;

/// Runs each worker in a thread of its own, and joins them all. Where no thread can be made, one worker runs after
/// another.
pub(crate) fn work_all<R: Threads + Sync, G: Gate + Sync>(
    rt: &R,
    members: &mut [Member],
    mode: Mode,
    q: &SymInt,
    limit: u8,
    table: &BoundTable,
    thieves: &[Thief],
    gate: &G,
)
    requires limited { limit ≤ 200 }
    requires some { 0 < length members.old }
    requires ready { (k : ℕ) (w : Member) → k < length members.old
        → IsWorkerReady mode q.now.size (entry q.now) limit table.now.id (deques_of thieves.now)
        (slice_index_or members.old k w) }
    ensures { (k : ℕ) (w : Member) → k < length members.old
        → IsWorkerDone mode q.now.size (entry q.now) limit
        (slice_index_or members.old k w) (slice_index_or members.new k w) }
{
    let threads = members.len();
    thread::for_each_mut(
        rt,
        members,
        threads,
        &|_, member: &mut Member|
            requires { (limit ≤ 200)
                × IsWorkerReady mode q.now.size (entry q.now) limit table.now.id (deques_of thieves.now) member.old }
            ensures { IsWorkerDone mode q.entry.now.size (entry q.entry.now) limit member.old member.new }
        { member.work(mode, q, limit, table, thieves, gate) },
    );
}
