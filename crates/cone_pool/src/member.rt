//! A worker, and how it takes a path.

ghost use Rattle.std.specs.Prelude.{◌≡◌, ◌≤◌, [], ◌∷◌, map, IsTrue, OnOk};
ghost use Rattle.symmetric_matrix.specs.Symmetric.{entry};
ghost use Rattle.search_core.specs.Machine.{children_of};
ghost use Rattle.unimodular_cone.specs.Cones.{Fits, unit_vectors};
ghost use Rattle.cone_pool.specs.Keeping.{HasRoom};
ghost use Rattle.cone_pool.specs.Lots.{IsEmptied, deque_of};
ghost use Rattle.cone_pool.specs.Turns.{IsTopAt};
ghost use Rattle.std.specs.Option.{option_to_list};
ghost use Rattle.crossbeam_deque.specs.Handles.{stealer_deque};
ghost use Rattle.cone_pool.specs.Parts.{TakesOnly, deques_of, IsWorkerPart, IsFateOnTop, IsJudgedAlone, IsSameMember};

use crate::cone_stack::ConeStack;
use crate::counted::{CountedSeat, count, uncount};
use crate::gate::Gate;
use crate::judgements::Judgements;
use crate::kept::Kept;
use crate::lot::Lot;
use crate::opening::put_children;
use crate::rule::Thief;
use crate::stack::{reach, ready, turned};
use bound_word::BoundTable;
use search_core::{Fate, Mode, code, judgement};
use std::alloc::AllocError;
use std::thread;
use symmetric_matrix::SymInt;
use unimodular_cone::Path;

/// How often a worker looks at all deques in vain before it ends.
const SWEEPS: u64 = 67_108_864;

/// One worker: its deque, its seat at the word, what it judged, the paths that it kept, and the cones of the paths in
/// its deque, as far as it made them.
#[derive(Drop)]
pub(crate) struct Member {
    /// It counts from 1.
    pub(crate) number: usize,
    pub(crate) lot: Lot,
    pub(crate) seat: CountedSeat,
    pub(crate) judged: Judgements,
    pub(crate) kept: Kept,
    pub(crate) cones: ConeStack,
}

impl Member {
    /// Takes the path at the back of its own deque.
    fn pop(&mut self) -> Option<Path>
        ensures { TakesOnly (option_to_list result) self.old self.new }
    {
        self.lot.pop()
    }

    /// Takes the first path of another deque, at one look at each.
    fn steal(&mut self, thieves: &[Thief]) -> Option<Path>
        requires { map deque_of self.old.lot.tokens ≡ deques_of thieves.now }
        ensures { TakesOnly (option_to_list result) self.old self.new }
    {
        for k in 0..thieves.len() {
            if k + 1 == self.number {
                continue;
            }
            if let Some(path) = self.lot.steal(k, &thieves[k]) {
                return Some(path);
            }
        }
        None
    }

    /// Takes the last path of its own deque, or the first of another's where its own is empty. None where the count of
    /// unfinished cones read 0, or after many looks at all deques in vain.
    pub(crate) fn take(&mut self, table: &BoundTable, thieves: &[Thief]) -> Option<Path>
        requires table { self.old.seat.table ≡ table.now.id }
        requires deques { map deque_of self.old.lot.tokens ≡ deques_of thieves.now }
        ensures { TakesOnly (option_to_list result) self.old self.new }
    {
        if let Some(path) = self.pop() {
            return Some(path);
        }
        for _ in 0..SWEEPS {
            if let Some(path) = self.steal(thieves) {
                return Some(path);
            }
            if self.seat.idle(table) {
                return None;
            }
            thread::yield_now();
        }
        None
    }

    /// Judges the cone on top of the stack, which is the one at the path in hand, under the word that its offer is
    /// answered.
    fn judge(&mut self, mode: Mode, q: &SymInt, limit: u8, table: &BoundTable, path: &Path) -> Fate
        requires limited { limit ≤ 200 }
        requires table { self.old.seat.table ≡ table.now.id }
        requires room { HasRoom self.old.judged }
        requires none { self.old.kept ≡ [] }
        requires top { IsTopAt path.now self.old.cones }
        requires part { IsWorkerPart mode q.now.size (entry q.now) limit (path.now ∷ []) self.old }
        ensures part { IsWorkerPart mode q.now.size (entry q.now) limit (children_of path.now result) self.new }
        ensures fate { IsFateOnTop mode limit result self.new.cones }
        ensures rest { IsJudgedAlone self.old self.new }
    {
        let _n = q.n();
        let cone = self.cones.top();
        let word = self.seat.offer(table, code(mode, cone));
        let j = judgement(mode, cone, limit, word);
        let fate = j.fate;
        self.judged.note(mode, j, word);
        fate
    }

    /// Puts the children of the cone that was judged into the deque.
    fn open(&mut self, mode: Mode, q: &SymInt, limit: u8, path: &Path, fate: &Fate)
        requires limited { limit ≤ 200 }
        requires none { self.old.kept ≡ [] }
        requires top { IsTopAt path.now self.old.cones }
        requires fate { IsFateOnTop mode limit fate.now self.old.cones }
        requires part { IsWorkerPart mode q.now.size (entry q.now) limit (children_of path.now fate.now) self.old }
        ensures part { IsWorkerPart mode q.now.size (entry q.now) limit [] self.new }
        ensures same { IsSameMember self.old self.new }
    {
        turned(&mut self.cones, mode, q, limit, path, fate);
        if let Fate::Split { .. } = *fate {
            put_children(&mut self.lot, &mut self.kept, path);
        }
    }

    /// Judges the cone on top of the stack, which is the one at the path in hand, and puts the children of a Split into
    /// the deque. False where there was no memory for a child.
    fn treat(&mut self, mode: Mode, q: &SymInt, limit: u8, table: &BoundTable, path: &Path) -> bool
        requires limited { limit ≤ 200 }
        requires table { self.old.seat.table ≡ table.now.id }
        requires room { HasRoom self.old.judged }
        requires none { self.old.kept ≡ [] }
        requires top { IsTopAt path.now self.old.cones }
        requires part { IsWorkerPart mode q.now.size (entry q.now) limit (path.now ∷ []) self.old }
        ensures part { IsWorkerPart mode q.now.size (entry q.now) limit [] self.new }
        ensures same { IsSameMember self.old self.new }
        ensures none { IsTrue result → self.new.kept ≡ [] }
    {
        let fate = self.judge(mode, q, limit, table, path);
        count(table, &mut self.seat, &fate);
        self.open(mode, q, limit, path, &fate);
        uncount(table, &mut self.seat, self.kept.len());
        self.kept.is_empty()
    }

    /// Judges the cone at a path in hand, and puts the children of a Split into the deque. False where there was no
    /// memory.
    fn handle(&mut self, mode: Mode, q: &SymInt, limit: u8, table: &BoundTable, path: Path) -> bool
        requires limited { limit ≤ 200 }
        requires table { self.old.seat.table ≡ table.now.id }
        requires room { HasRoom self.old.judged }
        requires none { self.old.kept ≡ [] }
        requires part { IsWorkerPart mode q.now.size (entry q.now) limit (path ∷ []) self.old }
        ensures part { IsWorkerPart mode q.now.size (entry q.now) limit [] self.new }
        ensures same { IsSameMember self.old self.new }
        ensures none { IsTrue result → self.new.kept ≡ [] }
    {
        if !reach(&mut self.cones, q, limit, &path) {
            self.kept.add(path);
            uncount(table, &mut self.seat, 1);
            return false;
        }
        self.treat(mode, q, limit, table, &path)
    }

    /// One turn: a path is taken, its cone judged, and the children of a Split are put into the deque. False where the
    /// worker ends.
    fn turn(
        &mut self,
        mode: Mode,
        q: &SymInt,
        limit: u8,
        table: &BoundTable,
        thieves: &[Thief],
    ) -> bool
        requires limited { limit ≤ 200 }
        requires table { self.old.seat.table ≡ table.now.id }
        requires deques { map deque_of self.old.lot.tokens ≡ deques_of thieves.now }
        requires none { self.old.kept ≡ [] }
        requires part { IsWorkerPart mode q.now.size (entry q.now) limit [] self.old }
        ensures part { IsWorkerPart mode q.now.size (entry q.now) limit [] self.new }
        ensures same { IsSameMember self.old self.new }
        ensures none { IsTrue result → self.new.kept ≡ [] }
    {
        if self.judged.reserve().is_err() {
            return false;
        }
        match self.take(table, thieves) {
            Some(path) => self.handle(mode, q, limit, table, path),
            None => false,
        }
    }

    /// Judges all that is in its own deque, where all that is unfinished is. It is refused for want of memory alone.
    pub(crate) fn finish(
        &mut self,
        mode: Mode,
        q: &SymInt,
        limit: u8,
        table: &BoundTable,
    ) -> Result<(), AllocError>
        requires limited { limit ≤ 200 }
        requires root { Fits q.now.size (entry q.now) unit_vectors }
        requires table { self.old.seat.table ≡ table.now.id }
        requires number { self.old.number ≡ 1 }
        requires tokens { self.old.lot.tokens ≡ [] }
        requires out { self.old.lot.out ≡ 0 }
        requires none { self.old.kept ≡ [] }
        requires part { IsWorkerPart mode q.now.size (entry q.now) limit [] self.old }
        ensures part { OnOk result (IsWorkerPart mode q.now.size (entry q.now) limit [] self.new) }
        ensures same { OnOk result (IsSameMember self.old self.new) }
        ensures done { OnOk result (IsEmptied self.new.lot × (self.new.kept ≡ [])) }
    {
        for _ in 0..u64::MAX {
            self.judged.reserve()?;
            match self.lot.pop() {
                Some(path) => {
                    ready(&mut self.cones, q, limit, &path)?;
                    if !self.treat(mode, q, limit, table, &path) {
                        return Err(AllocError);
                    }
                }
                None => return Ok(()),
            }
        }
        Err(AllocError)
    }

    /// All turns of a worker, until it finds no path, or no memory.
    fn turns<G: Gate>(
        &mut self,
        mode: Mode,
        q: &SymInt,
        limit: u8,
        table: &BoundTable,
        thieves: &[Thief],
        gate: &G,
    )
        requires limited { limit ≤ 200 }
        requires table { self.old.seat.table ≡ table.now.id }
        requires deques { map deque_of self.old.lot.tokens ≡ deques_of thieves.now }
        requires none { self.old.kept ≡ [] }
        requires part { IsWorkerPart mode q.now.size (entry q.now) limit [] self.old }
        ensures part { IsWorkerPart mode q.now.size (entry q.now) limit [] self.new }
        ensures same { IsSameMember self.old self.new }
    {
        for turn in 0..u64::MAX {
            gate.pass(self.number, turn + 1);
            if !self.turn(mode, q, limit, table, thieves) {
                break;
            }
        }
    }

    /// All turns of a worker. What it borrowed from the count it gives back.
    pub(crate) fn work<G: Gate>(
        &mut self,
        mode: Mode,
        q: &SymInt,
        limit: u8,
        table: &BoundTable,
        thieves: &[Thief],
        gate: &G,
    )
        requires limited { limit ≤ 200 }
        requires table { self.old.seat.table ≡ table.now.id }
        requires deques { map deque_of self.old.lot.tokens ≡ deques_of thieves.now }
        requires none { self.old.kept ≡ [] }
        requires part { IsWorkerPart mode q.now.size (entry q.now) limit [] self.old }
        ensures part { IsWorkerPart mode q.now.size (entry q.now) limit [] self.new }
        ensures same { IsSameMember self.old self.new }
    {
        self.turns(mode, q, limit, table, thieves, gate);
        self.seat.settle(table);
    }
}
