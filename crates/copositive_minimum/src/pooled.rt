//! The searcher whose workers share a pool.

ghost use Rattle.std.specs.Prelude.{◌≡◌, ◌≢◌, ◌≤◌};
ghost use Rattle.symmetric_matrix.specs.Symmetric.{entry};
ghost use Rattle.unimodular_cone.specs.declared.ConeFail.TheVariants.{Wide, OutOfMemory};
ghost use Rattle.unimodular_cone.specs.Answer.{BoundFits};
ghost use Rattle.search_core.specs.Answers.{IsLeastAnswer, IsSignAnswer, LeastHolds, SignHolds};

use crate::any_gate::AnyGate;
use crate::leave::Leave;
use cone_pool::{Gate, OpenGate, run_pool_part};
use search_core::{Least, Mode, Searcher, Sign, settle_least_part, settle_sign_part};
use serial_search::{bound_wide, least_in_turns, sign_in_turns};
use std::alloc::Global;
use std::sync::Wait;
use std::thread::Threads;
use symmetric_matrix::SymInt;
use unimodular_cone::{ConeFail, WideAt, root};

/// A searcher of 1 to 16 workers in threads, which share a pool of cones and the falling word. It answers what a searcher on
/// one thread answers, however its workers take turns; a worker that waits may keep it from returning.
#[derive(Drop)]
pub struct PooledSearcher<'a, R: Threads + Wait + Sync, G: Gate + Sync> {
    rt: &'a R,
    alloc: Global,
    workers: usize,
    gate: &'a G,
    turns_alone: u64,
    ghost few: { (1 ≤ workers) × (workers ≤ 16) },
}

impl<'a, R: Threads + Wait + Sync, G: Gate + Sync> PooledSearcher<'a, R, G> {
    /// A searcher of this many workers, 1 to 16, which share each search. Each of them passes the gate at the beginning of each of
    /// its turns. It takes no memory until it searches.
    pub fn new(rt: &'a R, alloc: Global, workers: usize, gate: &'a G) -> PooledSearcher<'a, R, G>
        requires some { 1 ≤ workers }
        requires few { workers ≤ 16 }
    {
        PooledSearcher {
            rt,
            alloc,
            workers,
            gate,
            turns_alone: 0,
        }
    }

    /// The same searcher, which begins each search alone, and calls the workers where so many turns don't end it. A turn judges
    /// one cone.
    pub fn beginning_alone(mut self, turns: u64) -> PooledSearcher<'a, R, G> {
        self.turns_alone = turns;
        self
    }

    /// The least value at nonzero nonnegative integer vectors, and all vectors that attain it, at any gate.
    pub fn least(&mut self, q: &SymInt, limit: u8) -> Least
        requires { limit ≤ 200 }
        ensures answer { IsLeastAnswer q.now.size (entry q.now) limit result }
        ensures holds { LeastHolds q.now.size (entry q.now) result }
    {
        match bound_wide(q) {
            Some(diagonal) => Least::BoundWide { diagonal },
            None => self.least_within(q, limit),
        }
    }

    /// Whether a value at nonnegative vectors is below 0, at any gate.
    pub fn sign(&mut self, q: &SymInt, limit: u8) -> Sign
        requires { limit ≤ 200 }
        ensures answer { IsSignAnswer q.now.size (entry q.now) limit result }
        ensures holds { SignHolds q.now.size (entry q.now) result }
    {
        self.sign_within(q, limit)
    }

    /// The least value of a matrix whose least diagonal entry is at most 2^63 - 1.
    fn least_within(&self, q: &SymInt, limit: u8) -> Least
        requires limited { limit ≤ 200 }
        requires bound_fits { BoundFits Mode.Least q.now.size (entry q.now) }
        ensures { IsLeastAnswer q.now.size (entry q.now) limit result }
    {
        match least_in_turns(self.alloc, q, limit, self.turns_alone) {
            Some(least) => least,
            None => self.least_shared(q, limit),
        }
    }

    /// The same, by workers.
    fn least_shared(&self, q: &SymInt, limit: u8) -> Least
        requires limited { limit ≤ 200 }
        requires bound_fits { BoundFits Mode.Least q.now.size (entry q.now) }
        ensures { IsLeastAnswer q.now.size (entry q.now) limit result }
    {
        let mode = Mode::Least;
        match root(q) {
            Err(fail) => Least::Wide {
                at: wide_entry(fail),
            },
            Ok(_root) => match run_pool_part(
                self.rt,
                self.alloc,
                self.workers,
                q,
                mode,
                limit,
                self.gate,
            ) {
                Ok(part) => settle_least_part(self.alloc, q, limit, &part.judged, part.final_word),
                Err(_) => Least::OutOfMemory,
            },
        }
    }

    /// Whether some value is below 0.
    fn sign_within(&self, q: &SymInt, limit: u8) -> Sign
        requires { limit ≤ 200 }
        ensures { IsSignAnswer q.now.size (entry q.now) limit result }
    {
        match sign_in_turns(self.alloc, q, limit, self.turns_alone) {
            Some(sign) => sign,
            None => self.sign_shared(q, limit),
        }
    }

    /// The same, by workers.
    fn sign_shared(&self, q: &SymInt, limit: u8) -> Sign
        requires { limit ≤ 200 }
        ensures { IsSignAnswer q.now.size (entry q.now) limit result }
    {
        let mode = Mode::Sign;
        match root(q) {
            Err(fail) => Sign::Wide {
                at: wide_entry(fail),
            },
            Ok(_root) => match run_pool_part(
                self.rt,
                self.alloc,
                self.workers,
                q,
                mode,
                limit,
                self.gate,
            ) {
                Ok(part) => settle_sign_part(self.alloc, q, limit, &part.judged, part.final_word),
                Err(_) => Sign::OutOfMemory,
            },
        }
    }
}

impl<'a, R: Threads + Wait + Sync> Searcher for PooledSearcher<'a, R, OpenGate> {
    fn least(&mut self, q: &SymInt, limit: u8) -> Least {
        let leave = Leave::of(self.rt);
        PooledSearcher::new(&leave, self.alloc, self.workers, self.gate)
            .beginning_alone(self.turns_alone)
            .least(q, limit)
    }

    fn sign(&mut self, q: &SymInt, limit: u8) -> Sign {
        let leave = Leave::of(self.rt);
        PooledSearcher::new(&leave, self.alloc, self.workers, self.gate)
            .beginning_alone(self.turns_alone)
            .sign(q, limit)
    }
}

impl<'a, 'b, R: Threads + Wait + Sync> Searcher
    for PooledSearcher<'a, R, AnyGate<&'b (dyn Gate + Sync)>> {
    fn least(&mut self, q: &SymInt, limit: u8) -> Least {
        let leave = Leave::of(self.rt);
        PooledSearcher::new(&leave, self.alloc, self.workers, self.gate)
            .beginning_alone(self.turns_alone)
            .least(q, limit)
    }

    fn sign(&mut self, q: &SymInt, limit: u8) -> Sign {
        let leave = Leave::of(self.rt);
        PooledSearcher::new(&leave, self.alloc, self.workers, self.gate)
            .beginning_alone(self.turns_alone)
            .sign(q, limit)
    }
}

/// The entry over its limit for which a cone is not made, where memory is not what was wanting.
fn wide_entry(fail: ConeFail) -> WideAt
    requires { fail ≢ OutOfMemory }
    ensures { fail ≡ Wide result }
{
    match fail {
        ConeFail::Wide(at) => at,
        ConeFail::OutOfMemory => unreachable!(),
    }
}
