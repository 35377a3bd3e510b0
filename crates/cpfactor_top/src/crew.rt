//! Who searches for a command: one worker, or several.

ghost use Rattle.std.specs.Prelude.{◌≤◌, length};
ghost use Rattle.cpfactor_lines.specs.Sinks.{sink_shown};
ghost use Rattle.cpfactor_top.specs.Outcomes.{EndsBy};
ghost use Rattle.cpfactor_top.specs.Files.{matrix_file};
ghost use Rattle.cpfactor_top.specs.Answers.{IsBytesAnswer};
ghost use Rattle.cpfactor_top.specs.Solving.{IsSolved};
ghost use Rattle.cpfactor_top.specs.Searching.{IsSearched};
ghost use Rattle.cpfactor_top.specs.Sampling.{IsSampleAnswer};

use crate::ended::Ended;
use crate::sampling::sample_with;
use crate::searching::{minimum_alone, search_with};
use crate::solving::{solve_alone, solve_with};
use cone_pool::Gate;
use copositive_minimum::{AnyGate, PooledSearcher};
use cp_outside::Sink;
use perfect_walk::Limits;
use search_core::Searcher;
use serial_search::SerialSearcher;
use std::alloc::Global;
use std::sync::Wait;
use std::thread::Threads;
use unimodular_cone::Mode;

/// The turns that a search takes in less time than its threads take to start.
const TURNS_ALONE: u64 = 16_384;

/// The searcher of this many workers, 1 to 16, where they are several. Short searches it makes alone.
pub fn crew_of<'a, 'b, R: Threads + Wait + Sync>(
    rt: &'a R,
    alloc: Global,
    workers: u8,
    gate: &'a AnyGate<&'b (dyn Gate + Sync)>,
) -> Option<PooledSearcher<'a, R, AnyGate<&'b (dyn Gate + Sync)>>>
    requires { workers ≤ 16 }
{
    if workers < 2 {
        return None;
    }
    Some(PooledSearcher::new(rt, alloc, usize::from(workers), gate).beginning_alone(TURNS_ALONE))
}

/// `solve` after reading, by this crew or, without one, by one worker.
pub fn solve_by<S: Searcher + Drop, K: Sink>(
    alloc: Global,
    crew: Option<S>,
    bytes: &[u8],
    limits: Limits,
    trace: bool,
    sink: &mut K,
) -> Ended
    requires bytes { length bytes.now ≤ matrix_file.limit }
    requires depth { limits.depth ≤ 200 }
    ensures { EndsBy (IsBytesAnswer (IsSolved trace limits) bytes.now) (sink_shown K.Sink sink.old sink.new) result }
{
    match crew {
        None => solve_alone(alloc, bytes, limits, trace, sink),
        Some(mut searcher) => solve_with(alloc, &mut searcher, bytes, limits, trace, sink),
    }
}

/// `minimum` (mode `Least`) or `copositive` (mode `Sign`) after reading, by this crew or, without one, by one worker.
pub fn search_by<S: Searcher + Drop, K: Sink>(
    alloc: Global,
    crew: Option<S>,
    bytes: &[u8],
    mode: Mode,
    depth: u8,
    sink: &mut K,
) -> Ended
    requires bytes { length bytes.now ≤ matrix_file.limit }
    requires depth { depth ≤ 200 }
    ensures { EndsBy (IsBytesAnswer (IsSearched mode depth) bytes.now) (sink_shown K.Sink sink.old sink.new) result }
{
    match crew {
        None => minimum_alone(alloc, bytes, mode, depth, sink),
        Some(mut searcher) => search_with(alloc, &mut searcher, bytes, mode, depth, sink),
    }
}

/// `sample`, by this crew or, without one, by one worker.
pub fn sample_by<S: Searcher + Drop, K: Sink>(
    alloc: Global,
    crew: Option<S>,
    n: u8,
    k: u32,
    first: u64,
    sink: &mut K,
) -> Ended
    requires first_size { 1 ≤ n }
    requires last_size { n ≤ 6 }
    requires first_count { 1 ≤ k }
    requires last_count { k ≤ 100000 }
    ensures { EndsBy (IsSampleAnswer n k first) (sink_shown K.Sink sink.old sink.new) result }
{
    match crew {
        None => sample_with(alloc, &mut SerialSearcher::new(alloc), n, k, first, sink),
        Some(mut searcher) => sample_with(alloc, &mut searcher, n, k, first, sink),
    }
}
