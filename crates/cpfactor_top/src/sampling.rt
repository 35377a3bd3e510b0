//! The command `sample`.

ghost use Rattle.std.specs.Prelude.{◌≡◌, ◌≤◌, length, Some, IfOk};
ghost use Rattle.perfect_walk.specs.declared.journal.Journal.{Journal as a_journal};
ghost use Rattle.cpfactor_lines.specs.Sinks.{sink_shown};
ghost use Rattle.cpfactor_top.specs.Outcomes.{EndsBy};
ghost use Rattle.cpfactor_top.specs.Sampling.{IsSampleAnswer};

use crate::ended::Ended;
use crate::refusal::put_answer;
use crate::solving::solve_text;
use cp_outside::Sink;
use cpfactor_lines::{sample_lines, usual_limits};
use matrix_sample::sample_matrix;
use search_core::Searcher;
use std::alloc::{AllocError, Global};

/// Makes the matrix of the numbers `n`, `k` and `first`, solves it under the usual limits with searches by this searcher, and
/// writes the summary: the numbers, the diagonal, how many matrices were visited, and the first line of what `solve` would
/// write. It ends as `solve` would.
pub fn sample_with<S: Searcher, K: Sink>(
    alloc: Global,
    searcher: &mut S,
    n: u8,
    k: u32,
    first: u64,
    sink: &mut K,
) -> Ended
    requires first_size { 1 ≤ n }
    requires last_size { n ≤ 6 }
    requires first_count { 1 ≤ k }
    requires last_count { k ≤ 100000 }
    ensures { EndsBy (IsSampleAnswer n k first) (sink_shown K.Sink sink.old sink.new) result }
{
    put_answer(sample_text(alloc, searcher, n, k, first), sink)
}

/// How `sample` ends, and its text. It is refused for want of memory alone.
fn sample_text<S: Searcher>(
    alloc: Global,
    searcher: &mut S,
    n: u8,
    k: u32,
    first: u64,
) -> Result<(Ended, Vec<u8>), AllocError>
    requires first_size { 1 ≤ n }
    requires last_size { n ≤ 6 }
    requires first_count { 1 ≤ k }
    requires last_count { k ≤ 100000 }
    ensures { IfOk result (λ r. IsSampleAnswer n k first r.0 r.1.items) }
{
    let a = sample_matrix(alloc, n, k, first)?;
    let (ended, answer) = solve_text(alloc, searcher, &a, usual_limits(), false)?;
    let text = sample_lines(alloc, n, k, first, &a, visits_of(&ended), &answer)?;
    Ok((ended, text))
}

/// How many matrices the walk visited that ended so.
fn visits_of(ended: &Ended) -> usize
    ensures { (journal : a_journal) → ended.now.journal ≡ Some journal → result ≡ length journal.visited }
{
    match &ended.journal {
        Some(journal) => journal.visited.len(),
        None => 0,
    }
}
