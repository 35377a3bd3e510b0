//! The command `solve`.

ghost use Rattle.std.specs.Prelude.{◌≡◌, ◌≤◌, ◌≤ℤ◌, pos, nat_abs, length, Ok, Some, IfOk};
ghost use Rattle.symmetric_matrix.specs.Owed.{answer};
ghost use Rattle.matrix_text.specs.Matrix.{MatrixText};
ghost use Rattle.matrix_text.specs.RationalMatrix.{RationalMatrix};
ghost use Rattle.matrix_text.specs.Clearing.{is_placed_owed, clear_ops, cleared_of, IsCleared};
ghost use Rattle.cpfactor_top.specs.declared.ended.Ended.{Ended as an_ending};
ghost use Rattle.cpfactor_lines.specs.Sinks.{sink_shown};
ghost use Rattle.cpfactor_top.specs.Outcomes.{EndsBy};
ghost use Rattle.cpfactor_top.specs.Causes.{HasStatus, ending_with, refusal_text};
ghost use Rattle.cpfactor_top.specs.Solving.{no_visit, IsSolved, IsSolveDue, IsWalkAnswer, IsEasy};
ghost use Rattle.cpfactor_top.specs.Files.{matrix_file};
ghost use Rattle.cpfactor_top.specs.Answers.{IsBytesAnswer, IsBytesDue, YieldsTo, FactorsAtOnce};

use crate::ended::{Cause, Ended};
use crate::given::read_or_refuse;
use crate::refusal::{put_answer, refusal_line};
use crate::walk_answer::walk_text;
use cp_outside::Sink;
use matrix_text::{ClearFail, RatMatrix, cleared};
use perfect_walk::{Journal, Limits, Owed, Steps, Visits, walk};
use search_core::Searcher;
use serial_search::SerialSearcher;
use std::alloc::{AllocError, Global};
use symmetric_matrix::SymInt;

/// The whole of `solve` after reading, with one worker: factors or separates the matrix whose text the bytes are, at most
/// 1,048,576 of them, by a walk of at most `limits.pivots` steps with searches to `limits.depth`, at most 200, and writes the
/// answer to the sink, behind the trace of the walk's visits where `trace` is given.
///
/// The matrix A is S/d, d its least common denominator. It ends with `Fine` where the walk factors A, and, with the status
/// `Separated`, where it separates A; with `Depth`, `Pivots` or `Overflow` where the walk of S/d ends so, or where that
/// operation is the first of clearing whose result doesn't fit; with `MatrixFault` where the bytes have that first fault;
/// with `WriteFault` only where the sink failed; and with `Memory` where memory was wanting. The journal is that of the walk,
/// and has no visit where clearing was refused. It always returns.
pub fn solve_alone<K: Sink>(
    alloc: Global,
    bytes: &[u8],
    limits: Limits,
    trace: bool,
    sink: &mut K,
) -> Ended
    requires bytes { length bytes.now ≤ matrix_file.limit }
    requires depth { limits.depth ≤ 200 }
    ensures status { HasStatus result }
    // The ending is that of an answer, whose text is written; or the sink failed or memory was wanting, and a front of that
    // text is, or of the line `refused memory`.
    ensures ended { EndsBy (IsBytesAnswer (IsSolved trace limits) bytes.now)
        (sink_shown K.Sink sink.old sink.new) result }
    // Each ending comes where it is due.
    ensures due { (e : an_ending) → IsBytesDue (IsSolveDue limits) bytes.now e → YieldsTo e result }
    // A matrix in the first cone is factored without a step, where nothing is owed.
    ensures first_cone { (a : RationalMatrix) → MatrixText bytes.now a → IsEasy limits.depth a
        → FactorsAtOnce result }
{
    solve_with(
        alloc,
        &mut SerialSearcher::new(alloc),
        bytes,
        limits,
        trace,
        sink,
    )
}

/// Reads a matrix text and solves its matrix, its searches made by this searcher.
pub fn solve_with<S: Searcher, K: Sink>(
    alloc: Global,
    searcher: &mut S,
    bytes: &[u8],
    limits: Limits,
    trace: bool,
    sink: &mut K,
) -> Ended
    requires bytes { length bytes.now ≤ matrix_file.limit }
    requires depth { limits.depth ≤ 200 }
    ensures { EndsBy (IsBytesAnswer (IsSolved trace limits) bytes.now) (sink_shown K.Sink sink.old sink.new) result }
{
    match read_or_refuse(alloc, bytes, sink) {
        Ok(a) => put_answer(solve_text(alloc, searcher, &a, limits, trace), sink),
        Err(ended) => ended,
    }
}

/// How `solve` ends with a matrix, and its text. It is refused for want of memory alone.
pub fn solve_text<S: Searcher>(
    alloc: Global,
    searcher: &mut S,
    a: &RatMatrix,
    limits: Limits,
    trace: bool,
) -> Result<(Ended, Vec<u8>), AllocError>
    requires depth { limits.depth ≤ 200 }
    requires few { a.now.size ≤ 6 }
    ensures { IfOk result (λ r. IsSolved trace limits a.now r.0 r.1.items) }
{
    match cleared(alloc, a) {
        Ok((s, d)) => solve_cleared(alloc, searcher, a, &s, d, limits, trace),
        Err(ClearFail::Wide { row, column, op }) => {
            refused_text(alloc, Cause::Overflow(Owed::Clear { row, column, op }))
        }
        Err(ClearFail::OutOfMemory) => Err(AllocError),
    }
}

/// The journal of a walk that didn't begin. It takes no memory.
fn no_visit(alloc: Global) -> Journal
    ensures { result ≡ no_visit }
{
    Journal {
        visited: Visits::new(alloc),
        steps: Steps::new(alloc),
        searched: None,
    }
}

/// The ending of a refusal before the walk, and its line. It is refused for want of memory alone.
fn refused_text(alloc: Global, cause: Cause) -> Result<(Ended, Vec<u8>), AllocError>
    ensures ended { IfOk result (λ r. r.0 ≡ ending_with (Some no_visit) cause) }
    ensures text { IfOk result (λ r. r.1.items ≡ refusal_text cause) }
{
    let line = refusal_line(alloc, &cause)?;
    Ok((Ended::with(Some(no_visit(alloc)), cause), line))
}

/// How a walk of a matrix A = S/d ends, and its text. It is refused for want of memory alone.
fn solve_cleared<S: Searcher>(
    alloc: Global,
    searcher: &mut S,
    a: &RatMatrix,
    s: &SymInt,
    d: i128,
    limits: Limits,
    trace: bool,
) -> Result<(Ended, Vec<u8>), AllocError>
    requires depth { limits.depth ≤ 200 }
    requires few { a.now.size ≤ 6 }
    requires clearable { answer is_placed_owed (clear_ops a.now) (cleared_of a.now) ≡ Ok (s.now, d) }
    requires cleared { IsCleared a.now s.now (nat_abs d) }
    requires positive { pos 1 ≤ℤ d }
    ensures { IfOk result (λ r. IsWalkAnswer trace limits a.now r.0 r.1.items) }
{
    let walked = walk(alloc, searcher, s, d, limits);
    walk_text(alloc, a.n(), walked, limits, trace)
}
