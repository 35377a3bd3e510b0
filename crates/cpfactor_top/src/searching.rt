//! The commands `minimum` and `copositive`.

ghost use Rattle.std.specs.Prelude.{◌≤◌, ◌≤ℤ◌, pos, length};
ghost use Rattle.cpfactor_top.specs.declared.ended.Ended.{Ended as an_ending};
ghost use Rattle.cpfactor_lines.specs.Sinks.{sink_shown};
ghost use Rattle.cpfactor_top.specs.Outcomes.{EndsBy};
ghost use Rattle.cpfactor_top.specs.Causes.{HasStatus};
ghost use Rattle.cpfactor_top.specs.Searching.{IsFound, IsSearched, IsSearchDue};
ghost use Rattle.cpfactor_top.specs.Files.{matrix_file};
ghost use Rattle.cpfactor_top.specs.Answers.{IsBytesAnswer, IsBytesDue, YieldsTo};

use crate::ended::{Cause, Ended};
use crate::found::{put_copositive, put_low, put_minimum};
use crate::given::{clear_or_refuse, read_or_refuse};
use crate::refusal::{refuse, want_memory};
use cp_outside::Sink;
use matrix_text::RatMatrix;
use perfect_walk::Owed;
use search_core::{Least, Searcher, Sign};
use serial_search::SerialSearcher;
use std::alloc::Global;
use symmetric_matrix::SymInt;
use unimodular_cone::Mode;

/// The whole of `minimum` (mode `Least`) or of `copositive` (mode `Sign`) after reading, with one worker: searches the matrix
/// whose text the bytes are, at most 1,048,576 of them, to a depth of at most 200, and writes the answer to the sink.
///
/// The matrix A is S/d, d its least common denominator. The answer is that of the search of S, its values divided by d. It
/// ends with `Fine` where the search found the copositive minimum or that S is copositive, and, with the status `Separated`,
/// where it found a value that is too low; with `Depth` where the first open path has `depth` digits; with `Overflow` where
/// the first operation of clearing, an entry of a cone, or the least diagonal entry doesn't fit; with `MatrixFault` where the
/// bytes have that first fault; with `WriteFault` only where the sink failed; and with `Memory` where memory was wanting. It
/// always returns.
pub fn minimum_alone<K: Sink>(
    alloc: Global,
    bytes: &[u8],
    mode: Mode,
    depth: u8,
    sink: &mut K,
) -> Ended
    requires bytes { length bytes.now ≤ matrix_file.limit }
    requires depth { depth ≤ 200 }
    ensures status { HasStatus result }
    // The ending is that of an answer, whose text is written; or the sink failed or memory was wanting, and a front of that
    // text is, or of the line `refused memory`.
    ensures ended { EndsBy (IsBytesAnswer (IsSearched mode depth) bytes.now)
        (sink_shown K.Sink sink.old sink.new) result }
    // Each ending comes where it is due.
    ensures due { (e : an_ending) → IsBytesDue (IsSearchDue mode depth) bytes.now e → YieldsTo e result }
{
    search_with(
        alloc,
        &mut SerialSearcher::new(alloc),
        bytes,
        mode,
        depth,
        sink,
    )
}

/// Reads a matrix text and searches its matrix by this searcher.
pub fn search_with<S: Searcher, K: Sink>(
    alloc: Global,
    searcher: &mut S,
    bytes: &[u8],
    mode: Mode,
    depth: u8,
    sink: &mut K,
) -> Ended
    requires bytes { length bytes.now ≤ matrix_file.limit }
    requires depth { depth ≤ 200 }
    ensures { EndsBy (IsBytesAnswer (IsSearched mode depth) bytes.now) (sink_shown K.Sink sink.old sink.new) result }
{
    match read_or_refuse(alloc, bytes, sink) {
        Ok(a) => search_matrix(alloc, searcher, &a, mode, depth, sink),
        Err(ended) => ended,
    }
}

/// Searches a matrix.
fn search_matrix<S: Searcher, K: Sink>(
    alloc: Global,
    searcher: &mut S,
    a: &RatMatrix,
    mode: Mode,
    depth: u8,
    sink: &mut K,
) -> Ended
    requires { depth ≤ 200 }
    ensures { EndsBy (IsSearched mode depth a.now) (sink_shown K.Sink sink.old sink.new) result }
{
    match clear_or_refuse(alloc, a, sink) {
        Ok((s, d)) => search_whole(alloc, searcher, &s, d, mode, depth, sink),
        Err(ended) => ended,
    }
}

/// Searches a whole matrix S; its values are told over d.
fn search_whole<S: Searcher, K: Sink>(
    alloc: Global,
    searcher: &mut S,
    s: &SymInt,
    d: i128,
    mode: Mode,
    depth: u8,
    sink: &mut K,
) -> Ended
    requires depth { depth ≤ 200 }
    requires positive { pos 1 ≤ℤ d }
    ensures { EndsBy (IsFound mode depth s.now d) (sink_shown K.Sink sink.old sink.new) result }
{
    match mode {
        Mode::Least => search_least(alloc, searcher, s, d, depth, sink),
        Mode::Sign => search_sign(alloc, searcher, s, d, depth, sink),
    }
}

/// Searches S for its least value at nonzero vectors.
fn search_least<S: Searcher, K: Sink>(
    alloc: Global,
    searcher: &mut S,
    s: &SymInt,
    d: i128,
    depth: u8,
    sink: &mut K,
) -> Ended
    requires depth { depth ≤ 200 }
    requires positive { pos 1 ≤ℤ d }
    ensures { EndsBy (IsFound Mode.Least depth s.now d) (sink_shown K.Sink sink.old sink.new) result }
{
    match searcher.least(s, depth) {
        Least::Found { minimum, vectors } => put_minimum(alloc, sink, minimum, d, &vectors),
        Least::Low {
            vector,
            value,
            path,
        } => put_low(alloc, sink, &vector, value, d, path),
        Least::Depth { path } => refuse(alloc, sink, Cause::Depth { path }),
        Least::Wide { at } => refuse(alloc, sink, Cause::Overflow(Owed::Gram { at })),
        Least::BoundWide { diagonal } => refuse(
            alloc,
            sink,
            Cause::Overflow(Owed::Bound { diagonal }),
        ),
        Least::OutOfMemory => want_memory(sink),
    }
}

/// Searches S for a value below 0.
fn search_sign<S: Searcher, K: Sink>(
    alloc: Global,
    searcher: &mut S,
    s: &SymInt,
    d: i128,
    depth: u8,
    sink: &mut K,
) -> Ended
    requires depth { depth ≤ 200 }
    requires positive { pos 1 ≤ℤ d }
    ensures { EndsBy (IsFound Mode.Sign depth s.now d) (sink_shown K.Sink sink.old sink.new) result }
{
    match searcher.sign(s, depth) {
        Sign::Copositive => put_copositive(alloc, sink, s.n()),
        Sign::Low {
            vector,
            value,
            path,
        } => put_low(alloc, sink, &vector, value, d, path),
        Sign::Depth { path } => refuse(alloc, sink, Cause::Depth { path }),
        Sign::Wide { at } => refuse(alloc, sink, Cause::Overflow(Owed::Gram { at })),
        Sign::OutOfMemory => want_memory(sink),
    }
}
