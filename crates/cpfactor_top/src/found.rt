//! Writing what a search answers. Values are told over a denominator d, in lowest terms.

ghost use Rattle.std.specs.Prelude.{◌≤ℤ◌, pos};
ghost use Rattle.symmetric_matrix.specs.Symmetric.{FitsInt};
ghost use Rattle.cpfactor_lines.specs.Sinks.{sink_shown};
ghost use Rattle.cpfactor_lines.specs.Texts.{minimum_text, low_text, copositive_text};
ghost use Rattle.cpfactor_top.specs.declared.ended.Cause.TheVariants.{Fine};
ghost use Rattle.cpfactor_top.specs.Causes.{ending, separated_ending};
ghost use Rattle.cpfactor_top.specs.Outcomes.{EndsBy, IsOnly};

use crate::ended::{Cause, Ended, Status};
use crate::refusal::{answer_line, want_memory};
use cp_outside::Sink;
use cpfactor_lines::{copositive_line, low_line, minimum_line, put_with_vectors};
use std::alloc::Global;
use symmetric_matrix::{IntVector, VectorList};
use unimodular_cone::Path;

/// Writes a minimum and the vectors that attain it.
pub fn put_minimum<K: Sink>(
    alloc: Global,
    sink: &mut K,
    minimum: i128,
    d: i128,
    vectors: &VectorList,
) -> Ended
    requires fits { FitsInt minimum }
    requires positive { pos 1 ≤ℤ d }
    ensures { EndsBy (IsOnly (ending Fine) (minimum_text d minimum vectors.now))
        (sink_shown K.Sink sink.old sink.new) result }
{
    match minimum_line(alloc, minimum, d) {
        Ok(mut line) => Ended::by(Cause::Fine).after(put_with_vectors(&mut line, sink, vectors)),
        Err(_) => want_memory(sink),
    }
}

/// Writes a value that is too low, the path of its cone, and its vector.
pub fn put_low<K: Sink>(
    alloc: Global,
    sink: &mut K,
    vector: &IntVector,
    value: i128,
    d: i128,
    path: Path,
) -> Ended
    requires fits { FitsInt value }
    requires positive { pos 1 ≤ℤ d }
    ensures { EndsBy (IsOnly separated_ending (low_text d vector.now value path))
        (sink_shown K.Sink sink.old sink.new) result }
{
    let ended = Ended {
        status: Status::Separated,
        cause: Cause::Fine,
        journal: None,
    };
    answer_line(sink, ended, low_line(alloc, vector, value, d, &path))
}

/// Writes that a matrix of n rows is copositive.
pub fn put_copositive<K: Sink>(alloc: Global, sink: &mut K, n: u8) -> Ended
    ensures { EndsBy (IsOnly (ending Fine) (copositive_text n)) (sink_shown K.Sink sink.old sink.new) result }
{
    answer_line(sink, Ended::by(Cause::Fine), copositive_line(alloc, n))
}
