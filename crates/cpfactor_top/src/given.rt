//! The matrix that a file gives: read from its bytes, and cleared of its denominators.

ghost use Rattle.std.specs.Prelude.{◌≡◌, ◌≤◌, ◌≤ℤ◌, pos, nat_abs, length, Ok, None, IfOk, IfErr};
ghost use Rattle.matrix_text.specs.Matrix.{MatrixText};
ghost use Rattle.matrix_text.specs.Clearing.{is_placed_owed, clear_ops, cleared_of, IsCleared};
ghost use Rattle.symmetric_matrix.specs.Owed.{answer};
ghost use Rattle.cpfactor_lines.specs.Sinks.{sink_shown};
ghost use Rattle.cpfactor_top.specs.Outcomes.{EndsBy, Refuses};
ghost use Rattle.cpfactor_top.specs.Given.{IsClearRefused};
ghost use Rattle.cpfactor_top.specs.Files.{matrix_file};
ghost use Rattle.cpfactor_top.specs.Answers.{IsFaultDue};

use crate::ended::{Cause, Ended};
use crate::refusal::{refuse, want_memory};
use cp_outside::Sink;
use matrix_text::{ClearFail, RatMatrix, TextFail, cleared, read_matrix};
use perfect_walk::Owed;
use std::alloc::Global;
use symmetric_matrix::SymInt;

/// The matrix whose text the bytes are, or the ending after its first fault, or want of memory, was written.
pub fn read_or_refuse<K: Sink>(
    alloc: Global,
    bytes: &[u8],
    sink: &mut K,
) -> Result<RatMatrix, Ended>
    requires { length bytes.now ≤ matrix_file.limit }
    ensures read { IfOk result (λ a. MatrixText bytes.now a) }
    ensures silent { IfOk result (λ _. sink.new ≡ sink.old) }
    ensures refused { IfErr result (λ ended. EndsBy (Refuses (IsFaultDue bytes.now))
        (sink_shown K.Sink sink.old sink.new) ended) }
{
    match read_matrix(alloc, bytes) {
        Ok(a) => Ok(a),
        Err(TextFail::Fault(fault)) => Err(refuse(alloc, sink, Cause::MatrixFault(fault))),
        Err(TextFail::OutOfMemory) => Err(want_memory(sink)),
    }
}

/// S and d with A = S/d, or the ending after the first operation that doesn't fit, or want of memory, was written.
pub fn clear_or_refuse<K: Sink>(
    alloc: Global,
    a: &RatMatrix,
    sink: &mut K,
) -> Result<(SymInt, i128), Ended>
    ensures clearable { IfOk result (λ r. answer is_placed_owed (clear_ops a.now) (cleared_of a.now) ≡ Ok r) }
    ensures cleared { IfOk result (λ r. IsCleared a.now r.0 (nat_abs r.1)) }
    ensures positive { IfOk result (λ r. pos 1 ≤ℤ r.1) }
    ensures silent { IfOk result (λ _. sink.new ≡ sink.old) }
    ensures refused { IfErr result (λ ended. EndsBy (Refuses (IsClearRefused None a.now))
        (sink_shown K.Sink sink.old sink.new) ended) }
{
    match cleared(alloc, a) {
        Ok(made) => Ok(made),
        Err(ClearFail::Wide { row, column, op }) => Err(refuse(
            alloc,
            sink,
            Cause::Overflow(Owed::Clear { row, column, op }),
        )),
        Err(ClearFail::OutOfMemory) => Err(want_memory(sink)),
    }
}
