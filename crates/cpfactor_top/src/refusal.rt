//! Refusals and other answers of one line, and what is written where memory is wanting.

ghost use Rattle.std.specs.Prelude.{◌≡◌, ℕ, List, IfOk, IfErr};
ghost use Rattle.cpfactor_lines.specs.Sinks.{sink_shown};
ghost use Rattle.cpfactor_top.specs.Causes.{ending, refusal_text};
ghost use Rattle.cpfactor_top.specs.Outcomes.{EndsBy, IsOnly, IsNone};

use crate::ended::{Cause, Ended};
use cp_outside::Sink;
use cpfactor_lines::{
    Word, checked_line, depth_line, fault_line, owed_line, pivots_line, proof_fault_line,
    put_lines, usage_line, words_line,
};
use std::alloc::{AllocError, Global};

/// Writes that memory was wanting, where nothing has been written yet.
#[tactic(auto, unfolding(cpfactor_lines::specs::Lines::line))]
pub fn want_memory<K: Sink>(sink: &mut K) -> Ended
    ensures { EndsBy IsNone (sink_shown K.Sink sink.old sink.new) result }
{
    Ended::by(Cause::Memory).after(sink.put(b"refused memory\n"))
}

/// Writes an answer of one line, with this ending, if there was memory for the line.
pub fn answer_line<K: Sink>(sink: &mut K, ended: Ended, line: Result<Vec<u8>, AllocError>) -> Ended
    ensures { (text : List ℕ) → IfOk line (λ made. made.items ≡ text) → EndsBy (IsOnly ended text)
        (sink_shown K.Sink sink.old sink.new) result }
{
    match line {
        Ok(line) => ended.after(sink.put(&line)),
        Err(_) => want_memory(sink),
    }
}

/// Writes an answer's text, if there was memory for making it, and gives the ending.
pub fn put_answer<K: Sink>(made: Result<(Ended, Vec<u8>), AllocError>, sink: &mut K) -> Ended
    ensures put { IfOk made (λ r. EndsBy (IsOnly r.0 r.1.items) (sink_shown K.Sink sink.old sink.new) result) }
    ensures wanting { IfErr made (λ _. EndsBy IsNone (sink_shown K.Sink sink.old sink.new) result) }
{
    match made {
        Ok((ended, text)) => ended.after(put_lines(&text, sink)),
        Err(_) => want_memory(sink),
    }
}

/// Writes the refusal by a cause.
pub fn refuse<K: Sink>(alloc: Global, sink: &mut K, cause: Cause) -> Ended
    ensures { EndsBy (IsOnly (ending cause) (refusal_text cause)) (sink_shown K.Sink sink.old sink.new) result }
{
    let line = refusal_line(alloc, &cause);
    answer_line(sink, Ended::by(cause), line)
}

/// The line of the refusal by a cause. It is refused for want of memory alone.
pub fn refusal_line(alloc: Global, cause: &Cause) -> Result<Vec<u8>, AllocError>
    ensures { IfOk result (λ line. line.items ≡ refusal_text cause.now) }
{
    match cause {
        Cause::Usage { position } => usage_line(alloc, *position),
        Cause::TooLong => words_line(
            alloc,
            &[
                Word::Text(b"refused"),
                Word::Text(b"text"),
                Word::Text(b"TooLong"),
            ],
        ),
        Cause::MatrixFault(fault) => fault_line(alloc, fault),
        Cause::ProofFault(fault) => proof_fault_line(alloc, fault),
        Cause::Proof(checked) => checked_line(alloc, checked),
        Cause::Depth { path } => depth_line(alloc, path),
        Cause::Pivots { used } => pivots_line(alloc, *used),
        Cause::Overflow(owed) => owed_line(alloc, owed),
        Cause::ReadFault => words_line(alloc, &[Word::Text(b"refused"), Word::Text(b"read")]),
        Cause::Memory => words_line(alloc, &[Word::Text(b"refused"), Word::Text(b"memory")]),
        Cause::Fine | Cause::WriteFault => Ok(Vec::new(alloc)),
    }
}
