//! What `check` does once the bytes of the matrix file are read.

ghost use Rattle.std.specs.Prelude.{◌≡◌, ◌≢◌, ◌≤◌, ℕ, List, length};
ghost use Rattle.cp_outside.specs.Reads.{OnWhole};
ghost use Rattle.cp_outside.specs.declared.files.ReadEnd.TheVariants.{Failed};
ghost use Rattle.certificate_checker.specs.Verdicts.{IsCheckable};
ghost use Rattle.cpfactor_lines.specs.Sinks.{sink_shown};
ghost use Rattle.cpfactor_top.specs.Causes.{IsUndisturbed, checked_cause};
ghost use Rattle.cpfactor_top.specs.Outcomes.{EndsBy};
ghost use Rattle.cpfactor_top.specs.Files.{FileShown, file_shown, matrix_file, IsRead, IsFileAnswer};
ghost use Rattle.cpfactor_top.specs.Checking.{proof_file, IsProofAnswer, IsVerdictAnswer};
ghost use Rattle.cpfactor_top.specs.Answers.{IsBytesAnswer};

use crate::ended::{Cause, Ended};
use crate::given::read_or_refuse;
use crate::refusal::{answer_line, refuse, want_memory};
use certificate_checker::{Checked, check_verdict};
use cone_tree_certificate::{Verdict, VerdictFail, read_verdict};
use cp_outside::{Files, ReadEnd, Sink};
use cpfactor_lines::{checked_line, proof_too_long_line};
use matrix_text::RatMatrix;
use std::alloc::Global;

/// The most bytes that a proof file may have.
const PROOF_LIMIT: usize = 67_108_864;

/// Reads a matrix text, and checks the verdict on its matrix in the file of this name.
pub fn check_bytes<F: Files, K: Sink>(
    alloc: Global,
    bytes: &[u8],
    proof: &str,
    files: &mut F,
    sink: &mut K,
) -> Ended
    requires { length bytes.now ≤ matrix_file.limit }
    ensures ended { EndsBy (IsBytesAnswer (λ a. IsFileAnswer proof_file (IsProofAnswer a)
        (file_shown F.Files files.old files.new proof.now)) bytes.now) (sink_shown K.Sink sink.old sink.new) result }
    ensures told_stays { (name : List ℕ) → F.told files.new name ≡ F.told files.old name }
    ensures others_stay { (name : List ℕ) → name ≢ proof.now → F.faults files.new name ≡ F.faults files.old name }
    ensures never_falls { (name : List ℕ) → F.faults files.old name ≤ F.faults files.new name }
    ensures quiet { IsUndisturbed result → (name : List ℕ) → F.faults files.new name ≡ F.faults files.old name }
{
    match read_or_refuse(alloc, bytes, sink) {
        Ok(a) => check_file(alloc, &a, proof, files, sink),
        Err(ended) => ended,
    }
}

/// Reads the file of this name, and checks its verdict on a matrix.
fn check_file<F: Files, K: Sink>(
    alloc: Global,
    a: &RatMatrix,
    proof: &str,
    files: &mut F,
    sink: &mut K,
) -> Ended
    ensures ended { EndsBy (IsFileAnswer proof_file (IsProofAnswer a.now)
        (file_shown F.Files files.old files.new proof.now)) (sink_shown K.Sink sink.old sink.new) result }
    ensures told_stays { (name : List ℕ) → F.told files.new name ≡ F.told files.old name }
    ensures others_stay { (name : List ℕ) → name ≢ proof.now → F.faults files.new name ≡ F.faults files.old name }
    ensures never_falls { (name : List ℕ) → F.faults files.old name ≤ F.faults files.new name }
    ensures quiet { IsUndisturbed result → (name : List ℕ) → F.faults files.new name ≡ F.faults files.old name }
{
    let mut bytes = Vec::new(alloc);
    let end = files.read_file(proof, &mut bytes, PROOF_LIMIT);
    check_read(alloc, a, end, &bytes, sink)
}

/// Checks the verdict in a file on a matrix, once reading the file has ended so, with these bytes.
fn check_read<K: Sink>(
    alloc: Global,
    a: &RatMatrix,
    end: ReadEnd,
    bytes: &[u8],
    sink: &mut K,
) -> Ended
    requires { OnWhole end (length bytes.now ≤ proof_file.limit) }
    ensures ended { (file : FileShown) → IsRead proof_file file end bytes.now
        → EndsBy (IsFileAnswer proof_file (IsProofAnswer a.now) file) (sink_shown K.Sink sink.old sink.new) result }
    ensures disturbed { end ≡ Failed → IsUndisturbed result → ⊥ }
{
    match end {
        ReadEnd::Whole => check_proof(alloc, a, bytes, sink),
        ReadEnd::TooLong => answer_line(
            sink,
            Ended::by(Cause::TooLong),
            proof_too_long_line(alloc),
        ),
        ReadEnd::Failed => refuse(alloc, sink, Cause::ReadFault),
        ReadEnd::OutOfMemory => want_memory(sink),
    }
}

/// Reads a proof text, and checks its verdict on a matrix.
fn check_proof<K: Sink>(alloc: Global, a: &RatMatrix, bytes: &[u8], sink: &mut K) -> Ended
    requires { length bytes.now ≤ proof_file.limit }
    ensures { EndsBy (IsProofAnswer a.now bytes.now) (sink_shown K.Sink sink.old sink.new) result }
{
    match read_verdict(alloc, bytes) {
        Ok(verdict) => check_one(alloc, a, &verdict, sink),
        Err(VerdictFail::Fault(fault)) => refuse(alloc, sink, Cause::ProofFault(fault)),
        Err(VerdictFail::OutOfMemory) => want_memory(sink),
    }
}

/// Checks a verdict on a matrix.
fn check_one<K: Sink>(alloc: Global, a: &RatMatrix, verdict: &Verdict, sink: &mut K) -> Ended
    requires { IsCheckable verdict.now }
    ensures { EndsBy (IsVerdictAnswer a.now verdict.now) (sink_shown K.Sink sink.old sink.new) result }
{
    let checked = check_verdict(a, verdict);
    answer_line(
        sink,
        Ended::by(cause_of(checked)),
        checked_line(alloc, &checked),
    )
}

/// The cause that goes with the checker's answer.
fn cause_of(checked: Checked) -> Cause
    ensures { result ≡ checked_cause checked }
{
    match checked {
        Checked::Accepted => Cause::Fine,
        _ => Cause::Proof(checked),
    }
}
