//! The lines of the answers of `check`. Each is refused for want of memory alone.

ghost use Rattle.std.specs.Prelude.{◌≡◌, ℕ, List, IfOk};
ghost use Rattle.exact_forms.specs.Factors.{WeightedVector};
ghost use Rattle.cone_tree_certificate.specs.declared.verdict.Verdict.TheVariants.{Factors};
ghost use Rattle.cone_tree_certificate.specs.VerdictText.{verdict_text};
ghost use Rattle.cpfactor_lines.specs.Acceptable.{RightIsAcceptable};
ghost use Rattle.cpfactor_lines.specs.Texts.{factorization_text};
ghost use Rattle.cpfactor_lines.specs.CheckTexts.{proof_too_long_text, proof_fault_text, failed_text, failed_text_at, differing_text, checked_text};

use crate::line::{Word, words_line};
use crate::names::proof_fault_name;
use crate::refusals::operation_line;
use certificate_checker::Checked;
use cone_tree_certificate::VerdictFault;
use std::alloc::{AllocError, Global};

/// That a proof file is longer than its limit.
pub fn proof_too_long_line(alloc: Global) -> Result<Vec<u8>, AllocError>
    ensures { IfOk result (λ text. text.items ≡ proof_too_long_text) }
{
    words_line(
        alloc,
        &[
            Word::Text(b"refused"),
            Word::Text(b"proof-text"),
            Word::Text(b"TooLong"),
        ],
    )
}

/// That a proof text has this first fault.
pub fn proof_fault_line(alloc: Global, fault: &VerdictFault) -> Result<Vec<u8>, AllocError>
    ensures { IfOk result (λ text. text.items ≡ proof_fault_text fault.now) }
{
    words_line(
        alloc,
        &[
            Word::Text(b"refused"),
            Word::Text(b"proof-text"),
            Word::Text(proof_fault_name(fault.kind)),
            Word::Whole(u64::from(fault.line)),
        ],
    )
}

/// What the checker answers: that it accepts, or the first test that fails.
pub fn checked_line(alloc: Global, checked: &Checked) -> Result<Vec<u8>, AllocError>
    ensures { IfOk result (λ text. text.items ≡ checked_text checked.now) }
{
    match checked {
        Checked::Accepted => words_line(alloc, &[Word::Text(b"accepted")]),
        Checked::Dimension => failed_line(alloc, b"Dimension"),
        Checked::BadTerm { index } => failed_line_at(alloc, b"BadTerm", *index),
        Checked::SumDiffers { row, column } => differing_line(alloc, *row, *column),
        Checked::NotNegative => failed_line(alloc, b"NotNegative"),
        Checked::ValueDiffers => failed_line(alloc, b"ValueDiffers"),
        Checked::OpenLeaf { index } => failed_line_at(alloc, b"OpenLeaf", *index),
        Checked::TreeShape { index } => failed_line_at(alloc, b"TreeShape", *index),
        Checked::Wide { op } => operation_line(alloc, b"Check", op),
        Checked::OutOfMemory => words_line(alloc, &[Word::Text(b"refused"), Word::Text(b"memory")]),
    }
}

/// That the test of this name fails.
fn failed_line(alloc: Global, name: &[u8]) -> Result<Vec<u8>, AllocError>
    ensures { IfOk result (λ text. text.items ≡ failed_text name.now) }
{
    words_line(alloc, &[Word::Text(b"proof"), Word::Text(name)])
}

/// That the test of this name fails at an index.
fn failed_line_at(alloc: Global, name: &[u8], index: u64) -> Result<Vec<u8>, AllocError>
    ensures { IfOk result (λ text. text.items ≡ failed_text_at name.now index) }
{
    words_line(
        alloc,
        &[Word::Text(b"proof"), Word::Text(name), Word::Whole(index)],
    )
}

/// That the sum of the terms differs from the matrix at a place.
fn differing_line(alloc: Global, row: u8, column: u8) -> Result<Vec<u8>, AllocError>
    ensures { IfOk result (λ text. text.items ≡ differing_text row column) }
{
    words_line(
        alloc,
        &[
            Word::Text(b"proof"),
            Word::Text(b"SumDiffers"),
            Word::Whole(u64::from(row)),
            Word::Whole(u64::from(column)),
        ],
    )
}

/// The written form of a right verdict whose vectors increase, behind a trace or not, is the text of that verdict alone;
/// and none of its checks fails, or the first that does is an operation whose result does not fit. So `check` accepts
/// what `solve` writes, or names that operation.
pub fn right_verdicts_are_acceptable()
    ensures { RightIsAcceptable }
{}

/// The text of a factorization is the one written form of the verdict with these terms. So `check` reads what `solve` writes.
pub fn factorizations_are_verdicts()
    ensures { (n : ℕ) (terms : List WeightedVector) → factorization_text n terms ≡ verdict_text (Factors n terms) }
{}
