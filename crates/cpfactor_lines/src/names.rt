//! The words that name faults and operations in an answer.

ghost use Rattle.std.specs.Prelude.{◌≡◌};
ghost use Rattle.cpfactor_lines.specs.Texts.{fault_word, operation_word};
ghost use Rattle.cpfactor_lines.specs.CheckTexts.{proof_fault_word};

use cone_tree_certificate::VerdictKind;
use matrix_text::TextKind;
use symmetric_matrix::IntKind;

/// The word for the kind of a text's fault.
pub fn fault_name(kind: TextKind) -> &'static [u8]
    ensures { result.now ≡ fault_word kind }
{
    match kind {
        TextKind::NotAscii => b"NotAscii",
        TextKind::NoHeader => b"NoHeader",
        TextKind::BadVersion => b"BadVersion",
        TextKind::BadDimension => b"BadDimension",
        TextKind::MissingRow => b"MissingRow",
        TextKind::ShortRow => b"ShortRow",
        TextKind::LongRow => b"LongRow",
        TextKind::BadNumber => b"BadNumber",
        TextKind::ZeroDenominator => b"ZeroDenominator",
        TextKind::NumberTooLarge => b"NumberTooLarge",
        TextKind::NotSymmetric => b"NotSymmetric",
        TextKind::ExtraLine => b"ExtraLine",
    }
}

/// The word for the kind of a proof text's fault.
pub fn proof_fault_name(kind: VerdictKind) -> &'static [u8]
    ensures { result.now ≡ proof_fault_word kind }
{
    match kind {
        VerdictKind::NotAscii => b"NotAscii",
        VerdictKind::NoHeader => b"NoHeader",
        VerdictKind::BadDimension => b"BadDimension",
        VerdictKind::BadWord => b"BadWord",
        VerdictKind::BadNumber => b"BadNumber",
        VerdictKind::NumberTooLarge => b"NumberTooLarge",
        VerdictKind::ZeroDenominator => b"ZeroDenominator",
        VerdictKind::ShortLine => b"ShortLine",
        VerdictKind::LongLine => b"LongLine",
        VerdictKind::BadSplit => b"BadSplit",
        VerdictKind::MissingLine => b"MissingLine",
        VerdictKind::ExtraLine => b"ExtraLine",
        VerdictKind::NotSymmetric => b"NotSymmetric",
    }
}

/// The word for an operation.
pub fn operation_name(kind: IntKind) -> &'static [u8]
    ensures { result.now ≡ operation_word kind }
{
    match kind {
        IntKind::Mul => b"Mul",
        IntKind::Add => b"Add",
    }
}
