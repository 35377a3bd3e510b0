//! The header of a text.

ghost use Rattle.std.specs.Prelude.{◌≡◌, ◌≤◌, IfOk};
ghost use Rattle.text_lines.specs.Lines.{words};
ghost use Rattle.matrix_text.specs.Matrix.{header_of, size_of_word};

use crate::fault::TextKind;
use text_lines::numbers::whole_number;
use text_lines::words::Words;

#[tactic(auto, unfolding(crate::specs::Matrix::size_of_word))]
fn size_in(word: &[u8]) -> Result<u8, TextKind>
    ensures value { result ≡ size_of_word word.now }
    ensures some { IfOk result (λ size. 1 ≤ size) }
    ensures few { IfOk result (λ size. size ≤ 6) }
{
    match whole_number(word) {
        Some(size @ 1..=6) => Ok(size as u8),
        _ => Err(TextKind::BadDimension),
    }
}

/// The size that a line names.
#[tactic(auto, unfolding(crate::specs::Matrix::header_of))]
pub fn header_size(line: &[u8]) -> Result<u8, TextKind>
    ensures value { result ≡ header_of (words line.now) }
    ensures some { IfOk result (λ size. 1 ≤ size) }
    ensures few { IfOk result (λ size. size ≤ 6) }
{
    let mut words = Words::of(line);
    match (words.next(), words.next(), words.next(), words.next()) {
        (Some(name), Some(version), Some(size), None) => {
            if name != b"cpmatrix".as_slice() {
                return Err(TextKind::NoHeader);
            }
            if version != b"1".as_slice() {
                return Err(TextKind::BadVersion);
            }
            size_in(size)
        }
        _ => Err(TextKind::NoHeader),
    }
}
