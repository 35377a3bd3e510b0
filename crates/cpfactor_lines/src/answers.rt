//! The first lines of answers. Values are told over a denominator d, in lowest terms. Each is refused for want of memory
//! alone.

ghost use Rattle.std.specs.Prelude.{◌≡◌, ◌≤ℤ◌, pos, IfOk};
ghost use Rattle.symmetric_matrix.specs.Symmetric.{FitsInt};
ghost use Rattle.cpfactor_lines.specs.Lines.{word_text};
ghost use Rattle.cpfactor_lines.specs.Texts.{value_text, least_text, low_text, copositive_text};

use crate::line::{Word, words_line, words_line_of};
use fraction128::Fraction;
use std::alloc::{AllocError, Global};
use symmetric_matrix::IntVector;
use unimodular_cone::Path;

/// The word of a value over d.
fn value_word<'a>(value: i128, d: i128) -> Word<'a>
    requires fits { FitsInt value }
    requires positive { pos 1 ≤ℤ d }
    ensures { word_text result ≡ value_text value d }
{
    let value = Fraction::new(value, d);
    Word::Fraction {
        num: value.num(),
        den: value.den(),
    }
}

/// A minimum.
pub fn minimum_line(alloc: Global, minimum: i128, d: i128) -> Result<Vec<u8>, AllocError>
    requires fits { FitsInt minimum }
    requires positive { pos 1 ≤ℤ d }
    ensures { IfOk result (λ text. text.items ≡ least_text d minimum) }
{
    words_line(alloc, &[Word::Text(b"minimum"), value_word(minimum, d)])
}

/// A value that is too low, the path of its cone, and its vector.
pub fn low_line(
    alloc: Global,
    vector: &IntVector,
    value: i128,
    d: i128,
    path: &Path,
) -> Result<Vec<u8>, AllocError>
    requires fits { FitsInt value }
    requires positive { pos 1 ≤ℤ d }
    ensures { IfOk result (λ text. text.items ≡ low_text d vector.now value path.now) }
{
    let words = [
        Word::Text(b"low"),
        Word::Text(b"value"),
        value_word(value, d),
        Word::Text(b"path"),
        Word::PathDigits(path),
        Word::Text(b"vector"),
    ];
    words_line_of(alloc, &words, vector.as_slice())
}

/// That a matrix of n rows is copositive.
pub fn copositive_line(alloc: Global, n: u8) -> Result<Vec<u8>, AllocError>
    ensures { IfOk result (λ text. text.items ≡ copositive_text n) }
{
    words_line(
        alloc,
        &[Word::Text(b"copositive"), Word::Whole(u64::from(n))],
    )
}
