//! Writing the one form of a matrix's text.

ghost use Rattle.std.specs.Prelude.{◌≡◌, ◌<◌, ◌++◌, map, OnOk, OnErr};
ghost use Rattle.std.specs.List.{range_with_len};
ghost use Rattle.matrix_text.specs.RationalMatrix.{rational_entry};
ghost use Rattle.matrix_text.specs.Canonical.{row_text, matrix_text, IsShortMatrix};
ghost use Rattle.text_lines.specs.Spelling.{spaced_word, Extends, fraction_word};

use crate::matrix::RatMatrix;
use fraction128::Fraction;
use std::alloc::AllocError;
use text_lines::writing::{push_fraction, push_number};

/// Appends the fraction of a column, with a space before it in every column but the first.
fn push_column(into: &mut Vec<u8>, column: u8, fraction: Fraction) -> Result<(), AllocError>
    ensures ok { OnOk result (into.new.items ≡ into.old.items ++ spaced_word column (fraction_word fraction)) }
    ensures kept { Extends into.old.items into.new.items }
{
    if column == 0 {
        return push_fraction(into, fraction);
    }
    into.push(b' ')?;
    push_fraction(into, fraction)
}

/// Appends the line of a row, which counts from 0.
fn push_row(into: &mut Vec<u8>, a: &RatMatrix, row: u8) -> Result<(), AllocError>
    requires { row < a.now.size }
    ensures ok { OnOk result (into.new.items ≡ into.old.items
        ++ row_text (map (λ j. rational_entry a.now row j) (range_with_len 0 a.now.size))) }
    ensures kept { Extends into.old.items into.new.items }
{
    for column in 0..a.n() {
        push_column(into, column, a.entry(row + 1, column + 1))?;
    }
    into.push(b'\n')?;
    Ok(())
}

/// Appends the text of a matrix; after an error a part of it may stand there.
fn push_matrix(into: &mut Vec<u8>, a: &RatMatrix) -> Result<(), AllocError>
    ensures ok { OnOk result (into.new.items ≡ into.old.items ++ matrix_text a.now) }
    ensures kept { Extends into.old.items into.new.items }
{
    into.extend_from_slice(b"cpmatrix 1 ")?;
    push_number(into, i128::from(a.n()))?;
    into.push(b'\n')?;
    for row in 0..a.n() {
        push_row(into, a, row)?;
    }
    Ok(())
}

/// Appends the one written form of the matrix: the line of the words `cpmatrix`, `1` and the number of rows, and the
/// rows, each entry in lowest terms as `p/q`, or `p` where it is whole, with one space between entries and a line feed
/// at the end of each line. The matrix has at most 6 rows, and no numerator's magnitude and no denominator is over
/// 9223372036854775807. It is refused for want of memory alone, and `into` is then as before.
pub fn write_matrix(a: &RatMatrix, into: &mut Vec<u8>) -> Result<(), AllocError>
    requires { IsShortMatrix a.now }
    ensures ok { OnOk result (into.new.items ≡ into.old.items ++ matrix_text a.now) }
    ensures err { OnErr result (into.new.items ≡ into.old.items) }
{
    let before = into.len();
    let written = push_matrix(into, a);
    if written.is_err() {
        into.truncate(before);
    }
    written
}
