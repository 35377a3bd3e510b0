//! Reading the text of a matrix.

ghost use Rattle.std.specs.Prelude.{◌≡◌, ℕ, ◌<◌, ◌≤◌, length, IfOk, Ok, Err};
ghost use Rattle.matrix_text.specs.Matrix.{MatrixText, MatrixFault, mirrored, none, same_number, line_of_row};
ghost use Rattle.matrix_text.specs.Canonical.{IsShortMatrix};
ghost use Rattle.matrix_text.specs.Rows.{table_rows, table_entries};
ghost use Rattle.text_lines.specs.Square.{first_unlike};
ghost use Rattle.matrix_text.specs.declared.fault.TextKind.{TextKind};
ghost use Rattle.matrix_text.specs.declared.fault.TextFault.{TextFault};
ghost use Rattle.matrix_text.specs.declared.fault.TextFail.TheVariants.{Fault};

use crate::fault::{TextFail, TextKind, fault};
use crate::matrix::RatMatrix;
use crate::rows::read_table;
use crate::symmetry::{first_unlike_row, lower_triangle};
use crate::table::Table;
use std::alloc::Global;

/// The line of a row, which counts from 0.
fn line_at(table: &Table, row: usize) -> u32
    requires { row < table.now.size }
    ensures { result ≡ line_of_row (table_rows table.now) row }
{
    let rows = &table.rows[..];
    rows[row].line
}

/// The matrix of a table, or the fault of its first row that is not as the column of its number.
fn matrix_in(alloc: Global, table: &Table) -> Result<RatMatrix, TextFail>
    ensures ok { IfOk result
        (λ a. mirrored (table_rows table.now) (first_unlike same_number none (table_entries table.now)) ≡ Ok a) }
    ensures fault { (fault : TextFault) → result ≡ Err (Fault fault)
        → mirrored (table_rows table.now) (first_unlike same_number none (table_entries table.now)) ≡ Err fault }
{
    if let Some(row) = first_unlike_row(table) {
        return Err(TextFail::Fault(fault(TextKind::NotSymmetric, line_at(table, row))));
    }
    let lower = lower_triangle(alloc, table)?;
    Ok(RatMatrix::of_triangle(table.size, lower))
}

/// The matrix that the bytes are a text of, or their first fault.
///
/// The first content line has the words `cpmatrix`, `1` and n, from 1 to 6. Then follow n content lines of n fractions
/// each, `p` or `p/q`, with p's magnitude and q at most 9223372036854775807, and no further content line; each entry
/// equals its mirror image by value. A text without fault is read, or memory is wanting.
pub fn read_matrix(alloc: Global, bytes: &[u8]) -> Result<RatMatrix, TextFail>
    requires { length bytes.now ≤ 1048576 }
    ensures ok { IfOk result (λ a. MatrixText bytes.now a) }
    ensures short { IfOk result (λ a. IsShortMatrix a) }
    ensures fault { (kind : TextKind) → (line : ℕ) → result ≡ Err (Fault (record { kind = kind; line = line }))
        → MatrixFault bytes.now kind line }
{
    match read_table(bytes) {
        Ok(table) => matrix_in(alloc, &table),
        Err(fault) => Err(TextFail::Fault(fault)),
    }
}
