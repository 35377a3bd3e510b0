//! Whether a table is symmetric, and its lower triangle.

ghost use Rattle.std.specs.Prelude.{◌≡◌, ◌+◌, ◌<◌, ◌++◌, [], OnOk, IfOk, IfSome, take, slice_index_or};
ghost use Rattle.text_lines.specs.Square.{entry_at, lower_of, mirrors, first_unlike};
ghost use Rattle.matrix_text.specs.Matrix.{none, same_number};
ghost use Rattle.matrix_text.specs.Rows.{table_entries};

use crate::table::Table;
use fraction128::Fraction;
use std::alloc::{AllocError, Global};

/// The entry in this row and column, from 0.
fn entry(table: &Table, row: usize, column: usize) -> Fraction
    requires row { row < table.now.size }
    requires column { column < table.now.size }
    ensures { result ≡ entry_at none (table_entries table.now) row column }
{
    let entries = &table.rows[row].entries[..];
    entries[column]
}

/// Whether the row is as the column of its number, left of the diagonal.
#[tactic(auto, using(text_lines::proofs::Mirrors::left_more, text_lines::proofs::Mirrors::left_fails, text_lines::proofs::Mirrors::left_none, crate::proofs::Symmetries::likes))]
fn is_mirrored(table: &Table, row: usize) -> bool
    requires { row < table.now.size }
    ensures { result ≡ mirrors same_number none (table_entries table.now) row }
{
    for column in 0..row {
        if entry(table, row, column) != entry(table, column, row) {
            return false;
        }
    }
    true
}

/// The first row that is not as the column of its number, left of the diagonal.
#[tactic(auto, using(text_lines::proofs::Mirrors::find_more, text_lines::proofs::Mirrors::find_here, text_lines::proofs::Mirrors::find_end, crate::proofs::Symmetries::unlikes))]
pub fn first_unlike_row(table: &Table) -> Option<usize>
    ensures first { result ≡ first_unlike same_number none (table_entries table.now) }
    ensures inside { IfSome result (λ row. row < table.now.size) }
{
    for row in 0..usize::from(table.size) {
        if !is_mirrored(table, row) {
            return Some(row);
        }
    }
    None
}

/// Appends the entries of a row, up to the diagonal.
fn push_front(lower: &mut Vec<Fraction>, table: &Table, row: usize) -> Result<(), AllocError>
    requires { row < table.now.size }
    ensures { OnOk result (lower.new.items ≡ lower.old.items
        ++ take (row + 1) (slice_index_or (table_entries table.now) row [])) }
{
    for column in 0..row + 1 {
        lower.push(entry(table, row, column))?;
    }
    Ok(())
}

/// The entries up to the diagonal, row by row.
pub fn lower_triangle(alloc: Global, table: &Table) -> Result<Vec<Fraction>, AllocError>
    ensures { IfOk result (λ lower. lower.items ≡ lower_of (table_entries table.now)) }
{
    let mut lower = Vec::new(alloc);
    for row in 0..usize::from(table.size) {
        push_front(&mut lower, table, row)?;
    }
    Ok(lower)
}
