//! An exchange over the entries row by row, into memory that was taken before.

ghost use Rattle.std.specs.Prelude.{◌≡◌, ◌≢◌, ◌+◌, ◌*◌, ◌<◌, length, IfOk, pos};
ghost use Rattle.exact_forms.specs.Rational.{whole};
ghost use Rattle.symmetric_matrix.specs.Owed.{answer};
ghost use Rattle.exact_linear.specs.Tables.{entry_of};
ghost use Rattle.exact_linear.specs.Exchange.{entry_is_owed, divide_ops, divided_row, rest_ops, rest_cells, table_ops, table_cells};

use crate::entry::{EntryOp, divided_at, new_entry};
use fraction128::Fraction;

// `into` becomes `from` divided by the pivot.
fn divide_row(
    row: usize,
    pivot: Fraction,
    from: &[Fraction],
    into: &mut [Fraction],
) -> Result<(), EntryOp>
    requires size { length into.old ≡ length from.now }
    requires row { row < usize.MAX }
    requires divisor { pivot ≢ whole (pos 0) }
    ensures refused { result ≡ answer entry_is_owed (divide_ops row 0 pivot from.now) tt }
    ensures made { IfOk result (λ _. into.new ≡ divided_row pivot from.now) }
{
    for j in 0..from.len() {
        into[j] = divided_at(row, j, from[j], pivot)?;
    }
    Ok(())
}

// `into` becomes the new entries, by the old ones and the new row.
fn clear_rows(
    row: usize,
    column: usize,
    width: usize,
    rows: usize,
    pivot_row: &[Fraction],
    old: &[Fraction],
    into: &mut [Fraction],
) -> Result<(), EntryOp>
    requires width { length pivot_row.now ≡ width }
    requires column { column < width }
    requires rows { length old.now ≡ rows * width }
    requires size { length into.old ≡ length old.now }
    ensures refused { result ≡ answer entry_is_owed (rest_ops row column width pivot_row.now old.now old.now 0 0) tt }
    ensures made { IfOk result (λ _. into.new ≡ rest_cells row column width pivot_row.now old.now old.now 0 0) }
{
    let mut i = 0;
    let mut j = 0;
    for k in 0..old.len() {
        into[k] = new_entry(row, i, j, old[k], old[i * width + column], pivot_row[j])?;
        if j + 1 < width {
            j += 1;
        } else {
            i += 1;
            j = 0;
        }
    }
    Ok(())
}

/// `into` becomes the entries after the exchange at a row and a column, and `pivot_row` its row. All count from 0.
pub fn exchange_into(
    row: usize,
    column: usize,
    width: usize,
    rows: usize,
    old: &[Fraction],
    pivot_row: &mut [Fraction],
    into: &mut [Fraction],
) -> Result<(), EntryOp>
    requires row { row < rows }
    requires column { column < width }
    requires rows { length old.now ≡ rows * width }
    requires pivots { length pivot_row.old ≡ width }
    requires size { length into.old ≡ length old.now }
    requires pivot { entry_of old.now (row * width + column) ≢ whole (pos 0) }
    ensures refused { result ≡ answer entry_is_owed (table_ops width old.now row column) tt }
    ensures made { IfOk result (λ _. into.new ≡ table_cells width old.now row column) }
{
    let start = row * width;
    divide_row(
        row,
        old[start + column],
        &old[start..start + width],
        pivot_row,
    )?;
    clear_rows(row, column, width, rows, pivot_row, old, into)
}
