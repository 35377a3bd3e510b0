//! The arithmetic of one entry: a refused operation is told with its place.

ghost use Rattle.std.specs.Prelude.{◌≡◌, ◌≢◌, ◌<◌, ◌≤◌, ◌-◌, ◌⊎◌, pos};
ghost use Rattle.exact_forms.specs.Rational.{whole, ◌*ℚ◌, ◌-ℚ◌, ◌/ℚ◌};
ghost use Rattle.symmetric_matrix.specs.Owed.{answer, tagged};
ghost use Rattle.exact_linear.specs.Exchange.{entry_is_owed, placed, divide_entry, multiply_entry, subtract_entry, clear_entry, cell_ops, new_cell};

use fraction128::Fraction;
use symmetric_matrix::IntOp;

/// Which operation on two entries.
#[derive(Clone, Copy, Debug, PartialEq, Eq)]
pub enum EntryPart {
    Divide,
    Multiply,
    Subtract,
}

/// An operation on fractions of a tableau that is refused: the row and the column, counted from 1, the two fractions in the
/// order written, and the operation on whole numbers that does not fit. The place is that of the new entry; where entries are
/// divided only to be compared, that of the one that is divided.
#[derive(Clone, Copy, Debug, PartialEq, Eq)]
pub struct EntryOp {
    pub row: usize,
    pub column: usize,
    pub part: EntryPart,
    pub left: Fraction,
    pub right: Fraction,
    pub op: IntOp,
}

// A refused operation gets its place. Here rows and columns count from 0.
#[tactic(auto, unfolding(symmetric_matrix::specs::Owed::tagged))]
fn at_entry(
    row: usize,
    column: usize,
    part: EntryPart,
    left: Fraction,
    right: Fraction,
    answered: Result<Fraction, IntOp>,
) -> Result<Fraction, EntryOp>
    requires row { row < usize.MAX }
    requires column { column < usize.MAX }
    ensures { result ≡ tagged (placed row column part left right) answered }
{
    match answered {
        Ok(value) => Ok(value),
        Err(op) => Err(EntryOp {
            row: row + 1,
            column: column + 1,
            part,
            left,
            right,
            op,
        }),
    }
}

/// The quotient of two fractions of a tableau, where entries are divided only to be compared. `row` and `column` are the place of
/// the one that is divided, counted from 1.
///
/// It is refused exactly where an operation of the division does not fit: with the first one, told with that place.
pub fn divided_entry(
    row: usize,
    column: usize,
    left: Fraction,
    right: Fraction,
) -> Result<Fraction, EntryOp>
    requires first_row { 1 ≤ row }
    requires first_column { 1 ≤ column }
    requires divisor { right ≢ whole (pos 0) }
    ensures { result ≡ answer entry_is_owed (divide_entry (row - 1) (column - 1) left right) (left /ℚ right) }
{
    divided_at(row - 1, column - 1, left, right)
}

// Rows and columns count from 0 from here on.
#[tactic(auto, using(crate::proofs::Entries::divide_tagged))]
pub fn divided_at(
    row: usize,
    column: usize,
    left: Fraction,
    right: Fraction,
) -> Result<Fraction, EntryOp>
    requires row { row < usize.MAX }
    requires column { column < usize.MAX }
    requires divisor { right ≢ whole (pos 0) }
    ensures { result ≡ answer entry_is_owed (divide_entry row column left right) (left /ℚ right) }
{
    at_entry(row, column, EntryPart::Divide, left, right, left.div(right))
}

#[tactic(auto, using(crate::proofs::Entries::multiply_tagged))]
fn multiplied_entry(
    row: usize,
    column: usize,
    left: Fraction,
    right: Fraction,
) -> Result<Fraction, EntryOp>
    requires row { row < usize.MAX }
    requires column { column < usize.MAX }
    ensures { result ≡ answer entry_is_owed (multiply_entry row column left right) (left *ℚ right) }
{
    at_entry(
        row,
        column,
        EntryPart::Multiply,
        left,
        right,
        left.mul(right),
    )
}

#[tactic(auto, using(crate::proofs::Entries::subtract_tagged))]
fn subtracted_entry(
    row: usize,
    column: usize,
    left: Fraction,
    right: Fraction,
) -> Result<Fraction, EntryOp>
    requires row { row < usize.MAX }
    requires column { column < usize.MAX }
    ensures { result ≡ answer entry_is_owed (subtract_entry row column left right) (left -ℚ right) }
{
    at_entry(
        row,
        column,
        EntryPart::Subtract,
        left,
        right,
        left.sub(right),
    )
}

// Where a factor is zero the entry stays, and none of its operations is owed.

fn kept_entry(
    row: usize,
    column: usize,
    entry: Fraction,
    factor: Fraction,
    pivot: Fraction,
) -> Result<Fraction, EntryOp>
    requires { (factor ≡ whole (pos 0)) ⊎ (pivot ≡ whole (pos 0)) }
    ensures { result ≡ answer entry_is_owed (clear_entry row column entry factor pivot) (entry -ℚ factor *ℚ pivot) }
{
    let _num = entry.num();
    let _den = entry.den();
    Ok(entry)
}

// entry - factor * pivot
#[tactic(auto, using(crate::proofs::Entries::clear_refused, crate::proofs::Entries::clear_then))]
fn cleared_entry(
    row: usize,
    column: usize,
    entry: Fraction,
    factor: Fraction,
    pivot: Fraction,
) -> Result<Fraction, EntryOp>
    requires row { row < usize.MAX }
    requires column { column < usize.MAX }
    ensures { result ≡ answer entry_is_owed (clear_entry row column entry factor pivot) (entry -ℚ factor *ℚ pivot) }
{
    if factor.is_zero() || pivot.is_zero() {
        return kept_entry(row, column, entry, factor, pivot);
    }
    let multiple = multiplied_entry(row, column, factor, pivot)?;
    subtracted_entry(row, column, entry, multiple)
}

/// The new entry at row i, column j of an exchange at `row`: the new row's own there, else the old one cleared.
#[tactic(auto, using(crate::proofs::Rows::cell_here, crate::proofs::Rows::cell_other))]
pub fn new_entry(
    row: usize,
    i: usize,
    j: usize,
    entry: Fraction,
    factor: Fraction,
    pivot: Fraction,
) -> Result<Fraction, EntryOp>
    requires row { i < usize.MAX }
    requires column { j < usize.MAX }
    ensures { result ≡ answer entry_is_owed (cell_ops row i j entry factor pivot) (new_cell row i entry factor pivot) }
{
    if i == row {
        Ok(pivot)
    } else {
        cleared_entry(i, j, entry, factor, pivot)
    }
}
