//! Exchanges of a tableau of 21 rows and 516 columns, as that of matrices of six rows is.

ghost use Rattle.std.specs.Prelude.{◌≡◌, ◌≢◌, ◌-◌, ◌<◌, ◌≤◌, pos, IfOk, IfSome};
ghost use Rattle.exact_forms.specs.Rational.{whole};
ghost use Rattle.exact_linear.specs.Tables.{rows_of, table_entry};

use crate::matrices::squares;
use exact_linear::Tableau;
use std::alloc::{AllocError, Global};

/// How many rows the tableau has, and how many units, which are its first columns.
const ROWS: u64 = 21;

/// How many matrices follow the units. One reserved column comes after them.
const GIVEN: u64 = 494;

/// Makes exchanges of one tableau, and says how many: `count` of them, or those before the first that can't be made.
/// It is refused for want of memory alone.
pub fn exchanges(alloc: Global, count: u64) -> Result<u64, AllocError> {
    let mut tableau = tableau(alloc)?;
    for made in 0..count {
        if !exchange(&mut tableau, made) {
            return Ok(made);
        }
    }
    Ok(count)
}

// The tableau over the units and the matrices, before any exchange.
fn tableau(alloc: Global) -> Result<Tableau, AllocError>
    ensures rows { IfOk result (λ t. rows_of t ≡ 21) }
    ensures width { IfOk result (λ t. t.width ≡ 516) }
{
    let given = squares(alloc, GIVEN as usize)?;
    Tableau::over_units(alloc, 6, &given)
}

// The given columns come in one after the other, round and round, each in the next row that can take it. Answers whether the
// exchange was made. Entries are ratios of determinants of given columns, so they don't grow as exchanges go on.
fn exchange(tableau: &mut Tableau, turn: u64) -> bool
    requires rows { rows_of tableau.old ≡ 21 }
    requires width { tableau.old.width ≡ 516 }
    ensures rows { rows_of tableau.new ≡ 21 }
    ensures width { tableau.new.width ≡ 516 }
{
    let column = (ROWS + turn % GIVEN) as usize + 1;
    match row_for(tableau, column, (turn % ROWS) as usize) {
        Some(row) => tableau.exchange(row, column).is_ok(),
        None => false,
    }
}

// The first row whose entry in a column isn't zero, looked for from the row after `passed` on, and after the last row from the
// first. Rows and columns count from 1.
fn row_for(tableau: &Tableau, column: usize, passed: usize) -> Option<usize>
    requires rows { rows_of tableau.now ≡ 21 }
    requires first { 1 ≤ column }
    requires last { column ≤ tableau.now.width }
    requires passed { passed < 21 }
    ensures first { IfSome result (λ row. 1 ≤ row) }
    ensures last { IfSome result (λ row. row ≤ 21) }
    ensures pivot { IfSome result (λ row. table_entry tableau.now (row - 1) (column - 1) ≢ whole (pos 0)) }
{
    let rows = tableau.rows();
    for step in 0..rows {
        let row = (passed + step) % rows + 1;
        if !tableau.entry(row, column).is_zero() {
            return Some(row);
        }
    }
    None
}
