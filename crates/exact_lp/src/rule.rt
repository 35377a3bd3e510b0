//! The choices of the linear program on a tableau. Rows and columns count from 0 here, as in the definitions.

ghost use Rattle.std.specs.Prelude.{◌≡◌, ◌+◌, ◌-◌, ◌<◌, ◌≤◌, ◌≢◌, pos, None, IfOk, IfSome};
ghost use Rattle.exact_forms.specs.Rational.{whole};
ghost use Rattle.symmetric_matrix.specs.Owed.{answer};
ghost use Rattle.exact_linear.specs.Tables.{rows_of, table_entry, basic_at, row_of as the_row_of, is_basic as the_basic};
ghost use Rattle.exact_linear.specs.Exchange.{entry_is_owed, divide_entry};
ghost use Rattle.exact_lp.specs.Rule.{target, top, is_negative as the_negative, is_positive as the_positive, top_row as the_top_row, first_columns as the_first_columns, is_settled as the_settled, least_row as the_least_row, is_lower as the_lower, is_inside as the_inside, entering as the_entering, ratio_at, beats, versus_ops, is_candidate as the_candidate, leaving_row as the_leaving_row, leaving_ops, better as the_better, better_ops, AreColumns};

use exact_linear::{EntryOp, Tableau, divided_entry};
use fraction128::Fraction;
use std::alloc::{AllocError, Global};
use std::cmp::Ordering;

/// The entry at a row and a column.
pub fn entry_at(tableau: &Tableau, row: usize, column: usize) -> Fraction
    requires row { row < rows_of tableau.now }
    requires column { column < tableau.now.width }
    ensures { result ≡ table_entry tableau.now row column }
{
    let (_rows, _columns) = (tableau.rows(), tableau.columns());
    tableau.entry(row + 1, column + 1)
}

/// The target's column.
pub fn target_of(tableau: &Tableau, vectors: usize) -> usize
    requires { rows_of tableau.now + vectors + 2 ≤ tableau.now.width }
    ensures value { result ≡ target tableau.now vectors }
    ensures within { result < tableau.now.width }
{
    let _columns = tableau.columns();
    tableau.rows() + vectors
}

/// The column of the sum of the first basis.
pub fn top_of(tableau: &Tableau, vectors: usize) -> usize
    requires { rows_of tableau.now + vectors + 2 ≤ tableau.now.width }
    ensures value { result ≡ top tableau.now vectors }
    ensures within { result < tableau.now.width }
{
    let _columns = tableau.columns();
    target_of(tableau, vectors) + 1
}

/// The basic column of a row.
pub fn basic_of(tableau: &Tableau, row: usize) -> usize
    requires row { row < rows_of tableau.now }
    ensures { result ≡ basic_at tableau.now row }
{
    let _rows = tableau.rows();
    tableau.basic(row + 1) - 1
}

fn is_negative(value: &Fraction) -> bool
    ensures { result ≡ the_negative value.now }
{
    value.num() < 0
}

/// Whether a fraction is over 0.
pub fn is_positive(value: &Fraction) -> bool
    ensures { result ≡ the_positive value.now }
{
    value.num() > 0
}

/// The row whose basic column this is.
pub fn row_of(tableau: &Tableau, column: usize) -> Option<usize>
    requires { column < tableau.now.width }
    ensures { result ≡ the_row_of tableau.now column }
{
    let _columns = tableau.columns();
    match tableau.row_of(column + 1) {
        Some(row) => Some(row - 1),
        None => None,
    }
}

/// Whether a column is basic.
pub fn is_basic(tableau: &Tableau, column: usize) -> bool
    requires { column < tableau.now.width }
    ensures { result ≡ the_basic tableau.now column }
{
    row_of(tableau, column).is_some()
}

/// The row of the sum of the first basis.
pub fn top_row(tableau: &Tableau, vectors: usize) -> usize
    requires width { rows_of tableau.now + vectors + 2 ≤ tableau.now.width }
    requires row { 1 ≤ rows_of tableau.now }
    ensures value { result ≡ the_top_row tableau.now vectors }
    ensures within { result < rows_of tableau.now }
{
    match row_of(tableau, top_of(tableau, vectors)) {
        Some(row) => row,
        None => 0,
    }
}

/// The vectors' columns that are basic, in increasing order. It is refused for want of memory alone.
pub fn first_columns(
    alloc: Global,
    tableau: &Tableau,
    vectors: usize,
) -> Result<Vec<usize>, AllocError>
    requires { rows_of tableau.now + vectors + 2 ≤ tableau.now.width }
    ensures { IfOk result (λ v. v.items ≡ the_first_columns tableau.now vectors) }
{
    let units = tableau.rows();
    let mut columns = Vec::new(alloc);
    for column in units..target_of(tableau, vectors) {
        if is_basic(tableau, column) {
            columns.push(column)?;
        }
    }
    Ok(columns)
}

/// Whether the target has no negative entry.
pub fn is_settled(tableau: &Tableau, vectors: usize) -> bool
    requires { rows_of tableau.now + vectors + 2 ≤ tableau.now.width }
    ensures { result ≡ the_settled tableau.now vectors }
{
    let target = target_of(tableau, vectors);
    for row in 0..tableau.rows() {
        if is_negative(&entry_at(tableau, row, target)) {
            return false;
        }
    }
    true
}

// Whether a row has a lesser entry of the target than another, or an equal one and a later vector.
fn is_lower(tableau: &Tableau, vectors: usize, best: usize, row: usize) -> bool
    requires width { rows_of tableau.now + vectors + 2 ≤ tableau.now.width }
    requires best { best < rows_of tableau.now }
    requires row { row < rows_of tableau.now }
    ensures { result ≡ the_lower tableau.now vectors best row }
{
    let target = target_of(tableau, vectors);
    match entry_at(tableau, row, target).cmp(&entry_at(tableau, best, target)) {
        Ordering::Less => true,
        Ordering::Equal => basic_of(tableau, best) < basic_of(tableau, row),
        Ordering::Greater => false,
    }
}

/// The row of the target's least entry, of equal ones that of the last vector.
pub fn least_row(tableau: &Tableau, vectors: usize) -> usize
    requires width { rows_of tableau.now + vectors + 2 ≤ tableau.now.width }
    requires row { 1 ≤ rows_of tableau.now }
    ensures value { result ≡ the_least_row tableau.now vectors 0 1 (rows_of tableau.now - 1) }
    ensures within { result < rows_of tableau.now }
{
    let mut best = 0;
    for row in 1..tableau.rows() {
        if is_lower(tableau, vectors, best, row) {
            best = row;
        }
    }
    best
}

/// Whether the target's entry in the row of the sum is at least 0.
pub fn is_inside(tableau: &Tableau, vectors: usize) -> bool
    requires width { rows_of tableau.now + vectors + 2 ≤ tableau.now.width }
    requires row { 1 ≤ rows_of tableau.now }
    ensures { result ≡ the_inside tableau.now vectors }
{
    let target = target_of(tableau, vectors);
    !is_negative(&entry_at(tableau, top_row(tableau, vectors), target))
}

/// The first vector's column with a negative entry in the row of the sum.
pub fn entering(tableau: &Tableau, vectors: usize) -> Option<usize>
    requires width { rows_of tableau.now + vectors + 2 ≤ tableau.now.width }
    requires row { 1 ≤ rows_of tableau.now }
    ensures { result ≡ the_entering tableau.now vectors }
{
    let row = top_row(tableau, vectors);
    let units = tableau.rows();
    for column in units..target_of(tableau, vectors) {
        if is_negative(&entry_at(tableau, row, column)) {
            return Some(column);
        }
    }
    None
}

// The entry of a row in a column, divided by its entry in the entering column.
fn ratio(tableau: &Tableau, entering: usize, row: usize, column: usize) -> Result<Fraction, EntryOp>
    requires row { row < rows_of tableau.now }
    requires column { column < tableau.now.width }
    requires entering { entering < tableau.now.width }
    requires divisor { table_entry tableau.now row entering ≢ whole (pos 0) }
    ensures { result
        ≡ answer entry_is_owed
        (divide_entry row column (table_entry tableau.now row column) (table_entry tableau.now row entering))
        (ratio_at tableau.now entering row column) }
{
    let (_rows, _columns) = (tableau.rows(), tableau.columns());
    let entry = entry_at(tableau, row, column);
    divided_entry(row + 1, column + 1, entry, entry_at(tableau, row, entering))
}

// Whether a row, divided by its entry in a column, is lexicographically less than the best one so far. At each column the
// best row's entry is divided first; the comparison stops at the first difference.
fn is_less(
    tableau: &Tableau,
    entering: usize,
    best: usize,
    row: usize,
    columns: &[usize],
) -> Result<bool, EntryOp>
    requires best { best < rows_of tableau.now }
    requires row { row < rows_of tableau.now }
    requires columns { AreColumns tableau.now columns.now }
    requires entering { entering < tableau.now.width }
    requires best_divisor { table_entry tableau.now best entering ≢ whole (pos 0) }
    requires row_divisor { table_entry tableau.now row entering ≢ whole (pos 0) }
    ensures { result
        ≡ answer entry_is_owed (versus_ops tableau.now entering best row columns.now)
        (beats tableau.now entering best row columns.now) }
{
    for column in columns {
        let other = ratio(tableau, entering, best, *column)?;
        let own = ratio(tableau, entering, row, *column)?;
        match own.cmp(&other) {
            Ordering::Less => return Ok(true),
            Ordering::Equal => {}
            Ordering::Greater => return Ok(false),
        }
    }
    Ok(false)
}

// Whether a row can leave: it is not that of the sum, and its entry in the entering column is positive.
fn is_candidate(tableau: &Tableau, vectors: usize, entering: usize, row: usize) -> bool
    requires width { rows_of tableau.now + vectors + 2 ≤ tableau.now.width }
    requires row { row < rows_of tableau.now }
    requires entering { entering < tableau.now.width }
    ensures { result ≡ the_candidate tableau.now vectors entering row }
{
    basic_of(tableau, row) != top_of(tableau, vectors)
        && is_positive(&entry_at(tableau, row, entering))
}

// The better of a candidate row and the best one before it.
fn better(
    tableau: &Tableau,
    entering: usize,
    columns: &[usize],
    best: Option<usize>,
    row: usize,
) -> Result<Option<usize>, EntryOp>
    requires row { row < rows_of tableau.now }
    requires columns { AreColumns tableau.now columns.now }
    requires entering { entering < tableau.now.width }
    requires row_divisor { table_entry tableau.now row entering ≢ whole (pos 0) }
    requires best { IfSome best (λ b. b < rows_of tableau.now) }
    requires best_divisor { IfSome best (λ b. table_entry tableau.now b entering ≢ whole (pos 0)) }
    ensures { result
        ≡ answer entry_is_owed (better_ops tableau.now entering columns.now best row)
        (the_better tableau.now entering columns.now best row) }
{
    match best {
        None => Ok(Some(row)),
        Some(best) => {
            if is_less(tableau, entering, best, row, columns)? {
                Ok(Some(row))
            } else {
                Ok(Some(best))
            }
        }
    }
}

/// The leaving row: of the candidates the one that is lexicographically least, divided by its entry in the entering column.
///
/// It is refused exactly where a division of the comparisons does not fit: with the first one.
pub fn leaving_row(
    tableau: &Tableau,
    vectors: usize,
    entering: usize,
    columns: &[usize],
) -> Result<Option<usize>, EntryOp>
    requires width { rows_of tableau.now + vectors + 2 ≤ tableau.now.width }
    requires columns { AreColumns tableau.now columns.now }
    requires entering { entering < tableau.now.width }
    ensures { result
        ≡ answer entry_is_owed (leaving_ops tableau.now vectors entering columns.now None 0 (rows_of tableau.now))
        (the_leaving_row tableau.now vectors entering columns.now None 0 (rows_of tableau.now)) }
{
    let mut best = None;
    for row in 0..tableau.rows() {
        if is_candidate(tableau, vectors, entering, row) {
            best = better(tableau, entering, columns, best, row)?;
        }
    }
    Ok(best)
}
