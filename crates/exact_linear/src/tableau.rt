//! The tableau: rows of fractions, written over the columns that are basic.

ghost use Rattle.std.specs.Prelude.{◌≡◌, ◌≢◌, ℕ, ◌+◌, ◌-◌, ◌*◌, ◌<◌, ◌≤◌, length, slice_index_or, IfOk, IfErr, pos, if◌then◌else◌, nat_eq, nat_abs, ◌^◌};
ghost use Rattle.exact_forms.specs.Rational.{whole};
ghost use Rattle.exact_forms.specs.Coordinates.{Columns};
ghost use Rattle.exact_forms.specs.Triangles.{triangle};
ghost use Rattle.symmetric_matrix.specs.Owed.{answer};
ghost use Rattle.std.specs.List.{range_with_len};
ghost use Rattle.exact_linear.specs.Tables.{rows_of, table_entry, basic_at, row_of as the_row_of, from_one, cells, entry_of, IsRectangle};
ghost use Rattle.exact_linear.specs.Columns.{start_cell, no_matrix, columns_of, start_table, with_sum, with_sum_of, HasCoordinates, IsLastFree};
ghost use Rattle.exact_linear.specs.Exchange.{entry_is_owed, exchange_ops, exchanged, first_row, brought_in, bring_ops, first_bases, first_ops};

use crate::entry::EntryOp;
use crate::kept::Entries;
use fraction128::Fraction;
use std::alloc::{AllocError, Global};
use std::marker::Model;
use symmetric_matrix::SymInt;

/// A table of fractions: the entry of a row and a column is the coefficient of the row's basic column in the column's matrix.
///
/// All memory is taken when it is made. Contracts see a plain table, whose rows and columns count from 0.
#[derive(Drop)]
pub struct Tableau {
    rows: usize,
    width: usize,
    entries: Entries,
    basic: Vec<usize>,
    // The row that an exchange of fractions makes.
    pivot_row: Vec<Fraction>,
}

impl Model for Tableau {
    ghost use Rattle.exact_linear.specs.Tables.{Table};
    ghost use Rattle.exact_linear.specs.Exchange.{IsLaidOut};

    ghost Value = { Table };

    ghost view = { λ t. record { width = t.width; entries = t.entries; basic = t.basic.items } };

    ghost invariant = { λ t. IsLaidOut t.rows t.width t.entries t.pivot_row.items t.basic.items };
}

impl Tableau {
    /// How many rows there are.
    pub fn rows(&self) -> usize
        ensures value { result ≡ rows_of self.now }
        ensures rectangle { IsRectangle self.now }
    {
        self.rows
    }

    /// How many columns there are.
    pub fn columns(&self) -> usize
        ensures { result ≡ self.now.width }
    {
        self.width
    }

    /// The basic column of a row; both count from 1.
    pub fn basic(&self, row: usize) -> usize
        requires first { 1 ≤ row }
        requires last { row ≤ rows_of self.now }
        ensures { result ≡ basic_at self.now (row - 1) + 1 }
    {
        self.basic[row - 1] + 1
    }

    /// The row in which a column is basic, if there is one; both count from 1.
    pub fn row_of(&self, column: usize) -> Option<usize>
        requires first { 1 ≤ column }
        requires last { column ≤ self.now.width }
        ensures { result ≡ from_one (the_row_of self.now (column - 1)) }
    {
        for row in 0..self.rows() {
            if self.basic(row + 1) == column {
                return Some(row + 1);
            }
        }
        None
    }

    /// The entry at a row and a column, counted from 1.
    pub fn entry(&self, row: usize, column: usize) -> Fraction
        requires first_row { 1 ≤ row }
        requires last_row { row ≤ rows_of self.now }
        requires first_column { 1 ≤ column }
        requires last_column { column ≤ self.now.width }
        ensures { result ≡ table_entry self.now (row - 1) (column - 1) }
    {
        let _len = self.entries.len();
        self.entries.at((row - 1) * self.width + (column - 1))
    }

    /// Makes a column basic in a row; both count from 1. The entry there isn't zero.
    ///
    /// It is refused exactly where an operation of the exchange does not fit: with the first one, and the tableau is as before.
    /// It takes no memory.
    pub fn exchange(&mut self, row: usize, column: usize) -> Result<(), EntryOp>
        requires first_row { 1 ≤ row }
        requires last_row { row ≤ rows_of self.old }
        requires first_column { 1 ≤ column }
        requires last_column { column ≤ self.old.width }
        requires pivot { table_entry self.old (row - 1) (column - 1) ≢ whole (pos 0) }
        ensures refused { result ≡ answer entry_is_owed (exchange_ops self.old (row - 1) (column - 1)) tt }
        ensures made { IfOk result (λ _. self.new ≡ exchanged self.old (row - 1) (column - 1)) }
        ensures coordinates { (A : Columns) → HasCoordinates A self.old → IfOk result (λ _. HasCoordinates A self.new) }
        ensures kept { IfErr result (λ _. self.new ≡ self.old) }
    {
        self.exchange_at(row - 1, column - 1)
    }

    // Rows and columns count from 0.
    #[tactic(auto, unfolding(crate::specs::Exchange::exchange_ops, crate::specs::Exchange::exchanged))]
    fn exchange_at(&mut self, row: usize, column: usize) -> Result<(), EntryOp>
        requires row { row < rows_of self.old }
        requires column { column < self.old.width }
        requires pivot { table_entry self.old row column ≢ whole (pos 0) }
        ensures refused { result ≡ answer entry_is_owed (exchange_ops self.old row column) tt }
        ensures made { IfOk result (λ _. self.new ≡ exchanged self.old row column) }
        ensures kept { IfErr result (λ _. self.new ≡ self.old) }
        ensures rectangle { IsRectangle self.old }
    {
        self.entries
            .exchange(row, column, self.width, self.rows, &mut self.pivot_row)?;
        self.basic[row] = column;
        Ok(())
    }

    /// The reserved last column becomes the sum of the basic columns, so that each of its entries is 1. It takes no memory.
    pub fn sum_of_basis(&mut self)
        requires { IsLastFree self.old }
        ensures sum { self.new ≡ with_sum self.old }
        ensures coordinates { (A : Columns) → HasCoordinates A self.old
            → HasCoordinates (with_sum_of A self.old) self.new }
    {
        self.fill_last();
    }

    fn fill_last(&mut self)
        ensures sum { self.new ≡ with_sum self.old }
        ensures rectangle { IsRectangle self.old }
    {
        self.entries.fill_last(self.width, self.rows);
    }

    /// Brings a column in, counted from 1: it becomes basic in the first row that holds a unit and has an entry in it that
    /// isn't zero. Where there is no such row, nothing changes.
    ///
    /// It is refused as an exchange is, and then the tableau is as before.
    pub fn bring_in(&mut self, column: usize) -> Result<(), EntryOp>
        requires first { 1 ≤ column }
        requires last { column ≤ self.old.width }
        ensures refused { result ≡ answer entry_is_owed (bring_ops self.old (column - 1)) tt }
        ensures made { IfOk result (λ _. self.new ≡ brought_in self.old (column - 1)) }
        ensures coordinates { (A : Columns) → HasCoordinates A self.old → HasCoordinates A self.new }
        ensures kept { IfErr result (λ _. self.new ≡ self.old) }
    {
        match self.row_for(column - 1) {
            Some(row) => self.exchange_at(row, column - 1),
            None => Ok(()),
        }
    }

    // The first row that holds a unit and has an entry in this column, counted from 0, that is not zero.
    fn row_for(&self, column: usize) -> Option<usize>
        requires { column < self.now.width }
        ensures { result ≡ first_row self.now column }
    {
        for row in 0..self.rows {
            let _len = self.entries.len();
            if self.basic[row] < self.rows
                && !self.entries.at(row * self.width + column).is_zero()
            {
                return Some(row);
            }
        }
        None
    }

    /// Brings in the first `count` columns after the units, one after the other, and gives the tableau back.
    ///
    /// It is refused as the exchanges are, with the first operation that does not fit; then there is no tableau any more.
    pub fn bring_in_first(self, count: usize) -> Result<Tableau, EntryOp>
        requires { rows_of self + count ≤ self.width }
        ensures made { result ≡ answer entry_is_owed (first_ops self count) (first_bases self count) }
        ensures coordinates { IfOk result (λ t. (A : Columns) → HasCoordinates A self → HasCoordinates A t) }
    {
        let mut tableau = self;
        let rows = tableau.rows();
        let _width = tableau.columns();
        for k in 0..count {
            tableau.bring_in(rows + k + 1)?;
        }
        Ok(tableau)
    }

    /// The tableau over the n(n+1)/2 units, whose columns are the units, the given matrices of `n` rows, and one reserved
    /// column that is zero. It is refused for want of memory alone.
    pub fn over_units(alloc: Global, n: u8, columns: &[SymInt]) -> Result<Tableau, AllocError>
        requires positive { 1 ≤ n }
        requires small { n ≤ 8 }
        requires sizes { (k : ℕ) → k < length columns.now → (slice_index_or columns.now k no_matrix).size ≡ n }
        ensures table { IfOk result (λ t. t ≡ start_table n columns.now) }
        ensures coordinates { IfOk result (λ t. HasCoordinates (columns_of n columns.now) t) }
    {
        let rows = units_of(n);
        let width = rows + columns.len() + 1;
        let entries = start_entries(alloc, rows, width, columns)?;
        let pivot_row = Vec::from_slice(alloc, &entries[..width])?;
        let basic = numbers_below(alloc, rows)?;
        let entries = Entries::new(alloc, entries)?;
        Ok(Tableau {
            rows,
            width,
            entries,
            basic,
            pivot_row,
        })
    }
}

// How many units there are.
fn units_of(n: u8) -> usize
    requires { n ≤ 8 }
    ensures value { result ≡ triangle n }
    ensures few { result ≤ 36 }
{
    usize::from(n) * (usize::from(n) + 1) / 2
}

// The numbers from 0 on below `end`.
fn numbers_below(alloc: Global, end: usize) -> Result<Vec<usize>, AllocError>
    ensures { IfOk result (λ v. v.items ≡ range_with_len 0 end) }
{
    let mut numbers = Vec::with_capacity(alloc, end)?;
    for number in 0..end {
        numbers.push(number)?;
    }
    Ok(numbers)
}

// The entries over the units, row by row.
fn start_entries(
    alloc: Global,
    rows: usize,
    width: usize,
    columns: &[SymInt],
) -> Result<Vec<Fraction>, AllocError>
    requires few { rows ≤ 36 }
    requires width { width ≡ rows + length columns.now + 1 }
    requires sizes { (k : ℕ) → k < length columns.now → triangle (slice_index_or columns.now k no_matrix).size ≡ rows }
    ensures { IfOk result (λ v. v.items ≡ cells rows width (start_cell rows columns.now)) }
{
    let total = rows * width;
    let mut entries = Vec::with_capacity(alloc, total)?;
    for k in 0..total {
        entries.push(start_entry(rows, columns, k / width, k % width))?;
    }
    Ok(entries)
}

// The coordinate of a column at a unit; both count from 0.
#[tactic(auto, using(crate::proofs::StartTable::cell_one, crate::proofs::StartTable::cell_zero, crate::proofs::StartTable::cell_given))]
fn start_entry(rows: usize, columns: &[SymInt], unit: usize, column: usize) -> Fraction
    requires unit { unit < rows }
    requires sizes { (k : ℕ) → k < length columns.now → triangle (slice_index_or columns.now k no_matrix).size ≡ rows }
    ensures { result ≡ start_cell rows columns.now unit column }
{
    if column < rows {
        return if unit == column {
            Fraction::whole(1)
        } else {
            Fraction::whole(0)
        };
    }
    if column - rows < columns.len() {
        Fraction::whole(lower_entry(&columns[column - rows], unit))
    } else {
        Fraction::whole(0)
    }
}

// An entry of a lower triangle, counted from 0.
fn lower_entry(matrix: &SymInt, k: usize) -> i128
    requires { k < triangle matrix.now.size }
    ensures value { result ≡ slice_index_or matrix.now.lower k (pos 0) }
    ensures fits { nat_abs result < 2 ^ 127 }
{
    let mut first = 0;
    for before in 0..matrix.n() {
        let column = k - first;
        if column <= usize::from(before) {
            return matrix.get(before + 1, column as u8 + 1);
        }
        first += usize::from(before) + 1;
    }
    0
}
