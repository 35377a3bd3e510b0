//! The entries of a tableau: whole numbers over one denominator while they are small, else fractions.

ghost use Rattle.std.specs.Prelude.{◌≤◌, ◌≡◌, ◌≢◌, ◌+◌, ◌*◌, ◌<◌, ◌≤ℤ◌, nat_abs, length, pos, ◌^◌, None, IfSome, IfOk, IfErr, IsTrue, false};
ghost use Rattle.exact_forms.specs.Rational.{whole, ratio};
ghost use Rattle.symmetric_matrix.specs.Owed.{answer, first_owed};
ghost use Rattle.exact_linear.specs.Tables.{entry_of};
ghost use Rattle.exact_linear.specs.Columns.{with_ones};
ghost use Rattle.exact_linear.specs.Whole.{fractions_over, entries_in, AreSmallWholes};
ghost use Rattle.exact_linear.specs.Exchange.{entry_is_owed, table_ops, table_cells};

use crate::entry::EntryOp;
use crate::pivot::exchange_into;
use crate::whole::{exchange_wholes, magnitude, small};
use fraction128::Fraction;
use std::alloc::{AllocError, Global};
use std::marker::Model;
use std::mem;

/// The entries of a table, row by row. Contracts see a list of fractions.
#[derive(Drop)]
pub struct Entries {
    // The denominator of the whole numbers, or 0 where the entries stand in `fractions`.
    den: i64,
    wholes: Vec<i64>,
    spare_wholes: Vec<i64>,
    fractions: Vec<Fraction>,
    spare: Vec<Fraction>,
}

impl Model for Entries {
    ghost use Rattle.std.specs.Prelude.{List};
    ghost use Rattle.exact_forms.specs.Rational.{Rational};
    ghost use Rattle.exact_linear.specs.Whole.{entries_in, AreKept};

    ghost Value = { List Rational };

    ghost view = { λ e. entries_in e.den e.wholes.items e.fractions.items };

    ghost invariant = { λ e. AreKept e.den e.wholes.items e.spare_wholes.items e.fractions.items e.spare.items };
}

impl Entries {
    /// The given entries, kept as whole numbers where each is one and small. It is refused for want of memory alone.
    pub fn new(alloc: Global, fractions: Vec<Fraction>) -> Result<Entries, AllocError>
        ensures { IfOk result (λ e. e ≡ fractions.items) }
    {
        let spare = Vec::from_slice(alloc, &fractions)?;
        let mut wholes = zeros(alloc, fractions.len())?;
        let spare_wholes = Vec::from_slice(alloc, &wholes)?;
        let den = wholes_into(&fractions, &mut wholes);
        Ok(Entries {
            den,
            wholes,
            spare_wholes,
            fractions,
            spare,
        })
    }

    /// How many entries there are.
    pub fn len(&self) -> usize
        ensures { result ≡ length self.now }
    {
        self.wholes.len()
    }

    /// The entry at a place, counted from 0.
    pub fn at(&self, k: usize) -> Fraction
        requires { k < length self.now }
        ensures { result ≡ entry_of self.now k }
    {
        if self.den == 0 {
            self.fractions[k]
        } else {
            Fraction::new(self.wholes[k] as i128, self.den as i128)
        }
    }

    /// The entries become those after the exchange at a row and a column, counted from 0.
    pub fn exchange(
        &mut self,
        row: usize,
        column: usize,
        width: usize,
        rows: usize,
        pivot_row: &mut [Fraction],
    ) -> Result<(), EntryOp>
        requires row { row < rows }
        requires column { column < width }
        requires rows { length self.old ≡ rows * width }
        requires pivots { length pivot_row.old ≡ width }
        requires pivot { entry_of self.old (row * width + column) ≢ whole (pos 0) }
        ensures refused { result ≡ answer entry_is_owed (table_ops width self.old row column) tt }
        ensures made { IfOk result (λ _. self.new ≡ table_cells width self.old row column) }
        ensures kept { IfErr result (λ _. self.new ≡ self.old) }
        ensures size { length self.new ≡ length self.old }
        ensures pivots { length pivot_row.new ≡ length pivot_row.old }
    {
        if self.exchange_whole(row, column, width, rows) {
            Ok(())
        } else {
            self.exchange_fractions(row, column, width, rows, pivot_row)
        }
    }

    /// The last column becomes 1 in each row.
    pub fn fill_last(&mut self, width: usize, rows: usize)
        requires size { length self.old ≡ rows * width }
        requires width { 1 ≤ width }
        ensures { self.new ≡ with_ones rows width self.old }
    {
        if self.den == 0 {
            fill_last_column(width, rows, &mut self.fractions);
            return;
        }
        fill_last_wholes(width, rows, self.den, &mut self.wholes);
    }

    // The exchange over whole numbers, where they are kept, the new ones are whole, and small.
    fn exchange_whole(&mut self, row: usize, column: usize, width: usize, rows: usize) -> bool
        requires row { row < rows }
        requires column { column < width }
        requires rows { length self.old ≡ rows * width }
        requires pivot { entry_of self.old (row * width + column) ≢ whole (pos 0) }
        ensures made { IsTrue result → self.new ≡ table_cells width self.old row column }
        ensures owes { IsTrue result → first_owed entry_is_owed (table_ops width self.old row column) ≡ None }
        ensures kept { result ≡ false → self.new ≡ self.old }
    {
        if self.den == 0 {
            return false;
        }
        if !exchange_wholes(
            row,
            column,
            width,
            rows,
            self.den,
            &self.wholes,
            &mut self.spare_wholes,
        ) {
            return false;
        }
        self.den = magnitude(self.wholes[row * width + column]);
        mem::swap(&mut self.wholes, &mut self.spare_wholes);
        true
    }

    // The exchange of fractions, made of the whole numbers where those are kept.
    fn exchange_fractions(
        &mut self,
        row: usize,
        column: usize,
        width: usize,
        rows: usize,
        pivot_row: &mut [Fraction],
    ) -> Result<(), EntryOp>
        requires row { row < rows }
        requires column { column < width }
        requires rows { length self.old ≡ rows * width }
        requires pivots { length pivot_row.old ≡ width }
        requires pivot { entry_of self.old (row * width + column) ≢ whole (pos 0) }
        ensures refused { result ≡ answer entry_is_owed (table_ops width self.old row column) tt }
        ensures made { IfOk result (λ _. self.new ≡ table_cells width self.old row column) }
        ensures kept { IfErr result (λ _. self.new ≡ self.old) }
        ensures pivots { length pivot_row.new ≡ length pivot_row.old }
    {
        fractions_into(self.den, &self.wholes, &mut self.fractions);
        self.den = 0;
        exchange_into(
            row,
            column,
            width,
            rows,
            &self.fractions,
            pivot_row,
            &mut self.spare,
        )?;
        mem::swap(&mut self.fractions, &mut self.spare);
        Ok(())
    }
}

// `into` becomes the entries that are kept.
fn fractions_into(den: i64, wholes: &[i64], into: &mut [Fraction])
    requires not_negative { pos 0 ≤ℤ den }
    requires small { AreSmallWholes wholes.now }
    requires size { length into.old ≡ length wholes.now }
    ensures { into.new ≡ entries_in den wholes.now into.old }
{
    if den > 0 {
        write_fractions(den, wholes, into);
    }
}

// `into` becomes the fractions of the whole numbers.
fn write_fractions(den: i64, wholes: &[i64], into: &mut [Fraction])
    requires den { pos 1 ≤ℤ den }
    requires small { AreSmallWholes wholes.now }
    requires size { length into.old ≡ length wholes.now }
    ensures { into.new ≡ fractions_over (nat_abs den) wholes.now }
{
    for k in 0..wholes.len() {
        into[k] = Fraction::new(wholes[k] as i128, den as i128);
    }
}

// So many zeros.
fn zeros(alloc: Global, count: usize) -> Result<Vec<i64>, AllocError>
    ensures size { IfOk result (λ v. length v.items ≡ count) }
    ensures small { IfOk result (λ v. AreSmallWholes v.items) }
{
    let mut numbers = Vec::with_capacity(alloc, count)?;
    for k in 0..count {
        let _made = k;
        numbers.push(0)?;
    }
    Ok(numbers)
}

// The whole number that a fraction is, if it is one and small.
fn whole_of(fraction: Fraction) -> Option<i64>
    ensures value { IfSome result (λ w. fraction ≡ ratio w 1) }
    ensures small { IfSome result (λ w. nat_abs w < 2 ^ 63) }
{
    if fraction.den() == 1 {
        small(fraction.num())
    } else {
        None
    }
}

// `into` becomes the entries and the answer their denominator 1, where each is whole and small; else the answer is 0.
fn wholes_into(from: &[Fraction], into: &mut [i64]) -> i64
    requires size { length into.old ≡ length from.now }
    requires small { AreSmallWholes into.old }
    ensures same { entries_in result into.new from.now ≡ from.now }
    ensures small { AreSmallWholes into.new }
    ensures not_negative { pos 0 ≤ℤ result }
    ensures den_small { nat_abs result < 2 ^ 63 }
    ensures size { length into.new ≡ length from.now }
{
    for k in 0..from.len() {
        match whole_of(from[k]) {
            Some(number) => into[k] = number,
            None => return 0,
        }
    }
    1
}

// 1 in each row of the last column.
fn fill_last_column(width: usize, rows: usize, entries: &mut [Fraction])
    requires size { length entries.old ≡ rows * width }
    requires width { 1 ≤ width }
    ensures { entries.new ≡ with_ones rows width entries.old }
{
    for k in 0..entries.len() {
        if k % width + 1 == width {
            entries[k] = Fraction::whole(1);
        }
    }
}

// 1 in each row of the last column, over a denominator.
fn fill_last_wholes(width: usize, rows: usize, den: i64, wholes: &mut [i64])
    requires size { length wholes.old ≡ rows * width }
    requires width { 1 ≤ width }
    requires den { pos 1 ≤ℤ den }
    requires den_small { nat_abs den < 2 ^ 63 }
    requires small { AreSmallWholes wholes.old }
    ensures made { fractions_over (nat_abs den) wholes.new
        ≡ with_ones rows width (fractions_over (nat_abs den) wholes.old) }
    ensures small { AreSmallWholes wholes.new }
{
    for k in 0..wholes.len() {
        if k % width + 1 == width {
            wholes[k] = den;
        }
    }
}
