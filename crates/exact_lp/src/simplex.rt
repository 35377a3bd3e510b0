//! The linear program: is a matrix a nonnegative combination of the matrices v·vᵗ of a list of vectors?

ghost use Rattle.std.specs.Prelude.{◌≡◌, ◌≢◌, ℕ, ◌+◌, ◌<◌, ◌≤◌, pos, [], ◌∷◌, length, IfOk, None, slice_index_or, ◌≤ℤ◌};
ghost use Rattle.exact_forms.specs.Copositive.{IsPerfect};
ghost use Rattle.exact_forms.specs.Rational.{whole};
ghost use Rattle.symmetric_matrix.specs.Owed.{answer};
ghost use Rattle.exact_linear.specs.Tables.{rows_of, table_entry, basic_at};
ghost use Rattle.exact_linear.specs.Columns.{IsLastFree};
ghost use Rattle.exact_linear.specs.Exchange.{entry_is_owed, exchange_ops, exchanged};
ghost use Rattle.exact_lp.specs.Rule.{target, AreColumns};
ghost use Rattle.exact_lp.specs.Placement.{opened, opened_ops, leaving as the_leaving, IsStepped, HasLeavingRows, IsLeft, IsPlaceAnswer, IsOnlyAnswer, problem_of};
ghost use Rattle.exact_lp.specs.Weights.{IsSound};
ghost use Rattle.exact_lp.specs.Ruled.{IsRuled};

use crate::ends::{inside, outside};
use crate::lists::Exchanges;
use crate::placed::{Exchange, PlaceOp, Placed};
use crate::rule::{
    basic_of, entering, first_columns, is_inside, is_settled, least_row, leaving_row, target_of,
    top_of,
};
use crate::squares::start;
use exact_linear::{EntryOp, Tableau};
use fraction128::Fraction;
use std::alloc::{AllocError, Global};
use symmetric_matrix::{SymInt, VectorList};

// Rows and columns count from 0.
fn exchange_at(tableau: &mut Tableau, row: usize, column: usize) -> Result<(), EntryOp>
    requires row { row < rows_of tableau.old }
    requires column { column < tableau.old.width }
    requires pivot { table_entry tableau.old row column ≢ whole (pos 0) }
    ensures refused { result ≡ answer entry_is_owed (exchange_ops tableau.old row column) tt }
    ensures made { IfOk result (λ _. tableau.new ≡ exchanged tableau.old row column) }
{
    let (_rows, _columns) = (tableau.rows(), tableau.columns());
    tableau.exchange(row + 1, column + 1)
}

// The sum of the first basis comes in at the least entry of the target.
fn open(tableau: &mut Tableau, vectors: usize) -> Result<(), EntryOp>
    requires width { rows_of tableau.old + vectors + 2 ≡ tableau.old.width }
    requires row { 1 ≤ rows_of tableau.old }
    requires free { IsLastFree tableau.old }
    ensures refused { result ≡ answer entry_is_owed (opened_ops tableau.old vectors) tt }
    ensures made { IfOk result (λ _. tableau.new ≡ opened tableau.old vectors) }
{
    let row = least_row(tableau, vectors);
    let column = top_of(tableau, vectors);
    tableau.sum_of_basis();
    exchange_at(tableau, row, column)
}

// A step: the leaving row by the comparisons, then the exchange there. `ranks` are the target's column and the first ones.
fn step(
    tableau: &mut Tableau,
    vectors: usize,
    firsts: &[usize],
    ranks: &[usize],
    entering: usize,
) -> Result<Exchange, EntryOp>
    requires width { rows_of tableau.old + vectors + 2 ≤ tableau.old.width }
    requires ranks { ranks.now ≡ target tableau.old vectors ∷ firsts.now }
    requires columns { AreColumns tableau.old ranks.now }
    requires entering { entering < tableau.old.width }
    requires leaves { the_leaving tableau.old vectors firsts.now entering ≢ None }
    ensures { IsStepped tableau.old vectors firsts.now entering tableau.new result }
{
    match leaving_row(tableau, vectors, entering, ranks) {
        Ok(Some(row)) => leave(tableau, row, entering),
        Ok(None) => unreachable!(),
        Err(op) => Err(op),
    }
}

// The exchange at a row and a column, told as a step.
fn leave(tableau: &mut Tableau, row: usize, column: usize) -> Result<Exchange, EntryOp>
    requires row { row < rows_of tableau.old }
    requires column { column < tableau.old.width }
    requires pivot { table_entry tableau.old row column ≢ whole (pos 0) }
    ensures { IsLeft tableau.old row column tableau.new result }
{
    let units = tableau.rows();
    let leaving = basic_of(tableau, row);
    match exchange_at(tableau, row, column) {
        Ok(()) => Ok(Exchange {
            entering: column.saturating_sub(units),
            leaving: leaving.saturating_sub(units),
        }),
        Err(op) => Err(op),
    }
}

// The target's column, then the first ones. It is refused for want of memory alone.
fn ranks(alloc: Global, target: usize, firsts: &[usize]) -> Result<Vec<usize>, AllocError>
    ensures { IfOk result (λ v. v.items ≡ target ∷ firsts.now) }
{
    let mut ranks = Vec::with_capacity(alloc, firsts.len())?;
    ranks.push(target)?;
    ranks.extend_from_slice(firsts)?;
    Ok(ranks)
}

// An operation on the tableau's entries does not fit, the first one after these steps.
fn wide(op: EntryOp, steps: Exchanges) -> Placed
    ensures { result ≡ Placed.Wide (PlaceOp.Tableau op) steps }
{
    let op = PlaceOp::Tableau(op);
    Placed::Wide { op, steps }
}

// The linear program on the tableau over the units, whose further columns are the vectors' matrices, the target and the
// reserved column.
fn place_on(alloc: Global, start: Tableau, vectors: usize, d: Fraction, budget: usize) -> Placed
    requires width { rows_of start + vectors + 2 ≡ start.width }
    requires row { 1 ≤ rows_of start }
    requires units { (i : ℕ) → i < rows_of start → basic_at start i < rows_of start }
    requires divisor { d ≢ whole (pos 0) }
    requires leaves { HasLeavingRows (record { start = start; vectors = vectors; d = d }) }
    ensures { IsPlaceAnswer (record { start = start; vectors = vectors; d = d }) budget result }
{
    let mut steps = Exchanges::new(alloc);
    let mut tableau = match start.bring_in_first(vectors) {
        Ok(tableau) => tableau,
        Err(op) => return wide(op, steps),
    };
    let Ok(firsts) = first_columns(alloc, &tableau, vectors) else {
        return Placed::OutOfMemory;
    };
    if is_settled(&tableau, vectors) {
        return inside(alloc, &tableau, vectors, &firsts, d, steps);
    }
    let Ok(ranks) = ranks(alloc, target_of(&tableau, vectors), &firsts) else {
        return Placed::OutOfMemory;
    };
    if let Err(op) = open(&mut tableau, vectors) {
        return wide(op, steps);
    }
    loop {
        if is_inside(&tableau, vectors) {
            return inside(alloc, &tableau, vectors, &firsts, d, steps);
        }
        let Some(column) = entering(&tableau, vectors) else {
            return outside(alloc, &tableau, vectors, &firsts, steps);
        };
        if steps.len() == budget {
            return Placed::Pivots { steps };
        }
        match step(&mut tableau, vectors, &firsts, &ranks, column) {
            Ok(exchange) => {
                if steps.push(exchange).is_err() {
                    return Placed::OutOfMemory;
                }
            }
            Err(op) => return wide(op, steps),
        }
    }
}

/// Whether S/d is a nonnegative combination of the matrices v·vᵗ of the vectors, by the simplex rule with at most `budget`
/// steps.
///
/// The vectors have as many coordinates as S has rows, their matrices span all symmetric matrices of that size, and d is at
/// least 1.
///
/// Each answer comes after steps of the rule that were due: `Inside` with one weight for each vector, at least 0, whose
/// combination is S/d; `Outside` only where there are no such weights; `Pivots` after `budget` steps, where another is due and
/// no operation up to then is owed; `Wide` with the first operation that is owed after the steps. Want of memory may come at
/// any time; but for it at most one answer fits, so each of the four comes exactly where it is due.
///
/// The first basis has each vector whose matrix is no combination of those of earlier ones. The sum t of its matrices comes in
/// at the least coordinate of S, of equal ones the last. A step is due while S has a negative coordinate at t and some vector
/// has: the first such vector enters. Of the vectors of the basis at which it has a positive coordinate, the one leaves whose
/// coordinates of S and of the first basis, divided by that of the entering vector, are lexicographically least. Each step
/// makes the list of t's coordinates lexicographically greater.
pub fn place(alloc: Global, vectors: &VectorList, s: &SymInt, d: i128, budget: u32) -> Placed
    requires one_length { (k : ℕ) → k < length vectors.now → length (slice_index_or vectors.now k []) ≡ s.now.size }
    requires positive { pos 1 ≤ℤ d }
    requires spanning { IsPerfect s.now.size vectors.now }
    ensures answer { IsPlaceAnswer (problem_of vectors.now s.now d) budget result }
    ensures due { IsOnlyAnswer (problem_of vectors.now s.now d) budget result }
    ensures rule { IsRuled vectors.now s.now d result }
    ensures sound { IsSound s.now.size vectors.now s.now d result }
{
    let (_n, vectors_len) = (s.n(), vectors.len());
    match start(alloc, vectors, s) {
        Ok(tableau) => place_on(
            alloc,
            tableau,
            vectors_len,
            Fraction::whole(d),
            budget as usize,
        ),
        Err(_) => Placed::OutOfMemory,
    }
}
