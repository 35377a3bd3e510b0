//! The two answers of the linear program: weights, or the vectors of a basis. Rows and columns count from 0 here.

ghost use Rattle.std.specs.Prelude.{◌≡◌, ◌≢◌, ◌+◌, ◌<◌, ◌≤◌, pos, map, [], if◌then◌else◌, IfOk};
ghost use Rattle.exact_forms.specs.Rational.{whole, ◌/ℚ◌};
ghost use Rattle.fraction128.specs.Recipes.{add_ops};
ghost use Rattle.symmetric_matrix.specs.Owed.{answer, tagged};
ghost use Rattle.exact_linear.specs.Tables.{rows_of};
ghost use Rattle.exact_lp.specs.declared.placed.PlaceOp.TheVariants.{Weight};
ghost use Rattle.exact_lp.specs.Rule.{top, AreColumns};
ghost use Rattle.exact_lp.specs.Placement.{place_is_owed, at_target as the_at_target, is_raised, coefficient as the_coefficient, coefficient_ops, zeros_of, first_above as the_first_above, IsWeightsAnswer, IsOutsideAnswer};

use crate::lists::{Exchanges, Indices, Weights};
use crate::placed::{PlaceOp, Placed};
use crate::rule::{entry_at, is_basic, is_positive, row_of, target_of, top_of, top_row};
use exact_linear::{Tableau, contains};
use fraction128::Fraction;
use std::alloc::{AllocError, Global};
use symmetric_matrix::IntOp;

// The target's entry in the row of a basic column, else 0.
fn at_target(tableau: &Tableau, vectors: usize, column: usize) -> Fraction
    requires width { rows_of tableau.now + vectors + 2 ≤ tableau.now.width }
    requires column { column < tableau.now.width }
    ensures { result ≡ the_at_target tableau.now vectors column }
{
    match row_of(tableau, column) {
        Some(row) => entry_at(tableau, row, target_of(tableau, vectors)),
        None => Fraction::whole(0),
    }
}

// A refused operation is told with its vector.
#[tactic(auto, unfolding(symmetric_matrix::specs::Owed::tagged))]
fn at_weight(vector: usize, answered: Result<Fraction, IntOp>) -> Result<Fraction, PlaceOp>
    ensures { result ≡ tagged (Weight vector) answered }
{
    match answered {
        Ok(value) => Ok(value),
        Err(op) => Err(PlaceOp::Weight { vector, op }),
    }
}

// The coefficient of a vector: its entry, to which that of the sum is added in the first basis.
fn coefficient(
    tableau: &Tableau,
    vectors: usize,
    firsts: &[usize],
    vector: usize,
) -> Result<Fraction, PlaceOp>
    requires width { rows_of tableau.now + vectors + 2 ≤ tableau.now.width }
    requires vector { vector < vectors }
    ensures { result
        ≡ answer place_is_owed
        (if is_raised tableau.now vectors firsts.now vector then map (Weight vector)
        (add_ops (the_at_target tableau.now vectors (rows_of tableau.now + vector))
        (the_at_target tableau.now vectors (top tableau.now vectors))) else [])
        (the_coefficient tableau.now vectors firsts.now vector) }
{
    let _columns = tableau.columns();
    let column = tableau.rows() + vector;
    let top = top_of(tableau, vectors);
    let own = at_target(tableau, vectors, column);
    if is_basic(tableau, top) && contains(firsts, column) {
        at_weight(vector, own.add(at_target(tableau, vectors, top)))
    } else {
        Ok(own)
    }
}

fn weight(
    tableau: &Tableau,
    vectors: usize,
    firsts: &[usize],
    d: Fraction,
    vector: usize,
) -> Result<Fraction, PlaceOp>
    requires width { rows_of tableau.now + vectors + 2 ≤ tableau.now.width }
    requires vector { vector < vectors }
    requires divisor { d ≢ whole (pos 0) }
    ensures { result
        ≡ answer place_is_owed (coefficient_ops tableau.now vectors firsts.now d vector)
        (the_coefficient tableau.now vectors firsts.now vector /ℚ d) }
{
    let coefficient = coefficient(tableau, vectors, firsts, vector)?;
    at_weight(vector, coefficient.div(d))
}

/// The answer that there are weights, or the first operation for them that does not fit.
pub fn inside(
    alloc: Global,
    tableau: &Tableau,
    vectors: usize,
    firsts: &[usize],
    d: Fraction,
    steps: Exchanges,
) -> Placed
    requires width { rows_of tableau.now + vectors + 2 ≤ tableau.now.width }
    requires divisor { d ≢ whole (pos 0) }
    ensures { IsWeightsAnswer tableau.now vectors firsts.now d steps result }
{
    let mut weights = Weights::new(alloc);
    for vector in 0..vectors {
        match weight(tableau, vectors, firsts, d, vector) {
            Ok(value) => {
                if weights.push(value).is_err() {
                    return Placed::OutOfMemory;
                }
            }
            Err(op) => return Placed::Wide { op, steps },
        }
    }
    Placed::Inside { weights, steps }
}

// The basic vectors, in increasing order. It is refused for want of memory alone.
fn zeros(alloc: Global, tableau: &Tableau, vectors: usize) -> Result<Indices, AllocError>
    requires { rows_of tableau.now + vectors + 2 ≤ tableau.now.width }
    ensures { IfOk result (λ l. l ≡ zeros_of tableau.now vectors) }
{
    let _columns = tableau.columns();
    let units = tableau.rows();
    let mut zeros = Indices::new(alloc);
    for vector in 0..vectors {
        if is_basic(tableau, units + vector) {
            zeros.push(vector)?;
        }
    }
    Ok(zeros)
}

// The first of some columns with a positive entry in a row, or 0.
fn first_above(tableau: &Tableau, row: usize, columns: &[usize]) -> usize
    requires row { row < rows_of tableau.now }
    requires columns { AreColumns tableau.now columns.now }
    ensures { result ≡ the_first_above tableau.now row columns.now }
{
    for column in columns {
        if is_positive(&entry_at(tableau, row, *column)) {
            return *column;
        }
    }
    0
}

/// The answer that there are no weights, with the vectors of the basis.
pub fn outside(
    alloc: Global,
    tableau: &Tableau,
    vectors: usize,
    firsts: &[usize],
    steps: Exchanges,
) -> Placed
    requires width { rows_of tableau.now + vectors + 2 ≤ tableau.now.width }
    requires row { 1 ≤ rows_of tableau.now }
    requires columns { AreColumns tableau.now firsts.now }
    ensures { IsOutsideAnswer tableau.now vectors firsts.now steps result }
{
    match zeros(alloc, tableau, vectors) {
        Ok(zeros) => {
            let above = first_above(tableau, top_row(tableau, vectors), firsts);
            Placed::Outside {
                zeros,
                leaving: above.saturating_sub(tableau.rows()),
                steps,
            }
        }
        Err(_) => Placed::OutOfMemory,
    }
}
