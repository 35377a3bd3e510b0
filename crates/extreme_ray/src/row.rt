//! The row of the leaving vector. Rows and columns count from 0 here, as in the definitions.

ghost use Rattle.std.specs.Prelude.{◌≡◌, ◌+◌, ◌<◌, ◌≤◌, ◌++◌, length, IfOk, OnOk};
ghost use Rattle.exact_forms.specs.Triangles.{triangle};
ghost use Rattle.exact_linear.specs.Tables.{rows_of, basic_at, first_place, row_of as the_row_of, or_zero};
ghost use Rattle.extreme_ray.specs.Rays.{is_name, position as the_position, row_coefficients, coefficients as the_coefficients};

use crate::clearing::Coefficient;
use exact_linear::Tableau;
use std::alloc::{AllocError, Global};

/// The row in which a column is basic, or 0.
pub fn row_of(tableau: &Tableau, column: usize) -> usize
    requires { column < tableau.now.width }
    ensures { result ≡ or_zero (the_row_of tableau.now column) }
{
    let _columns = tableau.columns();
    match tableau.row_of(column + 1) {
        Some(row) => row - 1,
        None => 0,
    }
}

fn place_of(names: &[usize], name: usize) -> Option<usize>
    ensures { result ≡ first_place (is_name names.now name) 0 (length names.now) }
{
    for i in 0..names.len() {
        if names[i] == name {
            return Some(i);
        }
    }
    None
}

/// Where an index stands among the names, or 0.
#[tactic(auto, unfolding(crate::specs::Rays::position))]
pub fn position(names: &[usize], name: usize) -> usize
    ensures { result ≡ the_position names.now name }
{
    match place_of(names, name) {
        Some(i) => i,
        None => 0,
    }
}

// Appends the entries of a row in the units of row i of the triangle, of which `first` is the first.
fn push_coefficients(
    coefficients: &mut Vec<Coefficient>,
    tableau: &Tableau,
    row: usize,
    first: usize,
    i: usize,
) -> Result<(), AllocError>
    requires row { row < rows_of tableau.now }
    requires first { first ≡ triangle i }
    requires width { first + i < tableau.now.width }
    ensures { OnOk result (coefficients.new.items ≡ coefficients.old.items ++ row_coefficients tableau.now row i) }
{
    let (_rows, _columns) = (tableau.rows(), tableau.columns());
    for j in 0..i + 1 {
        coefficients.push(Coefficient {
            value: tableau.entry(row + 1, first + j + 1),
            diagonal: i == j,
        })?;
    }
    Ok(())
}

/// The entries of a row in the units, in the order of the lower triangle of n rows. It is refused for want of memory alone.
pub fn coefficients(
    alloc: Global,
    tableau: &Tableau,
    row: usize,
    n: usize,
) -> Result<Vec<Coefficient>, AllocError>
    requires row { row < rows_of tableau.now }
    requires width { triangle n ≤ tableau.now.width }
    ensures { IfOk result (λ v. v.items ≡ the_coefficients tableau.now row n) }
{
    let _columns = tableau.columns();
    let mut coefficients = Vec::new(alloc);
    let mut first = 0;
    for i in 0..n {
        push_coefficients(&mut coefficients, tableau, row, first, i)?;
        first += i + 1;
    }
    Ok(coefficients)
}
