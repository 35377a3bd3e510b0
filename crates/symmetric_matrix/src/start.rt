//! The first matrix of a walk, its copositive minimum and its minimal vectors.

ghost use Rattle.std.specs.Prelude.{◌≡◌, ◌+◌, ◌<◌, ◌≤◌, ◌++◌, length, map, IfOk, OnOk};
ghost use Rattle.exact_forms.specs.Triangles.{triangle};
ghost use Rattle.symmetric_matrix.specs.FirstMatrix.{first_minimum, first_entry, first_matrix, FirstMinimum, StartVectorsArePerfect};
ghost use Rattle.symmetric_matrix.specs.Recipes.{row_places};
ghost use Rattle.symmetric_matrix.specs.StartVectors.{run_vector, late_runs, start_list, ListsStartVectors};
ghost use Rattle.symmetric_matrix.specs.StartWeights.{StartWeightsWrite, StartMatricesAreIndependent};

use crate::{IntVector, SymInt, VectorList};
use std::alloc::{AllocError, Global};

/// The matrix of `n` rows with 2 on the diagonal and -1 beside it, or for `n` = 1 with the entry 1: a perfect matrix.
///
/// Its copositive minimum is `start_minimum` and its minimal vectors are `start_vectors`. It is refused for want of memory alone.
pub fn start_matrix(alloc: Global, n: u8) -> Result<SymInt, AllocError>
    requires positive { 1 ≤ n }
    requires small { n ≤ 8 }
    ensures { IfOk result (λ q. q ≡ first_matrix n) }
{
    let mut lower = Vec::new(alloc);
    for row in 0..n {
        push_first_row(&mut lower, n, row)?;
    }
    SymInt::from_lower(alloc, n, &lower)
}

/// The copositive minimum of `start_matrix`: 1 for `n` = 1, else 2.
pub fn start_minimum(n: u8) -> i128
    ensures { result ≡ first_minimum n }
{
    if n == 1 { 1 } else { 2 }
}

/// The n(n+1)/2 vectors of `n` coordinates 0 and 1 whose ones are consecutive and not none, in increasing lexicographic order.
///
/// These are the minimal vectors of `start_matrix`. It is refused for want of memory alone.
pub fn start_vectors(alloc: Global, n: u8) -> Result<VectorList, AllocError>
    requires positive { 1 ≤ n }
    requires small { n ≤ 8 }
    ensures list { IfOk result (λ list. list ≡ start_list n) }
    ensures count { IfOk result (λ list. length list ≡ triangle n) }
    ensures meaning { IfOk result (λ list. ListsStartVectors n list) }
{
    let mut list = VectorList::new(alloc);
    for later in 0..n {
        push_runs(alloc, n, later, &mut list)?;
    }
    Ok(list)
}

/// A law, with nothing to compute: the weights of a symmetric matrix over the start vectors are its coordinates, and there are no others.
pub fn start_weights_are_coordinates()
    ensures write { StartWeightsWrite }
    ensures independent { StartMatricesAreIndependent }
{}

/// A law, with nothing to compute: `start_matrix` has the copositive minimum `start_minimum` and exactly the minimal vectors
/// `start_vectors`, and these are perfect.
pub fn start_matrix_is_perfect()
    ensures minimum { FirstMinimum }
    ensures perfect { StartVectorsArePerfect }
{}

// Appends row `row` of the first matrix up to the diagonal, counted from 0.
fn push_first_row(lower: &mut Vec<i128>, n: u8, row: u8) -> Result<(), AllocError>
    requires { row < n }
    ensures { OnOk result (lower.new.items ≡ lower.old.items ++ map (first_entry n) (row_places row)) }
{
    for column in 0..row + 1 {
        lower.push(entry_at(n, row, column))?;
    }
    Ok(())
}

// The entry of the first matrix at a place of its lower triangle, counted from 0.
fn entry_at(n: u8, row: u8, column: u8) -> i128
    requires { column ≤ row }
    ensures { result ≡ first_entry n (record { row = row; column = column }) }
{
    if row == column {
        start_minimum(n)
    } else if row == column + 1 {
        -1
    } else {
        0
    }
}

// Appends the vectors of the runs after whose beginning there are `later` places.
fn push_runs(alloc: Global, n: u8, later: u8, list: &mut VectorList) -> Result<(), AllocError>
    requires small { n ≤ 8 }
    requires within { later < n }
    requires before { list.old ≡ map (run_vector n) (late_runs n later) }
    ensures { OnOk result (list.new ≡ map (run_vector n) (late_runs n (later + 1))) }
{
    let first = n - 1 - later;
    for last in first..n {
        list.push(&vector_of_run(alloc, n, first, last))?;
    }
    Ok(())
}

// The vector of `n` coordinates with ones from first to last, counted from 0.
fn vector_of_run(alloc: Global, n: u8, first: u8, last: u8) -> IntVector
    requires small { n ≤ 8 }
    requires ordered { first ≤ last }
    requires within { last < n }
    ensures { result ≡ run_vector n (record { first = first; last = last }) }
{
    let mut coordinates = [0; 8];
    for place in first..last + 1 {
        coordinates[usize::from(place)] = 1;
    }
    IntVector::from_slice(alloc, &coordinates[..usize::from(n)])
}
