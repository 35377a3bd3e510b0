//! The ray.

ghost use Rattle.std.specs.Prelude.{◌≡◌, ◌≢◌, ℕ, ◌+◌, ◌<◌, ◌≤◌, ◌≤ℤ◌, pos, nat_abs, length, IfOk, IfErr};
ghost use Rattle.exact_forms.specs.Triangles.{triangle};
ghost use Rattle.symmetric_matrix.specs.Combining.{primitive_of};
ghost use Rattle.symmetric_matrix.specs.Divisors.{divisor_from};
ghost use Rattle.symmetric_matrix.specs.Symmetric.{IsLower};
ghost use Rattle.exact_linear.specs.Columns.{start_table};
ghost use Rattle.exact_linear.specs.Exchange.{first_bases, first_ops};
ghost use Rattle.exact_linear.specs.Tables.{rows_of};
ghost use Rattle.exact_linear.specs.Squares.{name_at, squares, vector_at, named};
ghost use Rattle.extreme_ray.specs.Clearing.{cleared_coefficients as the_cleared, ray_clear_ops, numerators as the_numerators, ray_numerator_ops, cleared_matrix};
ghost use Rattle.extreme_ray.specs.Rays.{coefficients as the_coefficients, vector_size, IsRayBasis, IsRayAnswer, IsRayBeside};
ghost use Rattle.extreme_ray.specs.Steps.{columns_over, IsBroughtIn, AreOver, AreClearedOf, IsRayOf, IsEntryFail, IsClearFail};

use crate::clearing::{Coefficient, common_denominator, numerators};
use crate::row::{coefficients, position, row_of};
use crate::start::{names, start};
use exact_linear::{EntryOp, Tableau};
use std::alloc::{AllocError, Global};
use symmetric_matrix::{IntOp, SymInt, VectorList};

/// Why a ray is not made: an operation on the entries of its tableau, or of the clearing of its denominators, does not fit.
#[derive(Clone, Copy, Debug, PartialEq, Eq)]
pub enum RayFail {
    Entry(EntryOp),
    Clear(IntOp),
    OutOfMemory,
}

// The table after its first columns have come in.
fn bring_in(start: Tableau, count: usize) -> Result<Tableau, RayFail>
    requires { rows_of start + count ≤ start.width }
    ensures ok { IfOk result (IsBroughtIn start count) }
    ensures wide { IfErr result (IsEntryFail (first_ops start count)) }
{
    match start.bring_in_first(count) {
        Ok(table) => Ok(table),
        Err(op) => Err(RayFail::Entry(op)),
    }
}

// The tableau after the vectors with these indices have come in.
fn brought_in(
    alloc: Global,
    vectors: &VectorList,
    names: &[usize],
    n: u8,
) -> Result<Tableau, RayFail>
    requires within { (i : ℕ) → i < length names.now → name_at names.now i < length vectors.now }
    requires sizes { (k : ℕ) → k < length vectors.now → length (vector_at vectors.now k) ≡ n }
    requires positive { 1 ≤ n }
    requires small { n ≤ 8 }
    ensures ok { IfOk result (IsBroughtIn (columns_over n vectors.now names.now) (length names.now)) }
    ensures wide { IfErr result (IsEntryFail (first_ops (columns_over n vectors.now names.now) (length names.now))) }
{
    match start(alloc, vectors, names, n) {
        Ok(table) => bring_in(table, names.len()),
        Err(_) => Err(RayFail::OutOfMemory),
    }
}

fn zero_numbers(alloc: Global, count: usize) -> Result<Vec<i128>, AllocError>
    ensures { IfOk result (λ v. length v.items ≡ count) }
{
    let mut numbers = Vec::with_capacity(alloc, count)?;
    for _k in 0..count {
        numbers.push(0)?;
    }
    Ok(numbers)
}

// The numerators of the coefficients over a common denominator.
fn cleared_over(
    alloc: Global,
    coefficients: &[Coefficient],
    common: i128,
) -> Result<Vec<i128>, RayFail>
    requires positive { pos 1 ≤ℤ common }
    ensures ok { IfOk result (λ v. AreOver (nat_abs common) coefficients.now v.items) }
    ensures wide { IfErr result (IsClearFail (ray_numerator_ops (nat_abs common) coefficients.now)) }
{
    let Ok(mut lower) = zero_numbers(alloc, coefficients.len()) else {
        return Err(RayFail::OutOfMemory);
    };
    match numerators(coefficients, common, &mut lower) {
        Ok(()) => Ok(lower),
        Err(op) => Err(RayFail::Clear(op)),
    }
}

// The numerators of the coefficients over their least common denominator.
fn cleared(alloc: Global, coefficients: &[Coefficient]) -> Result<Vec<i128>, RayFail>
    ensures ok { IfOk result (λ v. AreClearedOf coefficients.now v.items) }
    ensures wide { IfErr result (IsClearFail (ray_clear_ops coefficients.now)) }
{
    match common_denominator(coefficients) {
        Ok(common) => cleared_over(alloc, coefficients, common),
        Err(op) => Err(RayFail::Clear(op)),
    }
}

// The primitive form of the matrix with this lower triangle.
fn primitive(alloc: Global, n: u8, lower: &[i128]) -> Result<SymInt, AllocError>
    requires positive { 1 ≤ n }
    requires small { n ≤ 8 }
    requires lower { IsLower n lower.now }
    requires some { divisor_from 0 lower.now ≢ 0 }
    ensures { IfOk result (λ r. r ≡ primitive_of (record { size = n; lower = lower.now })) }
{
    SymInt::from_lower(alloc, n, lower)?.primitive()
}

// The ray by the entries of a row in the units.
fn by_row(alloc: Global, table: &Tableau, row: usize, n: u8) -> Result<SymInt, RayFail>
    requires positive { 1 ≤ n }
    requires small { n ≤ 8 }
    requires row { row < rows_of table.now }
    requires width { triangle n ≤ table.now.width }
    requires some { divisor_from 0 (the_cleared (the_coefficients table.now row n)) ≢ 0 }
    ensures ok { IfOk result (IsRayOf n (the_coefficients table.now row n)) }
    ensures wide { IfErr result (IsClearFail (ray_clear_ops (the_coefficients table.now row n))) }
{
    let Ok(entries) = coefficients(alloc, table, row, usize::from(n)) else {
        return Err(RayFail::OutOfMemory);
    };
    match cleared(alloc, &entries) {
        Ok(lower) => match primitive(alloc, n, &lower) {
            Ok(ray) => Ok(ray),
            Err(_) => Err(RayFail::OutOfMemory),
        },
        Err(fail) => Err(fail),
    }
}

/// The primitive matrix of whole numbers that is zero at the vectors `zeros` and positive at the vector `leaving`.
///
/// Vectors are named by their indices, counted from 0; the zeros come in any order. Together they are n(n+1)/2 vectors whose
/// matrices are independent, so there is one such matrix alone (`at_most_one_ray`). It is refused exactly where an operation
/// on the entries of its tableau or of the clearing of denominators does not fit, with the first one, or for want of memory.
pub fn ray_of(
    alloc: Global,
    vectors: &VectorList,
    zeros: &[usize],
    leaving: usize,
) -> Result<SymInt, RayFail>
    requires { IsRayBasis (vector_size vectors.now leaving) vectors.now zeros.now leaving }
    ensures answer { IsRayAnswer vectors.now zeros.now leaving result }
    ensures meaning { IfOk result (IsRayBeside vectors.now zeros.now leaving) }
{
    let count = vectors.len();
    let n = vectors.at(leaving).len();
    let Ok(columns) = names(alloc, count, zeros, leaving) else {
        return Err(RayFail::OutOfMemory);
    };
    match brought_in(alloc, vectors, &columns, n) {
        Ok(table) => {
            let _width = table.columns();
            let row = row_of(&table, table.rows() + position(&columns, leaving));
            by_row(alloc, &table, row, n)
        }
        Err(fail) => Err(fail),
    }
}
