//! The tableau that the vectors come into.

ghost use Rattle.std.specs.Prelude.{◌≡◌, ℕ, ◌*◌, ◌<◌, ◌≤◌, ◌^◌, ◌++◌, ◌∷◌, pos, length, nat_abs, IfOk, OnOk};
ghost use Rattle.symmetric_matrix.specs.Lists.{IsVector};
ghost use Rattle.exact_linear.specs.Tables.{places_where, contains as the_contains};
ghost use Rattle.exact_linear.specs.Columns.{start_table};
ghost use Rattle.exact_linear.specs.Squares.{vector_at, named, name_at, square_row, square as the_square, squares};

use exact_linear::{Tableau, contains, square};
use std::alloc::{AllocError, Global};
use symmetric_matrix::{SymInt, VectorList};

// Whether an index names the leaving vector or a zero.
fn is_listed(zeros: &[usize], leaving: usize, name: usize) -> bool
    ensures { result ≡ the_contains (leaving ∷ zeros.now) name }
{
    if leaving == name {
        return true;
    }
    contains(zeros, name)
}

/// The indices below `count` that name the leaving vector or a zero, in increasing order. It is refused for want of memory alone.
pub fn names(
    alloc: Global,
    count: usize,
    zeros: &[usize],
    leaving: usize,
) -> Result<Vec<usize>, AllocError>
    ensures { IfOk result (λ v. v.items ≡ places_where (the_contains (leaving ∷ zeros.now)) 0 count) }
{
    let mut names = Vec::new(alloc);
    for name in 0..count {
        if is_listed(zeros, leaving, name) {
            names.push(name)?;
        }
    }
    Ok(names)
}

// The matrices of the vectors with these indices.
fn columns(alloc: Global, vectors: &VectorList, names: &[usize]) -> Result<Vec<SymInt>, AllocError>
    requires { (i : ℕ) → i < length names.now → name_at names.now i < length vectors.now }
    ensures { IfOk result (λ v. v.items ≡ squares (named vectors.now names.now)) }
{
    let mut columns = Vec::new(alloc);
    for i in 0..names.len() {
        columns.push(square(alloc, vectors.at(names[i]))?)?;
    }
    Ok(columns)
}

/// The tableau over the units whose further columns are the matrices of the vectors with these indices. It is refused for want
/// of memory alone.
pub fn start(
    alloc: Global,
    vectors: &VectorList,
    names: &[usize],
    n: u8,
) -> Result<Tableau, AllocError>
    requires within { (i : ℕ) → i < length names.now → name_at names.now i < length vectors.now }
    requires sizes { (k : ℕ) → k < length vectors.now → length (vector_at vectors.now k) ≡ n }
    requires positive { 1 ≤ n }
    requires small { n ≤ 8 }
    ensures { IfOk result (λ t. t ≡ start_table n (squares (named vectors.now names.now))) }
{
    let columns = columns(alloc, vectors, names)?;
    Tableau::over_units(alloc, n, &columns)
}
