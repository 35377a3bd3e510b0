//! The sum of v·vᵗ, made in place.

ghost use Rattle.std.specs.Prelude.{◌≡◌, ℕ, ◌+◌, ◌*◌, ◌≤◌, ◌<◌, pos, length, slice_index_or, IfOk};
ghost use Rattle.exact_forms.specs.Triangles.{triangle};
ghost use Rattle.matrix_sample.specs.Samples.{IsSample, OneSample, sample_sum};

use crate::drawing::next_vector;
use fraction128::Fraction;
use matrix_text::RatMatrix;
use std::alloc::{AllocError, Global};

/// The matrix of a number: the sum of v·vᵗ over `k` vectors of `n` coordinates, which the recurrence draws from `first`
/// on.
///
/// `n` is 1 to 6 and `k` is 1 to 100,000. It is refused for want of memory alone.
pub fn sample_matrix(alloc: Global, n: u8, k: u32, first: u64) -> Result<RatMatrix, AllocError>
    requires first_size { 1 ≤ n }
    requires last_size { n ≤ 6 }
    requires first_count { 1 ≤ k }
    requires last_count { k ≤ 100000 }
    ensures { IfOk result (IsSample n k first) }
{
    let sums = sums_of_products(n, k, first);
    let rows = usize::from(n);
    let mut lower = Vec::new(alloc);
    for sum in &sums[..rows * (rows + 1) / 2] {
        lower.push(Fraction::whole(i128::from(*sum)))?;
    }
    RatMatrix::from_lower(alloc, n, &lower)
}

/// A law, with nothing to compute: a number decides its matrix.
pub fn one_sample_of_a_number()
    ensures { OneSample }
{}

// The lower triangle of the sum of v·vᵗ over the first `k` vectors; no vector is kept.
fn sums_of_products(n: u8, k: u32, first: u64) -> [u32; 21]
    requires size { n ≤ 6 }
    requires count { k ≤ 100000 }
    ensures size { length result ≡ 21 }
    ensures sums { (i j : ℕ) → j ≤ i → i < n
        → pos (slice_index_or result (triangle i + j) 0) ≡ sample_sum n k first i j }
{
    let mut sums = [0; 21];
    let mut number = first;
    for _drawn in 0..k {
        let vector = next_vector(n, &mut number);
        add_products(n, &vector, &mut sums);
    }
    sums
}

// Adds v(i)·v(j) to each entry of a lower triangle of `n` rows.
fn add_products(n: u8, vector: &[u32], sums: &mut [u32])
    requires size { n ≤ 6 }
    requires vector { length vector.now ≡ 6 }
    requires room { length sums.old ≡ 21 }
    requires small { (p : ℕ) → p < n → slice_index_or vector.now p 0 ≤ 2 }
    requires low { (i j : ℕ) → j ≤ i → i < n → slice_index_or sums.old (triangle i + j) 0 ≤ 400000 }
    ensures { (i j : ℕ) → j ≤ i → i < n → slice_index_or sums.new (triangle i + j) 0
        ≡ slice_index_or sums.old (triangle i + j) 0 + slice_index_or vector.now i 0 * slice_index_or vector.now j 0 }
{
    for row in 0..usize::from(n) {
        add_row(row, vector, sums);
    }
}

// Adds v(row)·v(j) to the entries of one row of a lower triangle, up to the diagonal.
fn add_row(row: usize, vector: &[u32], sums: &mut [u32])
    requires row { row < 6 }
    requires vector { length vector.now ≡ 6 }
    requires room { length sums.old ≡ 21 }
    requires small { (p : ℕ) → p ≤ row → slice_index_or vector.now p 0 ≤ 2 }
    requires low { (j : ℕ) → j ≤ row → slice_index_or sums.old (triangle row + j) 0 ≤ 400000 }
    ensures row { (j : ℕ) → j ≤ row → slice_index_or sums.new (triangle row + j) 0
        ≡ slice_index_or sums.old (triangle row + j) 0
        + slice_index_or vector.now row 0 * slice_index_or vector.now j 0 }
    ensures before { (m : ℕ) → m < triangle row → slice_index_or sums.new m 0 ≡ slice_index_or sums.old m 0 }
    ensures after { (m : ℕ) → triangle row + row < m → slice_index_or sums.new m 0 ≡ slice_index_or sums.old m 0 }
{
    let start = row * (row + 1) / 2;
    for column in 0..row + 1 {
        sums[start + column] += vector[row] * vector[column];
    }
}
