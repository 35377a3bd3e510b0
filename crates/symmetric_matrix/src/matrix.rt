//! Symmetric matrices of whole numbers, by their lower triangle.

ghost use Rattle.std.specs.Prelude.{◌≡◌, ◌≢◌, ◌+◌, ◌-◌, ◌≤◌, pos, nat_abs, length, IfOk};
ghost use Rattle.exact_forms.specs.Forms.{form, inner};
ghost use Rattle.exact_forms.specs.Vectors.{coordinate};
ghost use Rattle.exact_forms.specs.Triangles.{triangle};
ghost use Rattle.symmetric_matrix.specs.Symmetric.{Symmetric, FitsInt, IsLower, IsSymmetricMatrix, entry};
ghost use Rattle.symmetric_matrix.specs.Owed.{answer};
ghost use Rattle.symmetric_matrix.specs.Operations.{is_owed};
ghost use Rattle.symmetric_matrix.specs.Recipes.{form_ops, inner_ops};
ghost use Rattle.symmetric_matrix.specs.Divisors.{divisor_from, IsGreatestDivisor};
ghost use Rattle.symmetric_matrix.specs.Combining.{primitive_of, IsTimes, IsCombineAnswer};

use crate::combining::{Fail, combine_lower, divide_lower};
use crate::divisor::divisor_of;
use crate::forms::{form_of, inner_of};
use crate::{IntOp, IntVector};
use std::alloc::{AllocError, Global};
use std::marker::Model;

/// A symmetric matrix of 1 to 8 rows, each entry of magnitude at most 2^127 - 1.
///
/// Contracts see the number of its rows and its lower triangle, row by row: the entries at (1,1), (2,1), (2,2), (3,1) and so on.
#[derive(Drop)]
pub struct SymInt {
    size: u8,
    lower: Vec<i128>,
}

impl Model for SymInt {
    ghost Value = { Symmetric };

    ghost view = { λ q. record { size = q.size; lower = q.lower.items } };

    ghost invariant = { λ q. IsSymmetricMatrix (record { size = q.size; lower = q.lower.items }) };
}

impl SymInt {
    /// The matrix of `n` rows with this lower triangle, of n(n+1)/2 entries. It is refused for want of memory alone.
    pub fn from_lower(alloc: Global, n: u8, lower: &[i128]) -> Result<SymInt, AllocError>
        requires positive { 1 ≤ n }
        requires small { n ≤ 8 }
        requires lower { IsLower n lower.now }
        ensures { IfOk result (λ q. q ≡ record { size = n; lower = lower.now }) }
    {
        Ok(SymInt {
            size: n,
            lower: Vec::from_slice(alloc, lower)?,
        })
    }

    /// The number of rows.
    pub fn n(&self) -> u8
        ensures value { result ≡ self.now.size }
        ensures matrix { IsSymmetricMatrix self.now }
    {
        self.size
    }

    /// The entry at a row and a column, counted from 1.
    pub fn get(&self, row: u8, column: u8) -> i128
        requires first_row { 1 ≤ row }
        requires last_row { row ≤ self.now.size }
        requires first_column { 1 ≤ column }
        requires last_column { column ≤ self.now.size }
        ensures value { result ≡ entry self.now (row - 1) (column - 1) }
        ensures fits { FitsInt result }
    {
        let below = row.max(column);
        let beside = row.min(column);
        self.lower[place_of(below, beside)]
    }
}

impl SymInt {
    /// The same matrix again. It is refused for want of memory alone.
    pub fn copy(&self) -> Result<SymInt, AllocError>
        ensures { IfOk result (λ q. q ≡ self.now) }
    {
        SymInt::from_lower(*self.lower.allocator(), self.size, self.lower.as_slice())
    }

    /// Q[x] for a vector of as many coordinates as the matrix has rows, or the first operation that does not fit.
    ///
    /// To a sum from 0 it adds, entry by entry of the lower triangle, Q_ij times x_i·x_j, which is doubled beside the diagonal.
    pub fn form(&self, x: &IntVector) -> Result<i128, IntOp>
        requires { length x.now ≡ self.now.size }
        ensures value { result
            ≡ answer is_owed (form_ops self.now x.now) (form self.now.size (entry self.now) (coordinate x.now)) }
        ensures fits { IfOk result FitsInt }
    {
        form_of(self.lower.as_slice(), x.as_slice())
    }

    /// ⟨Q,S⟩, the sum of Q_ij·S_ij over all rows and columns of two matrices of one size, or the first operation that does not fit.
    ///
    /// To a sum from 0 it adds, entry by entry of the lower triangle, Q_ij times m·S_ij, where m is 1 on the diagonal and else 2.
    pub fn inner(&self, other: &SymInt) -> Result<i128, IntOp>
        requires { self.now.size ≡ other.now.size }
        ensures value { result
            ≡ answer is_owed (inner_ops self.now other.now)
            (inner self.now.size (entry self.now) (entry other.now)) }
        ensures fits { IfOk result FitsInt }
    {
        inner_of(self.size, self.lower.as_slice(), other.lower.as_slice())
    }

    /// The greatest common divisor of the entries, which is 0 for the zero matrix alone.
    pub fn gcd_of_entries(&self) -> i128
        ensures value { result ≡ pos (divisor_from 0 self.now.lower) }
        ensures greatest { IsGreatestDivisor (nat_abs result) self.now.lower }
        ensures fits { FitsInt result }
    {
        divisor_of(self.lower.as_slice()) as i128
    }

    /// Each entry divided by the greatest common divisor of the entries, of which one is not 0: the primitive form.
    ///
    /// It is refused for want of memory alone.
    pub fn primitive(&self) -> Result<SymInt, AllocError>
        requires { divisor_from 0 self.now.lower ≢ 0 }
        ensures value { IfOk result (λ q. q ≡ primitive_of self.now) }
        ensures times { IfOk result (λ q. IsTimes (divisor_from 0 self.now.lower) q self.now) }
        ensures lowest { IfOk result (λ q. divisor_from 0 q.lower ≡ 1) }
    {
        Ok(SymInt {
            size: self.size,
            lower: divide_lower(
                *self.lower.allocator(),
                self.lower.as_slice(),
                self.gcd_of_entries(),
            )?,
        })
    }
}

/// q·P + p·R for two matrices of one size, or the first operation that does not fit.
///
/// Entry by entry of the lower triangle it makes q·P_ij, then p·R_ij, then their sum.
pub fn combine(
    alloc: Global,
    q: i128,
    p_matrix: &SymInt,
    p: i128,
    r_matrix: &SymInt,
) -> Result<SymInt, Fail>
    requires { p_matrix.now.size ≡ r_matrix.now.size }
    ensures { IsCombineAnswer q p_matrix.now p r_matrix.now result }
{
    Ok(SymInt {
        size: p_matrix.size,
        lower: combine_lower(
            alloc,
            p_matrix.size,
            q,
            p_matrix.lower.as_slice(),
            p,
            r_matrix.lower.as_slice(),
        )?,
    })
}

// Where the entry at a row and a column, counted from 1, stands in the lower triangle.
fn place_of(row: u8, column: u8) -> usize
    requires first { 1 ≤ column }
    requires below { column ≤ row }
    requires small { row ≤ 8 }
    ensures { result ≡ triangle (row - 1) + (column - 1) }
{
    let row = usize::from(row);
    row * (row - 1) / 2 + usize::from(column) - 1
}
