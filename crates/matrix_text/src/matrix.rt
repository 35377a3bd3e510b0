//! Symmetric matrices of fractions, by their lower triangle.

ghost use Rattle.std.specs.Prelude.{◌≡◌, ◌+◌, ◌-◌, ◌≤◌, length, IfOk};
ghost use Rattle.exact_forms.specs.Triangles.{triangle};
ghost use Rattle.matrix_text.specs.RationalMatrix.{RationalMatrix, IsRationalMatrix, rational_entry};

use fraction128::Fraction;
use std::alloc::{AllocError, Global};
use std::marker::Model;

/// A symmetric matrix of fractions, of 1 to 8 rows.
///
/// Contracts see the number of its rows and its lower triangle, row by row: the entries at (1,1), (2,1), (2,2), (3,1) and so on.
#[derive(Drop)]
pub struct RatMatrix {
    size: u8,
    lower: Vec<Fraction>,
}

impl Model for RatMatrix {
    ghost Value = { RationalMatrix };

    ghost view = { λ a. record { size = a.size; lower = a.lower.items } };

    ghost invariant = { λ a. IsRationalMatrix (record { size = a.size; lower = a.lower.items }) };
}

impl RatMatrix {
    /// The matrix of `n` rows, 1 to 8, with this lower triangle, of n(n+1)/2 entries. It is refused for want of memory alone.
    pub fn from_lower(alloc: Global, n: u8, lower: &[Fraction]) -> Result<RatMatrix, AllocError>
        requires positive { 1 ≤ n }
        requires small { n ≤ 8 }
        requires triangle { length lower.now ≡ triangle n }
        ensures { IfOk result (λ a. a ≡ record { size = n; lower = lower.now }) }
    {
        Ok(RatMatrix {
            size: n,
            lower: Vec::from_slice(alloc, lower)?,
        })
    }

    /// The same, which keeps the memory of the triangle.
    pub(crate) fn of_triangle(n: u8, lower: Vec<Fraction>) -> RatMatrix
        requires positive { 1 ≤ n }
        requires small { n ≤ 8 }
        requires triangle { length lower.items ≡ triangle n }
        ensures { result ≡ record { size = n; lower = lower.items } }
    {
        RatMatrix { size: n, lower }
    }

    /// The number of rows.
    pub fn n(&self) -> u8
        ensures value { result ≡ self.now.size }
        ensures matrix { IsRationalMatrix self.now }
    {
        self.size
    }

    /// The entry at a row and a column, counted from 1.
    pub fn entry(&self, row: u8, column: u8) -> Fraction
        requires first_row { 1 ≤ row }
        requires last_row { row ≤ self.now.size }
        requires first_column { 1 ≤ column }
        requires last_column { column ≤ self.now.size }
        ensures { result ≡ rational_entry self.now (row - 1) (column - 1) }
    {
        let below = row.max(column);
        let beside = row.min(column);
        self.lower[place_of(below, beside)]
    }

    /// The lower triangle, row by row.
    pub(crate) fn lower(&self) -> &[Fraction]
        ensures value { result.now ≡ self.now.lower }
        ensures matrix { IsRationalMatrix self.now }
        ensures short { length self.now.lower ≤ 36 }
    {
        &self.lower
    }
}

// Where the entry at a row and a column, counted from 1, stands in the lower triangle.
fn place_of(row: u8, column: u8) -> usize
    requires first { 1 ≤ column }
    requires below { column ≤ row }
    requires small { row ≤ 8 }
    ensures { result ≡ triangle (row - 1) + (column - 1) }
{
    let row = usize::from(row);
    row * (row - 1) / 2 + usize::from(column) - 1
}
