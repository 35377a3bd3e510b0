//! The numbers of the root's cone: the unit vectors, and the matrix's own entries.

ghost use Rattle.std.specs.Prelude.{◌≡◌, ◌≢◌, ◌≤◌, ◌<◌, ◌+◌, ◌^◌, ℕ, pos, nat_abs, length, MatchOption, slice_index_or};
ghost use Rattle.symmetric_matrix.specs.Symmetric.{entry};
ghost use Rattle.unimodular_cone.specs.Cones.{unit_vectors, FitsLimits, IsFirstOverLimit};
ghost use Rattle.unimodular_cone.specs.Mediant.{IsFirstBelow};
ghost use Rattle.unimodular_cone.specs.RootNumbers.{IsLowerOf, IsRowCopied, AreUnitRows};

use crate::mediant::gram_entry;
use crate::place::place_of;
use crate::refusal::WideEntry;
use symmetric_matrix::SymInt;

/// The first entry of a row, up to the diagonal, that is over the limit of Gram entries. Rows and columns count from 0.
fn first_wide_in_row(q: &SymInt, row: u8) -> Option<u8>
    requires { row < q.now.size }
    ensures { IsFirstBelow (row + 1) (λ j. 2 ^ 100 < nat_abs (entry q.now row j)) result }
{
    let _n = q.n();
    for column in 0..row + 1 {
        if q.get(row + 1, column + 1).unsigned_abs() > 1 << 100 {
            return Some(column);
        }
    }
    None
}

/// The first entry of a matrix that is over the limit of Gram entries.
pub fn first_wide_of(q: &SymInt) -> Option<WideEntry>
    ensures { MatchOption result (FitsLimits q.now.size unit_vectors (entry q.now))
        (IsFirstOverLimit q.now.size unit_vectors (entry q.now)) }
{
    for row in 0..q.n() {
        if let Some(column) = first_wide_in_row(q, row) {
            return Some(gram_entry(row, column));
        }
    }
    None
}

/// Copies a row of the matrix, which counts from 0, up to the diagonal.
fn copy_row(q: &SymInt, row: u8, lower: &mut [i128; 36])
    requires { row < q.now.size }
    ensures { IsRowCopied q.now row lower.old lower.new }
{
    let _n = q.n();
    for column in 0..row + 1 {
        lower[place_of(row, column)] = q.get(row + 1, column + 1);
    }
}

/// The lower triangle of a matrix, row by row.
pub fn lower_of(q: &SymInt) -> [i128; 36]
    ensures { IsLowerOf q.now q.now.size result }
{
    let mut lower = [0; 36];
    for row in 0..q.n() {
        copy_row(q, row, &mut lower);
    }
    lower
}

/// The unit vectors.
pub fn unit_rows() -> [[u64; 8]; 8]
    ensures { AreUnitRows 8 result }
{
    let mut rows = [[0; 8]; 8];
    for k in 0..8 {
        rows[k][k] = 1;
    }
    rows
}
