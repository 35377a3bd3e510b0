//! Numbers of the root's cone and of a cone of any Gram entries, where they are narrow.

ghost use Rattle.std.specs.Prelude.{◌≡◌, ◌≤◌, ◌<◌, ◌^◌, ◌↔◌, ℕ, IsTrue, IfSome, nat_abs};
ghost use Rattle.exact_forms.specs.Triangles.{triangle};
ghost use Rattle.symmetric_matrix.specs.Symmetric.{entry};
ghost use Rattle.unimodular_cone.specs.Narrow.{IsNarrowMatrix, IsNarrowCopy};
ghost use Rattle.unimodular_cone.specs.RootNumbers.{IsLowerOf, IsRowCopied};

use crate::place::place_of;
use symmetric_matrix::SymInt;

/// Whether a row, which counts from 0, is narrow up to the diagonal.
fn is_row_narrow(q: &SymInt, row: u8) -> bool
    requires { row < q.now.size }
    ensures { IsTrue result ↔ ((j : ℕ) → j ≤ row → nat_abs (entry q.now row j) ≤ 2 ^ 59) }
{
    let _n = q.n();
    for column in 0..row + 1 {
        if q.get(row + 1, column + 1).unsigned_abs() > 1 << 59 {
            return false;
        }
    }
    true
}

/// Whether every entry of a matrix is narrow.
pub fn is_narrow(q: &SymInt) -> bool
    ensures { IsTrue result ↔ IsNarrowMatrix q.now }
{
    for row in 0..q.n() {
        if !is_row_narrow(q, row) {
            return false;
        }
    }
    true
}

/// Copies a row of a narrow matrix, which counts from 0, up to the diagonal.
fn copy_row(q: &SymInt, row: u8, lower: &mut [i64; 36])
    requires row { row < q.now.size }
    requires narrow { IsNarrowMatrix q.now }
    ensures { IsRowCopied q.now row lower.old lower.new }
{
    let _n = q.n();
    for column in 0..row + 1 {
        lower[place_of(row, column)] = q.get(row + 1, column + 1) as i64;
    }
}

/// The lower triangle of a narrow matrix, row by row.
pub fn narrow_lower_of(q: &SymInt) -> [i64; 36]
    requires { IsNarrowMatrix q.now }
    ensures { IsLowerOf q.now q.now.size result }
{
    let mut lower = [0; 36];
    for row in 0..q.n() {
        copy_row(q, row, &mut lower);
    }
    lower
}

/// How many entries a lower triangle of n rows has.
pub fn entries_of(n: u8) -> usize
    requires { n ≤ 8 }
    ensures { result ≡ triangle n }
{
    usize::from(n) * (usize::from(n) + 1) / 2
}

/// The first entries in 64 bits, with zeros behind them. None where one of them is not narrow.
pub fn narrow_copies(from: &[i128; 36], count: usize) -> Option<[i64; 36]>
    requires { count ≤ 36 }
    ensures { IfSome result (IsNarrowCopy count from.now) }
{
    let mut into = [0; 36];
    for k in 0..count {
        if from[k].unsigned_abs() > 1 << 59 {
            return None;
        }
        into[k] = from[k] as i64;
    }
    Some(into)
}
