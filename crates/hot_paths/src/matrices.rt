//! Matrices of six rows.

ghost use Rattle.std.specs.Prelude.{◌≡◌, ◌+◌, length, All, IfOk, OnOk};
ghost use Rattle.symmetric_matrix.specs.Symmetric.{FitsInt};

use crate::draws::Draws;
use std::alloc::{AllocError, Global};
use symmetric_matrix::SymInt;

/// The matrix whose rows begin with those of a table, up to the diagonal. It is refused for want of memory alone.
pub fn matrix(alloc: Global, table: &[[i64; 6]; 6]) -> Result<SymInt, AllocError>
    ensures { IfOk result (λ q. q.size ≡ 6) }
{
    let mut lower = Vec::new(alloc);
    for (index, row) in table.iter().enumerate() {
        push_entries(&mut lower, &row[..index + 1])?;
    }
    SymInt::from_lower(alloc, 6, &lower)
}

fn push_entries(lower: &mut Vec<i128>, entries: &[i64]) -> Result<(), AllocError>
    requires { All FitsInt lower.old.items }
    ensures count { OnOk result (length lower.new.items ≡ length lower.old.items + length entries.now) }
    ensures fits { OnOk result (All FitsInt lower.new.items) }
{
    for entry in entries {
        lower.push(i128::from(*entry))?;
    }
    Ok(())
}

/// The matrices x·xᵗ of `count` vectors x of six coordinates 0, 1 and 2, which are the same in each run. It is refused for want
/// of memory alone.
pub fn squares(alloc: Global, count: usize) -> Result<Vec<SymInt>, AllocError>
    ensures count { IfOk result (λ v. length v.items ≡ count) }
    ensures sizes { IfOk result (λ v. All (λ q. q.size ≡ 6) v.items) }
{
    let mut draws = Draws::new();
    let mut squares = Vec::with_capacity(alloc, count)?;
    for _ in 0..count {
        let x = vector(&mut draws);
        squares.push(matrix(alloc, &square(x))?)?;
    }
    Ok(squares)
}

fn vector(draws: &mut Draws) -> [u8; 6] {
    let mut x = [0; 6];
    for coordinate in x.iter_mut() {
        *coordinate = draws.below(3) as u8;
    }
    x
}

// The table of x·xᵗ.
fn square(x: [u8; 6]) -> [[i64; 6]; 6] {
    x.map(|left| x.map(|right| i64::from(left) * i64::from(right)))
}
