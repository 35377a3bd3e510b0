//! The matrices x·xᵗ of vectors.

ghost use Rattle.std.specs.Prelude.{◌≡◌, ◌*◌, ◌<◌, ◌≤◌, ◌^◌, ◌++◌, pos, length, nat_abs, IfOk, OnOk};
ghost use Rattle.symmetric_matrix.specs.Lists.{IsVector};
ghost use Rattle.exact_linear.specs.Squares.{square_row, square as the_square};

use std::alloc::{AllocError, Global};
use symmetric_matrix::{IntVector, SymInt};

fn product(left: u64, right: u64) -> i128
    requires left { left ≤ 2 ^ 62 }
    requires right { right ≤ 2 ^ 62 }
    ensures value { result ≡ pos (left * right) }
    ensures fits { nat_abs result < 2 ^ 127 }
{
    i128::from(left) * i128::from(right)
}

// Appends row `row` of the lower triangle, counted from 0.
fn push_row(lower: &mut Vec<i128>, x: &[u64], row: usize) -> Result<(), AllocError>
    requires vector { IsVector x.now }
    requires row { row < length x.now }
    ensures { OnOk result (lower.new.items ≡ lower.old.items ++ square_row x.now row) }
{
    for column in 0..row + 1 {
        lower.push(product(x[row], x[column]))?;
    }
    Ok(())
}

/// The matrix x·xᵗ. It is refused for want of memory alone.
pub fn square(alloc: Global, x: &IntVector) -> Result<SymInt, AllocError>
    ensures { IfOk result (λ q. q ≡ the_square x.now) }
{
    let coordinates = x.as_slice();
    let mut lower = Vec::new(alloc);
    for row in 0..coordinates.len() {
        push_row(&mut lower, coordinates, row)?;
    }
    SymInt::from_lower(alloc, x.len(), &lower)
}
