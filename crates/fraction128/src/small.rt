//! Products and quotients that take 64 bits where the numbers fit.

ghost use Rattle.std.specs.Prelude.{◌≡◌, ◌<◌, ◌^◌, ◌↔◌, pos, ◌≤ℤ◌, ◌*ℤ◌, nat_abs, IsTrue, [], ◌∷◌};
ghost use Rattle.commutative_ring.specs.Gcd.{divided};
ghost use Rattle.symmetric_matrix.specs.Owed.{answer};
ghost use Rattle.symmetric_matrix.specs.Operations.{is_owed, mul_op};

use symmetric_matrix::{IntOp, int_mul};

/// Whether the magnitude is at most 2^63 - 1.
#[inline]
pub fn is_small(value: i128) -> bool
    ensures { IsTrue result ↔ (nat_abs value < 2 ^ 63) }
{
    -(i64::MAX as i128) <= value && value <= i64::MAX as i128
}

/// The product of two small numbers.
#[inline]
pub fn small_product(left: i128, right: i128) -> i128
    requires left { nat_abs left < 2 ^ 63 }
    requires right { nat_abs right < 2 ^ 63 }
    ensures { result ≡ left *ℤ right }
{
    (left as i64 as i128) * (right as i64 as i128)
}

/// The product, or the operation where it does not fit. Of two small numbers it fits, with no test.
#[inline]
pub fn multiply(left: i128, right: i128) -> Result<i128, IntOp>
    ensures { result ≡ answer is_owed (mul_op left right ∷ []) (left *ℤ right) }
{
    if is_small(left) && is_small(right) {
        Ok(small_product(left, right))
    } else {
        int_mul(left, right)
    }
}

/// The quotient, rounded towards zero.
#[inline]
pub fn quotient(value: i128, by: i128) -> i128
    requires { pos 1 ≤ℤ by }
    ensures { result ≡ divided value (nat_abs by) }
{
    if by == 1 {
        value
    } else if is_small(value) && is_small(by) {
        (value as i64 / by as i64) as i128
    } else {
        value / by
    }
}
