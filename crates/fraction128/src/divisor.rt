//! Common divisors with denominators.

ghost use Rattle.std.specs.Prelude.{◌≡◌, pos, nat_abs};
ghost use Rattle.commutative_ring.specs.Gcd.{gcd_of};
ghost use Rattle.symmetric_matrix.specs.Symmetric.{FitsInt};

use symmetric_matrix::gcd;

/// The greatest common divisor of a number and a denominator, which is often 1.
pub fn common_divisor(value: i128, den: i128) -> i128
    requires value { FitsInt value }
    requires den { FitsInt den }
    ensures { result ≡ pos (gcd_of (nat_abs value) (nat_abs den)) }
{
    if den == 1 {
        return 1;
    }
    if value == 1 {
        return 1;
    }
    gcd(value, den)
}
