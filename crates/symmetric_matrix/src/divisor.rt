//! Greatest common divisors.

ghost use Rattle.std.specs.Prelude.{◌≡◌, ℕ, ◌<◌, ◌^◌, ◌%◌, pos, nat_abs, length, slice_index_or};
ghost use Rattle.std.specs.Int.{IsGcd};
ghost use Rattle.commutative_ring.specs.Gcd.{gcd_of};
ghost use Rattle.symmetric_matrix.specs.Divisors.{divisor_from};
ghost use Rattle.symmetric_matrix.specs.Symmetric.{FitsInt};

/// The greatest common divisor, which is at least 0. That of 0 and 0 is 0.
pub fn gcd(left: i128, right: i128) -> i128
    requires left { FitsInt left }
    requires right { FitsInt right }
    ensures value { result ≡ pos (gcd_of (nat_abs left) (nat_abs right)) }
    ensures greatest { IsGcd (nat_abs left) (nat_abs right) (nat_abs result) }
    ensures fits { FitsInt result }
{
    gcd_wide(left.unsigned_abs(), right.unsigned_abs()) as i128
}

// The greatest common divisor of the entries of a lower triangle.
pub(crate) fn divisor_of(lower: &[i128]) -> u128
    requires { (k : ℕ) → k < length lower.now → FitsInt (slice_index_or lower.now k (pos 0)) }
    ensures value { result ≡ divisor_from 0 lower.now }
    ensures fits { result < 2 ^ 127 }
{
    let mut divisor: u128 = 0;
    for entry in lower {
        divisor = gcd_wide(divisor, entry.unsigned_abs());
    }
    divisor
}

// Euclid's algorithm, in 64 bits as soon as both numbers fit: a division of 128 bits takes many times as long.
fn gcd_wide(left: u128, right: u128) -> u128
    ensures { result ≡ gcd_of left right }
{
    let mut a = left;
    let mut b = right;
    while a > LARGEST_NARROW || b > LARGEST_NARROW {
        if b == 0 {
            return a;
        }
        let rest = a % b;
        a = b;
        b = rest;
    }
    u128::from(gcd_narrow(a as u64, b as u64))
}

const LARGEST_NARROW: u128 = 18446744073709551615;

fn gcd_narrow(left: u64, right: u64) -> u64
    ensures { result ≡ gcd_of left right }
{
    if left == 0 {
        return right;
    }
    if right == 0 {
        return left;
    }
    let twos = left.trailing_zeros();
    let more = right.trailing_zeros();
    gcd_of_odd(left >> twos, right >> more) << twos.min(more)
}

// The binary algorithm, which takes half the time of Euclid's: the difference of two odd numbers is even, and its
// factors 2 are no common ones.
fn gcd_of_odd(left: u64, right: u64) -> u64
    requires left { left % 2 ≡ 1 }
    requires right { right % 2 ≡ 1 }
    ensures { result ≡ gcd_of left right }
{
    let mut a = left;
    let mut b = right;
    while a != b {
        let gap = a.abs_diff(b);
        b = a.min(b);
        a = gap >> gap.trailing_zeros();
    }
    a
}
