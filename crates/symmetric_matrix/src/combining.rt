//! Sums of multiples of two lower triangles, and a lower triangle over a common divisor.

ghost use Rattle.std.specs.Prelude.{◌≡◌, [], ◌∷◌, pos, ◌+ℤ◌, ◌*ℤ◌, ◌≤ℤ◌, nat_abs, map, IfOk, IfErr};
ghost use Rattle.commutative_ring.specs.Gcd.{divided};
ghost use Rattle.symmetric_matrix.specs.declared.combining.Fail.TheVariants.{OutOfMemory};
ghost use Rattle.symmetric_matrix.specs.Combining.{AreCombined, IsCombineRefused};
ghost use Rattle.symmetric_matrix.specs.Owed.{answer};
ghost use Rattle.symmetric_matrix.specs.Operations.{is_owed, mul_op, add_op};
ghost use Rattle.symmetric_matrix.specs.Symmetric.{IsLower};

use crate::operation::{IntOp, int_add, int_mul};
use std::alloc::{AllocError, AllocFailed, Global};

/// Why a combination of two matrices is not made: the first operation that does not fit, or want of memory.
#[derive(Clone, Copy, Debug, PartialEq, Eq)]
pub enum Fail {
    Wide(IntOp),
    OutOfMemory,
}

impl From<AllocError> for Fail {
    ghost from_gives = { λ _ e. e ≡ OutOfMemory };

    fn from(_e: AllocError) -> Fail {
        Fail::OutOfMemory
    }
}

impl<T: Drop> From<AllocFailed<T>> for Fail {
    ghost from_gives = { λ _ e. e ≡ OutOfMemory };

    fn from(_e: AllocFailed<T>) -> Fail {
        Fail::OutOfMemory
    }
}

// q·P + p·R for the lower triangles of two matrices of `n` rows.
pub(crate) fn combine_lower(
    alloc: Global,
    n: u8,
    q: i128,
    lower: &[i128],
    p: i128,
    other: &[i128],
) -> Result<Vec<i128>, Fail>
    requires lower { IsLower n lower.now }
    requires other { IsLower n other.now }
    ensures ok { IfOk result
        (λ sums. AreCombined q (record { size = n; lower = lower.now }) p (record { size = n; lower = other.now })
        sums.items) }
    ensures refused { IfErr result
        (λ fail. IsCombineRefused q (record { size = n; lower = lower.now }) p
        (record { size = n; lower = other.now }) fail) }
{
    let mut sums = Vec::with_capacity(alloc, lower.len())?;
    for k in 0..lower.len() {
        match combine_entry(q, lower[k], p, other[k]) {
            Ok(sum) => sums.push(sum)?,
            Err(op) => return Err(Fail::Wide(op)),
        }
    }
    Ok(sums)
}

// q·left + p·right
fn combine_entry(q: i128, left: i128, p: i128, right: i128) -> Result<i128, IntOp>
    ensures { result
        ≡ answer is_owed (mul_op q left ∷ mul_op p right ∷ add_op (q *ℤ left) (p *ℤ right) ∷ [])
        (q *ℤ left +ℤ p *ℤ right) }
{
    let first = int_mul(q, left)?;
    let second = int_mul(p, right)?;
    int_add(first, second)
}

// Each entry over a divisor that is at least 1, rounded towards zero.
pub(crate) fn divide_lower(
    alloc: Global,
    lower: &[i128],
    divisor: i128,
) -> Result<Vec<i128>, AllocError>
    requires positive { pos 1 ≤ℤ divisor }
    ensures value { IfOk result (λ parts. parts.items ≡ map (λ z. divided z (nat_abs divisor)) lower.now) }
{
    let mut parts = Vec::with_capacity(alloc, lower.len())?;
    for entry in lower {
        parts.push(quotient(*entry, divisor))?;
    }
    Ok(parts)
}

// The quotient, rounded towards zero.
fn quotient(value: i128, by: i128) -> i128
    requires { pos 1 ≤ℤ by }
    ensures { result ≡ divided value (nat_abs by) }
{
    value / by
}
