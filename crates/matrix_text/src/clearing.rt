//! A matrix of fractions over its least common denominator.

ghost use Rattle.std.specs.Prelude.{◌≡◌, ◌≤◌, ◌<◌, ◌≤ℤ◌, ◌*ℤ◌, ◌+◌, ◌/◌, ℕ, pos, nat_abs, length, slice_index_or, true, false, IfOk, IfErr, Ok, if◌then◌else◌, ◌==◌};
ghost use Rattle.commutative_ring.specs.Gcd.{gcd_of};
ghost use Rattle.symmetric_matrix.specs.Owed.{answer};
ghost use Rattle.symmetric_matrix.specs.Operations.{is_owed, mul_op};
ghost use Rattle.symmetric_matrix.specs.Symmetric.{FitsInt};
ghost use Rattle.matrix_text.specs.Clearing.{is_placed_owed, placed_entries, least_denominator, denominator_ops, numerator_ops, numerators_over, clear_ops, cleared_of, IsCleared};
ghost use Rattle.matrix_text.specs.Refusals.{RefusedAs};
ghost use Rattle.matrix_text.specs.declared.clearing.ClearFail.TheVariants.{Wide, OutOfMemory};

use crate::matrix::RatMatrix;
use fraction128::Fraction;
use std::alloc::{AllocError, AllocFailed, Global};
use symmetric_matrix::{IntOp, SymInt, gcd, int_mul};

/// Why a matrix is not cleared: an operation, at the entry in this row and column, counted from 1, whose result's
/// magnitude is over 2^127 - 1; or want of memory.
#[derive(Clone, Copy, Debug, PartialEq, Eq)]
pub enum ClearFail {
    Wide { row: u8, column: u8, op: IntOp },
    OutOfMemory,
}

impl From<AllocError> for ClearFail {
    ghost from_gives = { λ _ e. e ≡ OutOfMemory };

    fn from(_e: AllocError) -> ClearFail {
        ClearFail::OutOfMemory
    }
}

impl<T: Drop> From<AllocFailed<T>> for ClearFail {
    ghost from_gives = { λ _ e. e ≡ OutOfMemory };

    fn from(_e: AllocFailed<T>) -> ClearFail {
        ClearFail::OutOfMemory
    }
}

/// A place in the lower triangle, counted from 1.
#[derive(Clone, Copy)]
struct Place {
    row: u8,
    column: u8,
}

const FIRST: Place = Place { row: 1, column: 1 };

impl Place {
    /// The place that follows in the order (1,1), (2,1), (2,2), (3,1) and so on.
    fn next(self) -> Place
        requires row { self.row ≤ 100 }
        requires column { self.column ≤ self.row }
        ensures { result
            ≡ (if self.column == self.row then record {
              row = self.row + 1;
              column = 1;
            } else record { row = self.row; column = self.column + 1 }) }
    {
        if self.column == self.row {
            Place {
                row: self.row + 1,
                column: 1,
            }
        } else {
            Place {
                row: self.row,
                column: self.column + 1,
            }
        }
    }
}

/// A number over another one that is at least 1.
fn part_of(number: i128, by: i128) -> i128
    requires number { pos 0 ≤ℤ number }
    requires by { pos 1 ≤ℤ by }
    ensures { result ≡ pos (nat_abs number / nat_abs by) }
{
    number / by
}

/// The product at a place, or its refusal where it does not fit.
fn multiply_at(place: Place, left: i128, right: i128) -> Result<i128, ClearFail>
    ensures ok { IfOk result (λ product. (is_owed (mul_op left right) ≡ false) × (product ≡ left *ℤ right)) }
    ensures wide { IfErr result (λ fail. (is_owed (mul_op left right) ≡ true)
        × (fail ≡ Wide place.row place.column (mul_op left right))) }
{
    match int_mul(left, right) {
        Ok(product) => Ok(product),
        Err(op) => Err(ClearFail::Wide {
            row: place.row,
            column: place.column,
            op,
        }),
    }
}

/// The least common multiple of a number and the denominator of the entry at a place.
fn multiple_at(place: Place, number: i128, entry: Fraction) -> Result<i128, ClearFail>
    requires positive { pos 1 ≤ℤ number }
    requires fits { FitsInt number }
    ensures ok { IfOk result (λ product. let factor = pos (entry.den / gcd_of (nat_abs number) entry.den) in
        (is_owed (mul_op number factor) ≡ false) × (product ≡ number *ℤ factor)) }
    ensures wide { IfErr result (λ fail. let op = mul_op number (pos (entry.den / gcd_of (nat_abs number) entry.den)) in
        (is_owed op ≡ true) × (fail ≡ Wide place.row place.column op)) }
{
    let factor = part_of(entry.den(), gcd(number, entry.den()));
    multiply_at(place, number, factor)
}

/// The numerator over a common denominator of the entry at a place.
fn numerator_at(place: Place, denominator: i128, entry: Fraction) -> Result<i128, ClearFail>
    requires { pos 1 ≤ℤ denominator }
    ensures ok { IfOk result (λ product. let factor = pos (nat_abs denominator / entry.den) in
        (is_owed (mul_op entry.num factor) ≡ false) × (product ≡ entry.num *ℤ factor)) }
    ensures wide { IfErr result (λ fail. let op = mul_op entry.num (pos (nat_abs denominator / entry.den)) in
        (is_owed op ≡ true) × (fail ≡ Wide place.row place.column op)) }
{
    let factor = part_of(denominator, entry.den());
    multiply_at(place, entry.num(), factor)
}

/// The least common denominator of the entries.
fn common_denominator(a: &RatMatrix) -> Result<i128, ClearFail>
    ensures ok { IfOk result
        (λ d. answer is_placed_owed (denominator_ops 1 (placed_entries a.now)) (pos (least_denominator a.now))
        ≡ Ok d) }
    ensures positive { IfOk result (λ d. pos 1 ≤ℤ d) }
    ensures wide { IfErr result
        (λ fail. RefusedAs
        (answer is_placed_owed (denominator_ops 1 (placed_entries a.now)) (pos (least_denominator a.now))) fail) }
{
    let mut place = FIRST;
    let mut common: i128 = 1;
    for entry in a.lower() {
        common = multiple_at(place, common, *entry)?;
        place = place.next();
    }
    Ok(common)
}

/// The numerators over a common denominator.
fn numerators(alloc: Global, a: &RatMatrix, denominator: i128) -> Result<Vec<i128>, ClearFail>
    requires { pos 1 ≤ℤ denominator }
    ensures ok { IfOk result
        (λ lower. answer is_placed_owed (numerator_ops (nat_abs denominator) (placed_entries a.now))
        (numerators_over (nat_abs denominator) a.now.lower) ≡ Ok lower.items) }
    ensures fits { IfOk result (λ lower. (k : ℕ) → k < length lower.items
        → FitsInt (slice_index_or lower.items k (pos 0))) }
    ensures wide { IfErr result
        (λ fail. RefusedAs
        (answer is_placed_owed (numerator_ops (nat_abs denominator) (placed_entries a.now))
        (numerators_over (nat_abs denominator) a.now.lower)) fail) }
{
    let mut place = FIRST;
    let mut lower = Vec::new(alloc);
    for entry in a.lower() {
        lower.push(numerator_at(place, denominator, *entry)?)?;
        place = place.next();
    }
    Ok(lower)
}

/// The whole matrix S and the least common denominator d with A = S/d, or the first operation that does not fit.
///
/// First d is made: from 1, for each entry in the order (1,1), (2,1), (2,2), (3,1) and so on, it is multiplied by the
/// entry's denominator over their greatest common divisor. Then each numerator is multiplied by d over its denominator,
/// in the same order.
pub fn cleared(alloc: Global, a: &RatMatrix) -> Result<(SymInt, i128), ClearFail>
    ensures ok { IfOk result (λ r. answer is_placed_owed (clear_ops a.now) (cleared_of a.now) ≡ Ok r) }
    ensures cleared { IfOk result (λ r. IsCleared a.now r.0 (nat_abs r.1)) }
    ensures wide { IfErr result (λ fail. RefusedAs (answer is_placed_owed (clear_ops a.now) (cleared_of a.now)) fail) }
{
    let denominator = common_denominator(a)?;
    let lower = numerators(alloc, a, denominator)?;
    let whole = SymInt::from_lower(alloc, a.n(), &lower)?;
    Ok((whole, denominator))
}
