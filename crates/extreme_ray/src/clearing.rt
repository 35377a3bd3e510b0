//! Clearing of denominators.

ghost use Rattle.std.specs.Prelude.{◌≡◌, ◌≤ℤ◌, ◌/◌, pos, nat_abs, length, IfOk};
ghost use Rattle.symmetric_matrix.specs.Owed.{answer};
ghost use Rattle.symmetric_matrix.specs.Operations.{is_owed};
ghost use Rattle.symmetric_matrix.specs.Symmetric.{FitsInt};
ghost use Rattle.extreme_ray.specs.Steps.{LiftedIs, NumeratorIs, DenominatorIs};
ghost use Rattle.extreme_ray.specs.Clearing.{numerators as the_numerators, ray_numerator_ops};

use fraction128::Fraction;
use symmetric_matrix::{IntOp, gcd, int_mul};

/// A coefficient of a matrix, and whether it stands on the diagonal.
#[derive(Clone, Copy, Debug, PartialEq, Eq)]
pub struct Coefficient {
    pub value: Fraction,
    pub diagonal: bool,
}

// A number over another one that is at least 1.
fn part_of(number: i128, by: i128) -> i128
    requires number { pos 0 ≤ℤ number }
    requires by { pos 1 ≤ℤ by }
    ensures { result ≡ pos (nat_abs number / nat_abs by) }
{
    number / by
}

// The least common multiple of a number and the denominator of a coefficient.
fn lifted(number: i128, coefficient: Coefficient) -> Result<i128, IntOp>
    requires positive { pos 1 ≤ℤ number }
    requires narrow { FitsInt number }
    ensures { LiftedIs (nat_abs number) coefficient result }
{
    let den = coefficient.value.den();
    int_mul(number, part_of(den, gcd(number, den)))
}

/// The least common denominator of the coefficients, or the first multiplication that does not fit.
pub fn common_denominator(coefficients: &[Coefficient]) -> Result<i128, IntOp>
    ensures value { DenominatorIs coefficients.now result }
    ensures positive { IfOk result (λ e. pos 1 ≤ℤ e) }
{
    let mut common: i128 = 1;
    for k in 0..coefficients.len() {
        common = lifted(common, coefficients[k])?;
    }
    Ok(common)
}

// The numerator of a coefficient over a common denominator, on the diagonal twice that.
fn numerator(coefficient: Coefficient, common: i128) -> Result<i128, IntOp>
    requires { pos 1 ≤ℤ common }
    ensures { NumeratorIs (nat_abs common) coefficient result }
{
    let factor = part_of(common, coefficient.value.den());
    let over = int_mul(coefficient.value.num(), factor)?;
    if coefficient.diagonal {
        int_mul(over, 2)
    } else {
        Ok(over)
    }
}

/// `into` becomes the numerators of the coefficients over a common denominator.
pub fn numerators(
    coefficients: &[Coefficient],
    common: i128,
    into: &mut [i128],
) -> Result<(), IntOp>
    requires positive { pos 1 ≤ℤ common }
    requires size { length into.old ≡ length coefficients.now }
    ensures refused { result ≡ answer is_owed (ray_numerator_ops (nat_abs common) coefficients.now) tt }
    ensures made { IfOk result (λ _. into.new ≡ the_numerators (nat_abs common) coefficients.now) }
{
    for k in 0..coefficients.len() {
        into[k] = numerator(coefficients[k], common)?;
    }
    Ok(())
}
