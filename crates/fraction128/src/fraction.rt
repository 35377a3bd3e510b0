//! A fraction and its arithmetic.

ghost use Rattle.std.specs.Prelude.{◌≡◌, ◌≢◌, ◌↔◌, pos, ◌≤ℤ◌, ◌+ℤ◌, ◌*ℤ◌, nat_abs, IsTrue};
ghost use Rattle.std.specs.Ordering.{MatchOrdering};
ghost use Rattle.exact_forms.specs.Rational.{Rational, ratio, whole, inverse, neg_ℚ, ◌+ℚ◌, ◌-ℚ◌, ◌*ℚ◌, ◌/ℚ◌, ◌<ℚ◌};
ghost use Rattle.exact_forms.specs.Lowest.{IsLowest};
ghost use Rattle.exact_forms.proofs.Lowest.{lowest_parts};
ghost use Rattle.symmetric_matrix.specs.Owed.{answer};
ghost use Rattle.symmetric_matrix.specs.Operations.{is_owed};
ghost use Rattle.symmetric_matrix.specs.Symmetric.{FitsInt};
ghost use Rattle.fraction128.specs.Recipes.{mul_ops, div_ops, cross_sum_ops, add_ops, sub_ops};
ghost use Rattle.fraction128.specs.Order.{order_of};

use crate::divisor::common_divisor;
use crate::order::order_of_ratios;
use crate::small::{multiply, quotient};
use std::cmp::Ordering;
use std::marker::Model;
use symmetric_matrix::{IntOp, int_add};

/// A fraction in lowest terms: the denominator is at least 1, and zero is 0/1.
///
/// A number fits if its magnitude is at most 2^127 - 1; the numerator and the denominator fit. Contracts see
/// the rational number. The arithmetic is exact, or answers the first operation of its recipe that does not
/// fit, with its operands in the order written. It takes no memory.
#[derive(Clone, Copy, Debug, PartialEq, Eq)]
pub struct Fraction {
    num: i128,
    den: i128,
}

impl Model for Fraction {
    ghost Value = { Rational };

    ghost view = { λ f. ratio f.num (nat_abs f.den) };

    ghost invariant = { λ f. IsLowest f.num f.den };

    ghost inverse = { λ r. record { num = r.num; den = pos r.den } };

    ghost inverse_ok = { λ f h. λ i. record {
      num = (lowest_parts f.num f.den h).0 i;
      den = (lowest_parts f.num f.den h).1 i;
    } };
}

impl Fraction {
    /// The fraction `num / den`, where `num` fits and `den` is at least 1.
    pub fn new(num: i128, den: i128) -> Fraction
        requires fits { FitsInt num }
        requires positive { pos 1 ≤ℤ den }
        ensures { result ≡ ratio num (nat_abs den) }
    {
        let divisor = common_divisor(num, den);
        Fraction {
            num: quotient(num, divisor),
            den: quotient(den, divisor),
        }
    }

    /// The whole number `num`, which fits.
    pub fn whole(num: i128) -> Fraction
        requires { FitsInt num }
        ensures { result ≡ whole num }
    {
        Fraction { num, den: 1 }
    }

    /// The numerator in lowest terms.
    pub fn num(&self) -> i128
        ensures value { result ≡ self.now.num }
        ensures fits { FitsInt result }
    {
        self.num
    }

    /// The denominator in lowest terms, at least 1.
    pub fn den(&self) -> i128
        ensures value { result ≡ pos self.now.den }
        ensures fits { FitsInt result }
    {
        self.den
    }

    /// The opposite number.
    pub fn neg(self) -> Fraction
        ensures { result ≡ neg_ℚ self }
    {
        Fraction {
            num: -self.num,
            den: self.den,
        }
    }

    /// Whether the fraction is 0.
    pub fn is_zero(&self) -> bool
        ensures { IsTrue result ↔ (self.now ≡ whole (pos 0)) }
    {
        self.num == 0
    }

    /// Whether the fraction is less than, equal to or greater than the other.
    pub fn cmp(&self, other: &Fraction) -> Ordering
        ensures order { result ≡ order_of self.now other.now }
        ensures ranks { MatchOrdering result (self.now <ℚ other.now) (self.now ≡ other.now) (other.now <ℚ self.now) }
    {
        order_of_ratios(self.num, self.den, other.num, other.den)
    }

    /// The sum a/b + c/d, or the first operation of its recipe that does not fit.
    ///
    /// With g = gcd(b, d) these are u = a·(d/g), v = c·(b/g), t = u + v, and with h = gcd(t, g) the denominator
    /// (b/g)·(d/h). The numerator is t/h.
    pub fn add(self, other: Fraction) -> Result<Fraction, IntOp>
        ensures { result ≡ answer is_owed (add_ops self other) (self +ℚ other) }
    {
        if self.den == other.den {
            return self.add_over_same(other);
        }
        let shared = common_divisor(self.den, other.den);
        let own = quotient(self.den, shared);
        let sum = sum_of_products(self.num, quotient(other.den, shared), other.num, own)?;
        let divisor = common_divisor(sum, shared);
        let den = multiply(own, quotient(other.den, divisor))?;
        Ok(Fraction {
            num: quotient(sum, divisor),
            den,
        })
    }

    // Of the recipe only the sum of the numerators is left: the factors that the products would have are 1.
    fn add_over_same(self, other: Fraction) -> Result<Fraction, IntOp>
        requires { self.den ≡ other.den }
        ensures { result ≡ answer is_owed (add_ops self other) (self +ℚ other) }
    {
        let sum = int_add(self.num, other.num)?;
        Ok(Fraction::new(sum, self.den))
    }

    /// The difference, or the first operation that does not fit: those of the sum with the opposite of `other`.
    pub fn sub(self, other: Fraction) -> Result<Fraction, IntOp>
        ensures { result ≡ answer is_owed (sub_ops self other) (self -ℚ other) }
    {
        self.add(other.neg())
    }

    /// The product of a/b and c/d, or the first operation of its recipe that does not fit.
    ///
    /// With g = gcd(a, d) and h = gcd(c, b) these are the numerator (a/g)·(c/h) and the denominator (b/h)·(d/g).
    pub fn mul(self, other: Fraction) -> Result<Fraction, IntOp>
        ensures { result ≡ answer is_owed (mul_ops self other) (self *ℚ other) }
    {
        let left = common_divisor(self.num, other.den);
        let right = common_divisor(other.num, self.den);
        let num = multiply(quotient(self.num, left), quotient(other.num, right))?;
        let den = multiply(quotient(self.den, right), quotient(other.den, left))?;
        Ok(Fraction { num, den })
    }

    /// The quotient, or the first operation that does not fit: those of the product with `other` turned over, its
    /// sign moved to the numerator. `other` is not zero.
    pub fn div(self, other: Fraction) -> Result<Fraction, IntOp>
        requires { other ≢ whole (pos 0) }
        ensures { result ≡ answer is_owed (div_ops self other) (self /ℚ other) }
    {
        self.mul(other.inverted())
    }

    // Turned over, the sign moved to the numerator.
    fn inverted(self) -> Fraction
        requires { self ≢ whole (pos 0) }
        ensures { result ≡ inverse self.num self.den }
    {
        if self.num < 0 {
            Fraction {
                num: -self.den,
                den: -self.num,
            }
        } else {
            Fraction {
                num: self.den,
                den: self.num,
            }
        }
    }
}

// a·x + b·y
fn sum_of_products(a: i128, x: i128, b: i128, y: i128) -> Result<i128, IntOp>
    ensures { result ≡ answer is_owed (cross_sum_ops a x b y) (a *ℤ x +ℤ b *ℤ y) }
{
    let left = multiply(a, x)?;
    let right = multiply(b, y)?;
    int_add(left, right)
}

#[cfg(test)]
mod tests;
