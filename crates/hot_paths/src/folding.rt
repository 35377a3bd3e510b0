//! Sums and products of fractions.

ghost use Rattle.std.specs.Prelude.{◌≡◌, ◌<◌, length, IfOk};

use crate::draws::Draws;
use fraction128::Fraction;
use std::alloc::{AllocError, Global};
use std::fmt;
use symmetric_matrix::IntOp;

/// How many fractions there are.
const OPERANDS: usize = 1000;

/// How many results there are, and what they sum to, so that none goes unused.
#[derive(Clone, Copy, Debug, PartialEq, Eq)]
pub struct Folded {
    /// How many results there are.
    pub made: u64,
    /// The sum of the numerators and the denominators, modulo 2^128.
    pub total: i128,
}

impl fmt::Display for Folded {
    fn fmt<W: fmt::Write>(&self, f: &mut fmt::Formatter<W>) -> fmt::Result {
        let made = self.made;
        let total = self.total;
        write!(f, "{made} total {total}")
    }
}

/// The sums of neighbours in a cycle of fractions: `count` of them, or those before the first refused. It fails for
/// want of memory alone.
pub fn additions(alloc: Global, count: u64) -> Result<Folded, AllocError> {
    let operands = operands(alloc)?;
    Ok(fold(&operands, count, |left, right| left.add(right)))
}

/// The products of neighbours in a cycle of fractions: `count` of them, or those before the first refused. It fails for
/// want of memory alone.
pub fn products(alloc: Global, count: u64) -> Result<Folded, AllocError> {
    let operands = operands(alloc)?;
    Ok(fold(&operands, count, |left, right| left.mul(right)))
}

// Fractions whose numerators are below 1000 and whose denominators are at most 1000.
fn operands(alloc: Global) -> Result<Vec<Fraction>, AllocError>
    ensures { IfOk result (λ v. length v.items ≡ 1000) }
{
    let mut draws = Draws::new();
    let mut operands = Vec::with_capacity(alloc, OPERANDS)?;
    for _ in 0..OPERANDS {
        let num = draws.below(1000);
        let den = draws.below(1000) + 1;
        operands.push(Fraction::new(i128::from(num), i128::from(den)))?;
    }
    Ok(operands)
}

fn fold<F: Fn(Fraction, Fraction) -> Result<Fraction, IntOp>>(
    operands: &[Fraction],
    count: u64,
    operation: F,
) -> Folded
    requires callable { F.IsAlwaysCallable operation }
    requires some { 0 < length operands.now }
{
    let len = operands.len();
    let mut total = 0i128;
    let mut place = 0;
    for made in 0..count {
        let left = operands[place];
        place = (place + 1) % len;
        let Ok(fraction) = operation(left, operands[place]) else {
            return Folded { made, total };
        };
        total = total
            .wrapping_add(fraction.num())
            .wrapping_add(fraction.den());
    }
    Folded { made: count, total }
}
