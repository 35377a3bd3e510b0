//! One tightening, and the search of its candidate.

ghost use Rattle.std.specs.Prelude.{◌≡◌, ◌≤◌, ◌<ℤ◌, ◌≤ℤ◌, pos, ◌-ℤ◌, nat_abs, length, IfOk, IfErr};
ghost use Rattle.commutative_ring.specs.Gcd.{divided};
ghost use Rattle.exact_forms.specs.Rational.{ratio};
ghost use Rattle.symmetric_matrix.specs.Symmetric.{FitsInt};
ghost use Rattle.contiguous.specs.Tightenings.{line_along, value_at, IsTightenable};
ghost use Rattle.contiguous.specs.Making.{IsValueAnswer, IsScaled, IsScaleRefused, IsTightenMade, IsMakingRefused, IsCandidateReached, IsSearchedAnswer};
ghost use Rattle.contiguous.specs.declared.tightening.TightenFail.TheVariants.{OutOfMemory};

use crate::neighbour::{NeighbourOp, Tighten};
use fraction128::Fraction;
use search_core::{Least, Searcher};
use std::alloc::{AllocError, Global};
use symmetric_matrix::{Fail, IntVector, SymInt, VectorList, combine, int_mul};
use unimodular_cone::{Path, WideAt};

/// A tightening with its candidate and the level of the candidate.
#[derive(Drop)]
pub struct Candidate {
    pub step: Tighten,
    pub matrix: SymInt,
    pub level: i128,
}

/// Why a tightening is not made: the first operation that does not fit, or want of memory.
#[derive(Drop)]
pub enum TightenFail {
    Wide(NeighbourOp),
    OutOfMemory,
}

impl From<AllocError> for TightenFail {
    ghost from_gives = { λ _ e. e ≡ OutOfMemory };

    fn from(_e: AllocError) -> TightenFail {
        TightenFail::OutOfMemory
    }
}

/// What the search of a candidate comes to: the vector of the next tightening, or the end of the way.
#[derive(Drop)]
pub enum Searched {
    Vector(IntVector),
    End(SearchEnd),
}

/// A search of a candidate that calls for no further tightening: the level is the minimum, or the search is refused.
#[derive(Drop)]
pub enum SearchEnd {
    Perfect { vectors: VectorList },
    Depth { path: Path },
    Wide { at: WideAt },
    BoundWide { diagonal: i128 },
    OutOfMemory,
}

// The value at a vector, or the first operation that does not fit.
fn value_of(matrix: &SymInt, w: &IntVector) -> Result<i128, TightenFail>
    requires { length w.now ≡ matrix.now.size }
    ensures value { IsValueAnswer matrix.now w.now result }
    ensures narrow { IfOk result FitsInt }
{
    match matrix.form(w) {
        Ok(value) => Ok(value),
        Err(op) => Err(TightenFail::Wide(NeighbourOp::Form {
            vector: w.copy(),
            op,
        })),
    }
}

// (above - mu) / -below in lowest terms.
fn slope(above: i128, mu: i128, below: i128) -> Fraction
    requires positive { pos 1 ≤ℤ mu }
    requires above { mu <ℤ above }
    requires below { below <ℤ pos 0 }
    requires narrow { FitsInt below }
    ensures { result ≡ ratio (above -ℤ mu) (nat_abs below) }
{
    Fraction::new(above - mu, -below)
}

// The number over a divisor of at least 1.
fn over(value: i128, divisor: i128) -> i128
    requires { pos 1 ≤ℤ divisor }
    ensures { result ≡ divided value (nat_abs divisor) }
{
    value / divisor
}

/// The tightening with a vector.
pub fn tighten(
    alloc: Global,
    p_matrix: &SymInt,
    mu: i128,
    r_matrix: &SymInt,
    w: &IntVector,
) -> Result<Candidate, TightenFail>
    requires sizes { r_matrix.now.size ≡ p_matrix.now.size }
    requires positive { pos 1 ≤ℤ mu }
    requires tightenable { IsTightenable (line_along p_matrix.now mu r_matrix.now) w.now }
    ensures made { IfOk result (λ c. IsTightenMade (line_along p_matrix.now mu r_matrix.now) w.now c) }
    ensures refused { IfErr result (λ f. IsMakingRefused (line_along p_matrix.now mu r_matrix.now) w.now f) }
{
    let above = value_of(p_matrix, w)?;
    let below = value_of(r_matrix, w)?;
    let lambda = slope(above, mu, below);
    scaled(alloc, p_matrix, mu, r_matrix, w, lambda)
}

// The candidate at a fraction, with its level.
fn scaled(
    alloc: Global,
    p_matrix: &SymInt,
    mu: i128,
    r_matrix: &SymInt,
    w: &IntVector,
    lambda: Fraction,
) -> Result<Candidate, TightenFail>
    requires sizes { r_matrix.now.size ≡ p_matrix.now.size }
    requires positive { pos 1 ≤ℤ mu }
    requires tightenable { IsTightenable (line_along p_matrix.now mu r_matrix.now) w.now }
    requires lambda { lambda ≡ ratio (value_at p_matrix.now w.now -ℤ mu) (nat_abs (value_at r_matrix.now w.now)) }
    ensures made { IfOk result (λ c. IsScaled (line_along p_matrix.now mu r_matrix.now) w.now c) }
    ensures refused { IfErr result (λ f. IsScaleRefused (line_along p_matrix.now mu r_matrix.now) w.now f) }
{
    let p = lambda.num();
    let q = lambda.den();
    let level = match int_mul(q, mu) {
        Ok(level) => level,
        Err(op) => return Err(TightenFail::Wide(NeighbourOp::Scale { op })),
    };
    let combined = match combine(alloc, q, p_matrix, p, r_matrix) {
        Ok(combined) => combined,
        Err(Fail::Wide(op)) => return Err(TightenFail::Wide(NeighbourOp::Scale { op })),
        Err(Fail::OutOfMemory) => return Err(TightenFail::OutOfMemory),
    };
    let divisor = combined.gcd_of_entries();
    let matrix = combined.primitive()?;
    Ok(Candidate {
        step: Tighten {
            vector: w.copy(),
            p,
            q,
        },
        matrix,
        level: over(level, divisor),
    })
}

/// The search of a candidate, at whose level some vector has its value.
pub fn search_candidate<S: Searcher>(
    searcher: &mut S,
    matrix: &SymInt,
    level: i128,
    limit: u8,
) -> Searched
    requires limited { limit ≤ 200 }
    requires positive { pos 1 ≤ℤ level }
    requires reached { IsCandidateReached matrix.now level }
    ensures { IsSearchedAnswer matrix.now level limit result }
{
    match searcher.least(matrix, limit) {
        Least::Found { minimum, vectors } => {
            if minimum == level {
                Searched::End(SearchEnd::Perfect { vectors })
            } else {
                Searched::Vector(vectors.at(0).copy())
            }
        }
        Least::Low { vector, .. } => Searched::Vector(vector),
        Least::Depth { path } => Searched::End(SearchEnd::Depth { path }),
        Least::Wide { at } => Searched::End(SearchEnd::Wide { at }),
        Least::BoundWide { diagonal } => Searched::End(SearchEnd::BoundWide { diagonal }),
        Least::OutOfMemory => Searched::End(SearchEnd::OutOfMemory),
    }
}
