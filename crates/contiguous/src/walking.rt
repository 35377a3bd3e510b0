//! The way along a ray from a perfect matrix to the next one.

ghost use Rattle.std.specs.Prelude.{◌≡◌, ◌≤◌, ◌≤ℤ◌, ◌<ℤ◌, pos, length, IfOk};
ghost use Rattle.exact_forms.specs.Vectors.{IsNonzero};
ghost use Rattle.exact_forms.specs.Copositive.{IsMinimum, IsPerfect, IsExtremeRay};
ghost use Rattle.symmetric_matrix.specs.Symmetric.{entry};
ghost use Rattle.contiguous.specs.Tightenings.{line_along, value_at, IsNeighbourAnswer, NeighbourHolds, CanBeMadeAgain, tightens_of, searched_after};
ghost use Rattle.contiguous.specs.Making.{IsRefusedBy, IsEndedBy};
ghost use Rattle.contiguous.specs.declared.tightening.TightenFail.TheVariants.{OutOfMemory};

use crate::neighbour::{Neighbour, NeighbourOp, Tightens};
use crate::tightening::{Candidate, SearchEnd, Searched, TightenFail, search_candidate, tighten};
use search_core::Searcher;
use std::alloc::{AllocError, Global};
use symmetric_matrix::{IntVector, SymInt, VectorList};

/// The perfect matrix next to P along R, from the first tightening with `below` on.
///
/// `mu` and `vectors` are the copositive minimum and all minimal vectors of the perfect matrix P, R is an extreme ray
/// of the dual of their cone, `below` is a nonzero vector with R[below] < 0, `limit` is the depth of each search, and
/// `budget` is the greatest number of tightenings.
///
/// A tightening makes P + λR in primitive form, at the λ at which its vector has the level, that is, the minimum of P
/// in the new scale. The search of that candidate finds the level, which ends the way, or a vector below it, with
/// which the next tightening is made. So λ falls.
///
/// `Depth`, and `Wide` with `Gram` or `Bound`, are the answer of the search of the candidate that they carry. `Wide`
/// with `Form` or `Scale` is the first operation of the next tightening that does not fit. `Pivots` comes where a
/// tightening is due after `budget` of them. Where a searcher may wait, so may this call.
///
/// Perfect copositive matrices and their neighbours are those of Dutour Sikirić, Schürmann and Vallentin's simplex
/// algorithm for rational cp-factorization. The way from one to the next is this repository's own.
pub fn next_perfect<S: Searcher>(
    alloc: Global,
    searcher: &mut S,
    p_matrix: &SymInt,
    mu: i128,
    vectors: &VectorList,
    r_matrix: &SymInt,
    below: &IntVector,
    limit: u8,
    budget: u32,
) -> Neighbour
    requires limited { limit ≤ 200 }
    requires sizes { r_matrix.now.size ≡ p_matrix.now.size }
    requires minimum { IsMinimum p_matrix.now.size (entry p_matrix.now) mu vectors.now }
    requires perfect { IsPerfect p_matrix.now.size vectors.now }
    requires extreme { IsExtremeRay p_matrix.now.size (entry r_matrix.now) vectors.now }
    requires length { length below.now ≡ p_matrix.now.size }
    requires nonzero { IsNonzero p_matrix.now.size below.now }
    requires below { value_at r_matrix.now below.now <ℤ pos 0 }
    ensures answer { IsNeighbourAnswer (line_along p_matrix.now mu r_matrix.now) limit below.now budget result }
    ensures holds { NeighbourHolds (line_along p_matrix.now mu r_matrix.now) vectors.now result }
    ensures again { CanBeMadeAgain (line_along p_matrix.now mu r_matrix.now) (tightens_of result) }
{
    let mut steps = Tightens::new(alloc);
    let mut vector = below.copy();
    for _ in 0..budget {
        let made = match tighten(alloc, p_matrix, mu, r_matrix, &vector) {
            Ok(made) => made,
            Err(fail) => return refused(fail, steps),
        };
        let Candidate {
            step,
            matrix,
            level,
        } = made;
        if steps.push(step).is_err() {
            return Neighbour::OutOfMemory;
        }
        match search_candidate(searcher, &matrix, level, limit) {
            Searched::Vector(next) => vector = next,
            Searched::End(end) => return ended(end, matrix, level, steps),
        }
    }
    Neighbour::Pivots { steps }
}

// The answer where the next tightening is refused.
fn refused(fail: TightenFail, steps: Tightens) -> Neighbour
    ensures { IsRefusedBy fail steps result }
{
    match fail {
        TightenFail::Wide(op) => Neighbour::Wide {
            op,
            candidate: None,
            steps,
        },
        TightenFail::OutOfMemory => Neighbour::OutOfMemory,
    }
}

// The answer where the search of the last candidate ends the way.
fn ended(end: SearchEnd, matrix: SymInt, level: i128, steps: Tightens) -> Neighbour
    ensures { IsEndedBy end matrix level steps result }
{
    match end {
        SearchEnd::Perfect { vectors } => Neighbour::Found {
            perfect: matrix,
            mu: level,
            vectors,
            steps,
        },
        SearchEnd::Depth { path } => Neighbour::Depth {
            candidate: matrix,
            path,
            steps,
        },
        SearchEnd::Wide { at } => Neighbour::Wide {
            op: NeighbourOp::Gram { at },
            candidate: Some(matrix),
            steps,
        },
        SearchEnd::BoundWide { diagonal } => Neighbour::Wide {
            op: NeighbourOp::Bound { diagonal },
            candidate: Some(matrix),
            steps,
        },
        SearchEnd::OutOfMemory => Neighbour::OutOfMemory,
    }
}

/// The candidate of the last of some tightenings, made again; `None` where there are none.
///
/// It is refused for want of memory alone, since all operations of a tightening that was made fit.
pub fn last_candidate(
    alloc: Global,
    p_matrix: &SymInt,
    mu: i128,
    r_matrix: &SymInt,
    steps: &Tightens,
) -> Result<Option<SymInt>, AllocError>
    requires sizes { r_matrix.now.size ≡ p_matrix.now.size }
    requires positive { pos 1 ≤ℤ mu }
    requires again { CanBeMadeAgain (line_along p_matrix.now mu r_matrix.now) steps.now }
    ensures { IfOk result (λ c. c ≡ searched_after (line_along p_matrix.now mu r_matrix.now) steps.now) }
{
    if steps.len() == 0 {
        return Ok(None);
    }
    match tighten(
        alloc,
        p_matrix,
        mu,
        r_matrix,
        &steps.at(steps.len() - 1).vector,
    ) {
        Ok(made) => Ok(Some(made.matrix)),
        Err(fail) => Err(want_of_memory(fail)),
    }
}

// The refusal of a tightening of which no operation is owed.
fn want_of_memory(fail: TightenFail) -> AllocError
    requires { fail ≡ OutOfMemory }
{
    match fail {
        TightenFail::OutOfMemory => AllocError,
        TightenFail::Wide(_) => unreachable!(),
    }
}
