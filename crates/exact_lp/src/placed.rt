//! What the linear program answers.

use crate::lists::{Exchanges, Indices, Weights};
use exact_linear::EntryOp;
use symmetric_matrix::IntOp;

/// A step: the vector that comes into the basis and the one that leaves it, by their indices, counted from 0.
#[derive(Clone, Copy, Debug, PartialEq, Eq)]
pub struct Exchange {
    pub entering: usize,
    pub leaving: usize,
}

/// The operation that is refused: on entries of the tableau, or for the weight of the vector with that index.
#[derive(Clone, Copy, Debug, PartialEq, Eq)]
pub enum PlaceOp {
    Tableau(EntryOp),
    Weight { vector: usize, op: IntOp },
}

/// Whether S/d is a nonnegative combination of the matrices v·vᵗ of a list of vectors, with the steps that were made. Vectors
/// are named by their indices, counted from 0.
///
/// - `Inside`: it is, with these weights, one for each vector.
/// - `Outside`: it is not. Where S has n rows, `zeros` are n(n+1)/2 - 1 vectors, in increasing order, and their matrices and
///   that of `leaving` are independent. A matrix that is zero at `zeros` and positive at `leaving` is an extreme ray of those
///   that are at least 0 at each vector, and its inner product with S is negative.
/// - `Pivots`: another step is due, and the budget of steps is used.
/// - `Wide`: an operation does not fit, the first one after the steps.
/// - `OutOfMemory`: for want of memory. It may come at any time.
#[derive(Debug, Drop)]
pub enum Placed {
    Inside {
        weights: Weights,
        steps: Exchanges,
    },
    Outside {
        zeros: Indices,
        leaving: usize,
        steps: Exchanges,
    },
    Pivots {
        steps: Exchanges,
    },
    Wide {
        op: PlaceOp,
        steps: Exchanges,
    },
    OutOfMemory,
}
