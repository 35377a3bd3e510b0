//! What a search answers.

use symmetric_matrix::{IntVector, VectorList};
use unimodular_cone::{Path, WideAt};

/// The answer of a search for the least value at nonzero integer vectors.
#[derive(Drop)]
pub enum Least {
    /// The least value over the tree, and all vectors that attain it, in lexicographic order.
    Found {
        minimum: i128,
        vectors: VectorList,
    },
    /// A cone with a value of at most 0: the path of least depth, then least digits, with its first low generator and its value.
    Low {
        vector: IntVector,
        value: i128,
        path: Path,
    },
    /// The first open path has as many digits as the limit.
    Depth {
        path: Path,
    },
    /// The root does not fit, or a child of the first open path: the first entry over its limit.
    Wide {
        at: WideAt,
    },
    /// The least diagonal entry, which is over 2^63 - 1.
    BoundWide {
        diagonal: i128,
    },
    /// Memory ran out.
    OutOfMemory,
}

/// The answer of a search for a value below 0.
#[derive(Drop)]
pub enum Sign {
    /// No value at a nonnegative vector is below 0.
    Copositive,
    /// A cone with a value below 0: the path of least depth, then least digits, with its first low generator and its value.
    Low {
        vector: IntVector,
        value: i128,
        path: Path,
    },
    /// The first open path has as many digits as the limit.
    Depth {
        path: Path,
    },
    /// The root does not fit, or a child of the first open path: the first entry over its limit.
    Wide {
        at: WideAt,
    },
    /// Memory ran out.
    OutOfMemory,
}
