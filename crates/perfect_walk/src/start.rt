//! The visit that the walk begins with.

ghost use Rattle.std.specs.Prelude.{◌≡◌, ◌≤◌, IfOk};
ghost use Rattle.perfect_walk.specs.Chains.{start_visit};
ghost use Rattle.perfect_walk.specs.Parts.{IsHeld};

use crate::journal::Visit;
use std::alloc::{AllocError, Global};
use symmetric_matrix::{start_matrix, start_minimum, start_vectors};

/// The matrix with 2 on the diagonal and -1 beside it, its copositive minimum and its minimal vectors.
pub fn start(alloc: Global, n: u8) -> Result<Visit, AllocError>
    requires positive { 1 ≤ n }
    requires small { n ≤ 8 }
    ensures value { IfOk result (λ v. v ≡ start_visit n) }
    ensures held { IfOk result (λ v. IsHeld n v) }
{
    Ok(Visit {
        matrix: start_matrix(alloc, n)?,
        mu: start_minimum(n),
        vectors: start_vectors(alloc, n)?,
    })
}
