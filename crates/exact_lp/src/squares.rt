//! The tableau that the linear program begins with.

ghost use Rattle.std.specs.Prelude.{◌≡◌, ℕ, ◌<◌, ◌++◌, ◌∷◌, [], length, slice_index_or, IfOk};
ghost use Rattle.exact_linear.specs.Columns.{start_table};
ghost use Rattle.exact_linear.specs.Squares.{squares};

use exact_linear::{Tableau, square};
use std::alloc::{AllocError, Global};
use symmetric_matrix::{SymInt, VectorList};

// The matrices of the vectors, then the target.
fn columns(alloc: Global, vectors: &VectorList, s: &SymInt) -> Result<Vec<SymInt>, AllocError>
    ensures { IfOk result (λ v. v.items ≡ squares vectors.now ++ s.now ∷ []) }
{
    let mut columns = Vec::new(alloc);
    for k in 0..vectors.len() {
        columns.push(square(alloc, vectors.at(k))?)?;
    }
    columns.push(s.copy()?)?;
    Ok(columns)
}

/// The tableau over the units whose further columns are the vectors' matrices and the target. It is refused for want of
/// memory alone.
pub fn start(alloc: Global, vectors: &VectorList, s: &SymInt) -> Result<Tableau, AllocError>
    requires { (k : ℕ) → k < length vectors.now → length (slice_index_or vectors.now k []) ≡ s.now.size }
    ensures { IfOk result (λ t. t ≡ start_table s.now.size (squares vectors.now ++ s.now ∷ [])) }
{
    let columns = columns(alloc, vectors, s)?;
    Tableau::over_units(alloc, s.n(), &columns)
}
