//! Increasing lists of vectors of one length.

ghost use Rattle.std.specs.Prelude.{◌≡◌, ℕ, ◌<◌, List, [], ◌∷◌, ◌++◌, length, IfOk, OnOk, OnErr, Some, slice_get};
ghost use Rattle.symmetric_matrix.specs.Lists.{IsVectorList, CanFollow};

use crate::IntVector;
use std::alloc::{AllocError, Global};
use std::marker::Model;

/// A list of vectors of one length, strictly increasing in lexicographic order.
///
/// Contracts see it as the list of its vectors. Indices count from 0.
#[derive(Drop)]
pub struct VectorList {
    vectors: Vec<IntVector>,
}

impl Model for VectorList {
    ghost Value = { List (List ℕ) };

    ghost view = { λ l. l.vectors.items };

    ghost invariant = { λ l. IsVectorList l.vectors.items };
}

impl VectorList {
    /// The empty list. It takes no memory.
    pub fn new(alloc: Global) -> VectorList
        ensures { result ≡ [] }
    {
        VectorList {
            vectors: Vec::new(alloc),
        }
    }

    /// Appends a copy of a vector that is as long as the others and greater than the last.
    ///
    /// It is refused for want of memory alone, and then the list is as before.
    pub fn push(&mut self, v: &IntVector) -> Result<(), AllocError>
        requires { CanFollow self.old v.now }
        ensures ok { OnOk result (self.new ≡ self.old ++ v.now ∷ []) }
        ensures err { OnErr result (self.new ≡ self.old) }
    {
        self.vectors.push(v.copy())?;
        Ok(())
    }

    /// How many vectors there are.
    pub fn len(&self) -> usize
        ensures value { result ≡ length self.now }
        ensures list { IsVectorList self.now }
    {
        self.vectors.len()
    }

    /// The vector at an index.
    pub fn at(&self, k: usize) -> &IntVector
        requires { k < length self.now }
        ensures { slice_get self.now k ≡ Some result.now }
    {
        &self.vectors[k]
    }

    /// The same list again. It is refused for want of memory alone.
    pub fn copy(&self) -> Result<VectorList, AllocError>
        ensures { IfOk result (λ list. list ≡ self.now) }
    {
        let mut vectors = Vec::with_capacity(*self.vectors.allocator(), self.vectors.len())?;
        for vector in &self.vectors {
            vectors.push(vector.copy())?;
        }
        Ok(VectorList { vectors })
    }
}
