//! What the way along a ray answers.

ghost use Rattle.std.specs.Prelude.{◌≡◌, ◌<◌, [], ◌∷◌, ◌++◌, length, OnOk, OnErr, Some, slice_get};

use std::alloc::{AllocError, Global};
use std::marker::Model;
use symmetric_matrix::{IntOp, IntVector, SymInt, VectorList};
use unimodular_cone::{Path, WideAt};

/// A tightening: λ is p/q, in lowest terms, at which the vector has the level.
#[derive(Drop)]
pub struct Tighten {
    pub vector: IntVector,
    pub p: i128,
    pub q: i128,
}

/// Tightenings in their order. Contracts see the list.
#[derive(Drop)]
pub struct Tightens {
    items: Vec<Tighten>,
}

impl Model for Tightens {
    ghost use Rattle.std.specs.Prelude.{List};
    ghost use Rattle.contiguous.specs.declared.neighbour.Tighten.{Tighten};

    ghost Value = { List Tighten };

    ghost view = { λ l. l.items.items };
}

impl Tightens {
    /// The empty list. It takes no memory.
    pub fn new(alloc: Global) -> Tightens
        ensures { result ≡ [] }
    {
        Tightens {
            items: Vec::new(alloc),
        }
    }

    /// Appends an item. It is refused for want of memory alone, and then the list is as before.
    pub fn push(&mut self, item: Tighten) -> Result<(), AllocError>
        ensures ok { OnOk result (self.new ≡ self.old ++ item ∷ []) }
        ensures err { OnErr result (self.new ≡ self.old) }
    {
        self.items.push(item)?;
        Ok(())
    }

    /// How many items there are.
    pub fn len(&self) -> usize
        ensures { result ≡ length self.now }
    {
        self.items.len()
    }

    /// The item at an index, counted from 0.
    pub fn at(&self, k: usize) -> &Tighten
        requires { k < length self.now }
        ensures { slice_get self.now k ≡ Some result.now }
    {
        &self.items[k]
    }
}

/// What does not fit on the way.
#[derive(Drop)]
pub enum NeighbourOp {
    /// An operation of P[vector] or of R[vector].
    Form { vector: IntVector, op: IntOp },
    /// An operation of the level or of q·P + p·R.
    Scale { op: IntOp },
    /// An entry of a cone of the search of the candidate.
    Gram { at: WideAt },
    /// The least diagonal entry of the candidate.
    Bound { diagonal: i128 },
}

/// The perfect matrix next to another one along a ray, or why it is not reached, with the tightenings that were made.
#[derive(Drop)]
pub enum Neighbour {
    /// The perfect matrix in primitive form, with its copositive minimum and all its minimal vectors.
    Found {
        perfect: SymInt,
        mu: i128,
        vectors: VectorList,
        steps: Tightens,
    },
    /// The search of the candidate leaves the cone at `path` undecided.
    Depth {
        candidate: SymInt,
        path: Path,
        steps: Tightens,
    },
    /// Something does not fit. The candidate is there exactly with `Gram` and `Bound`.
    Wide {
        op: NeighbourOp,
        candidate: Option<SymInt>,
        steps: Tightens,
    },
    /// A further tightening is due, and there are as many as the budget.
    Pivots {
        steps: Tightens,
    },
    OutOfMemory,
}
