//! What the walk did, and how it ended.

ghost use Rattle.std.specs.Prelude.{◌≡◌, ◌<◌, [], ◌∷◌, ◌++◌, map, length, OnOk, OnErr, Some, None, slice_get};
ghost use Rattle.perfect_walk.specs.declared.journal.Step.TheVariants.{Exchange as exchange, Tighten as tighten};
ghost use Rattle.perfect_walk.specs.declared.journal.Step.TheVariants.{Move as move};

use contiguous::{Tighten, Tightens};
use exact_linear::EntryOp;
use exact_lp::{Exchange, Exchanges};
use fraction128::{Fraction, Terms};
use std::alloc::{AllocError, Global};
use std::marker::Model;
use symmetric_matrix::{IntOp, IntVector, SymInt, VectorList};
use unimodular_cone::{Path, WideAt};

/// How far the walk may go: at most so many steps, and searches to this depth.
#[derive(Clone, Copy, Debug, PartialEq, Eq)]
pub struct Limits {
    pub pivots: u32,
    pub depth: u8,
}

/// What does not fit.
#[derive(Drop)]
pub enum Owed {
    /// In clearing the matrix of its denominators, at the entry in this row and column, counted from 1.
    Clear { row: u8, column: u8, op: IntOp },
    /// In the inner product of the last visit's matrix, or of the last ray, with S.
    Inner { op: IntOp },
    /// On the entries of the linear program's tableau.
    Tableau { op: EntryOp },
    /// On the entries of the ray's tableau.
    RayEntry { op: EntryOp },
    /// In clearing the ray of its denominators.
    RayClear { op: IntOp },
    /// In the value of the last visit's matrix, or of the last ray, at the vector.
    Form { vector: IntVector, op: IntOp },
    /// In a candidate or its level.
    Scale { op: IntOp },
    /// An entry of a cone of the matrix that was searched last.
    Gram { at: WideAt },
    /// The least diagonal entry of that matrix.
    Bound { diagonal: i128 },
    /// In the weight of the vector with this index, counted from 0.
    Weight { vector: usize, op: IntOp },
}

/// A perfect matrix with its copositive minimum and its minimal vectors.
#[derive(Drop)]
pub struct Visit {
    pub matrix: SymInt,
    pub mu: i128,
    pub vectors: VectorList,
}

/// A step of the walk.
#[derive(Drop)]
pub enum Step {
    Exchange(Exchange),
    Tighten(Tighten),
    Move,
}

/// Visits in their order. Contracts see the list.
#[derive(Drop)]
pub struct Visits {
    items: Vec<Visit>,
}

impl Model for Visits {
    ghost use Rattle.std.specs.Prelude.{List};
    ghost use Rattle.perfect_walk.specs.declared.journal.Visit.{Visit};

    ghost Value = { List Visit };

    ghost view = { λ l. l.items.items };
}

impl Visits {
    /// The empty list. It takes no memory.
    pub fn new(alloc: Global) -> Visits
        ensures { result ≡ [] }
    {
        Visits {
            items: Vec::new(alloc),
        }
    }

    /// Appends an item. It is refused for want of memory alone, and then the list is as before.
    pub fn push(&mut self, item: Visit) -> Result<(), AllocError>
        ensures ok { OnOk result (self.new ≡ self.old ++ item ∷ []) }
        ensures err { OnErr result (self.new ≡ self.old) }
    {
        self.items.push(item)?;
        Ok(())
    }

    /// How many items there are.
    pub fn len(&self) -> usize
        ensures { result ≡ length self.now }
    {
        self.items.len()
    }

    /// The item at an index, counted from 0.
    pub fn at(&self, k: usize) -> &Visit
        requires { k < length self.now }
        ensures { slice_get self.now k ≡ Some result.now }
    {
        &self.items[k]
    }
}

/// Steps in their order. Contracts see the list.
#[derive(Drop)]
pub struct Steps {
    items: Vec<Step>,
}

impl Model for Steps {
    ghost use Rattle.std.specs.Prelude.{List};
    ghost use Rattle.perfect_walk.specs.declared.journal.Step.{Step};

    ghost Value = { List Step };

    ghost view = { λ l. l.items.items };
}

impl Steps {
    /// The empty list. It takes no memory.
    pub fn new(alloc: Global) -> Steps
        ensures { result ≡ [] }
    {
        Steps {
            items: Vec::new(alloc),
        }
    }

    /// Appends an item. It is refused for want of memory alone, and then the list is as before.
    pub fn push(&mut self, item: Step) -> Result<(), AllocError>
        ensures ok { OnOk result (self.new ≡ self.old ++ item ∷ []) }
        ensures err { OnErr result (self.new ≡ self.old) }
    {
        self.items.push(item)?;
        Ok(())
    }

    /// How many items there are.
    pub fn len(&self) -> usize
        ensures { result ≡ length self.now }
    {
        self.items.len()
    }

    /// The item at an index, counted from 0.
    pub fn at(&self, k: usize) -> &Step
        requires { k < length self.now }
        ensures { slice_get self.now k ≡ Some result.now }
    {
        &self.items[k]
    }

    /// Appends exchanges. It is refused for want of memory alone, and then the list is as before.
    pub fn append_exchanges(&mut self, more: &Exchanges) -> Result<(), AllocError>
        ensures ok { OnOk result (self.new ≡ self.old ++ map exchange more.now) }
        ensures err { OnErr result (self.new ≡ self.old) }
    {
        self.items.reserve(more.len())?;
        for k in 0..more.len() {
            self.items.push_reserved(Step::Exchange(*more.at(k)));
        }
        Ok(())
    }

    /// Appends tightenings. It is refused for want of memory alone, and then the list is as before.
    pub fn append_tightens(&mut self, more: &Tightens) -> Result<(), AllocError>
        ensures ok { OnOk result (self.new ≡ self.old ++ map tighten more.now) }
        ensures err { OnErr result (self.new ≡ self.old) }
    {
        self.items.reserve(more.len())?;
        for k in 0..more.len() {
            let t = more.at(k);
            self.items.push_reserved(Step::Tighten(Tighten {
                vector: t.vector.copy(),
                p: t.p,
                q: t.q,
            }));
        }
        Ok(())
    }
}

/// Appends a visit, and the Move to it. It is refused for want of memory alone, and then both lists are as before.
pub fn enter(visited: &mut Visits, steps: &mut Steps, next: Visit) -> Result<(), AllocError>
    ensures visited { OnOk result (visited.new ≡ visited.old ++ next ∷ []) }
    ensures steps { OnOk result (steps.new ≡ steps.old ++ move ∷ []) }
    ensures kept_visits { OnErr result (visited.new ≡ visited.old) }
    ensures kept_steps { OnErr result (steps.new ≡ steps.old) }
{
    steps.items.reserve(1)?;
    visited.items.push(next)?;
    steps.items.push_reserved(Step::Move);
    Ok(())
}

/// What the walk did.
///
/// `searched` is the matrix that was searched last, if one was.
#[derive(Drop)]
pub struct Journal {
    pub visited: Visits,
    pub steps: Steps,
    pub searched: Option<SymInt>,
}

/// How the walk ended.
#[derive(Drop)]
pub enum End {
    Factored { terms: Terms },
    Separated { w: SymInt, value: Fraction },
    Depth { path: Path },
    Pivots,
    Overflow(Owed),
    OutOfMemory,
}

/// How the walk ended, and what it did.
#[derive(Drop)]
pub struct Walked {
    pub end: End,
    pub journal: Journal,
}
