//! Cone trees, line by line.

ghost use Rattle.std.specs.Prelude.{◌≡◌, ◌<◌, [], ◌∷◌, ◌++◌, length, OnOk, OnErr, IfOk, Some, slice_get};

use std::alloc::{AllocError, Global};
use std::marker::Model;

/// A node of a cone tree: a leaf, or a split at the generators i and j, which count from 1.
#[derive(Clone, Copy, Debug, PartialEq, Eq)]
pub enum TreeLine {
    Leaf,
    Split { i: u8, j: u8 },
}

/// The lines of a cone tree: each node stands before the lines of its child 0, and these before those of its child 1.
///
/// Contracts see the list of its lines. A line takes three bytes.
#[derive(Debug, Drop)]
pub struct ConeTree {
    lines: Vec<TreeLine>,
}

impl Model for ConeTree {
    ghost use Rattle.std.specs.Prelude.{List};
    ghost use Rattle.cone_tree_certificate.specs.declared.tree.TreeLine.{TreeLine};

    ghost Value = { List TreeLine };

    ghost view = { λ t. t.lines.items };
}

impl ConeTree {
    /// No lines. It takes no memory.
    pub fn new(alloc: Global) -> ConeTree
        ensures { result ≡ [] }
    {
        ConeTree {
            lines: Vec::new(alloc),
        }
    }

    /// No lines, with memory for so many.
    pub(crate) fn with_room(alloc: Global, room: usize) -> Result<ConeTree, AllocError>
        ensures { IfOk result (λ tree. tree ≡ []) }
    {
        Ok(ConeTree {
            lines: Vec::with_capacity(alloc, room)?,
        })
    }

    /// Appends a line. It is refused for want of memory alone, and then the lines are as before.
    pub fn push(&mut self, item: TreeLine) -> Result<(), AllocError>
        ensures ok { OnOk result (self.new ≡ self.old ++ item ∷ []) }
        ensures err { OnErr result (self.new ≡ self.old) }
    {
        self.lines.push(item)?;
        Ok(())
    }

    /// How many lines there are.
    pub fn len(&self) -> usize
        ensures { result ≡ length self.now }
    {
        self.lines.len()
    }

    /// The line at an index, counted from 0.
    pub fn at(&self, k: usize) -> &TreeLine
        requires { k < length self.now }
        ensures { slice_get self.now k ≡ Some result.now }
    {
        &self.lines[k]
    }
}
