//! A list of cones in one block of memory.

ghost use Rattle.std.specs.Prelude.{◌≡◌, ◌≤◌, ◌<◌, ◌+◌, ◌-◌, [], length, IfOk, IfErr, IfSome};
ghost use Rattle.symmetric_matrix.specs.Symmetric.{entry};
ghost use Rattle.unimodular_cone.specs.Narrow.{HasShallowCoordinates};
ghost use Rattle.unimodular_cone.specs.Shown.{ShownCone, IsFirstWideAt};
ghost use Rattle.cone_arena.specs.Arena.{IsArena, MaySplit, TopFits, IsTopReplaced, IsWideTop, IsTopOf, HasRoot, IsDropped};

use crate::rows::Rows;
use crate::view::ConeView;
use std::alloc::{AllocError, Global};
use std::marker::Model;
use symmetric_matrix::SymInt;
use unimodular_cone::{ConeFail, NarrowCone, WideAt, children_fit, root};

/// Cones of n generators each, one above the other, in one block of memory with room for two more than a depth.
///
/// Contracts see the list of the cones, the top last. No call takes memory but the one that makes it.
#[derive(Drop)]
pub struct ConeArena {
    n: u8,
    depth: u8,
    len: usize,
    // The cones that count, and above them rows that stood there before and are written over.
    rows: Rows,
}

impl Model for ConeArena {
    ghost use Rattle.cone_arena.specs.Arena.{ShownArena};
    ghost use Rattle.cone_arena.specs.Rows.{arena_of, IsBlock};

    ghost Value = { ShownArena };

    ghost view = { arena_of };

    ghost invariant = { IsBlock };
}

impl ConeArena {
    /// An empty list, with room for depth + 2 cones of n generators.
    pub fn with_cones(alloc: Global, n: u8, depth: u8) -> Result<ConeArena, AllocError>
        requires some { 1 ≤ n }
        requires few { n ≤ 8 }
        requires shallow { depth ≤ 200 }
        ensures size { IfOk result (λ a. a.size ≡ n) }
        ensures depth { IfOk result (λ a. a.depth ≡ depth) }
        ensures empty { IfOk result (λ a. a.cones ≡ []) }
    {
        let rows = Rows::with_room(alloc, usize::from(depth) + 2)?;
        Ok(ConeArena {
            n,
            depth,
            len: 0,
            rows,
        })
    }

    /// Puts the root's cone of a matrix into the empty list. Refused is exactly a matrix with an entry over the limit of Gram
    /// entries, with the first such entry; the list is then still empty.
    pub fn push_root(&mut self, q: &SymInt) -> Result<(), WideAt>
        requires empty { self.old.cones ≡ [] }
        requires size { q.now.size ≡ self.old.size }
        ensures made { IfOk result (λ _. HasRoot q.now self.old self.new) }
        ensures wide { IfErr result (IsFirstWideAt q.now.size (entry q.now) []) }
        ensures kept { IfErr result (λ _. self.new ≡ self.old) }
    {
        match root(q) {
            Ok(cone) => {
                self.rows.put_first(cone);
                self.len = 1;
                Ok(())
            }
            Err(ConeFail::Wide(at)) => Err(at),
            Err(ConeFail::OutOfMemory) => unreachable!(),
        }
    }

    /// Replaces the top by its child 1 on the sides of the generators i and j, which count from 1, and puts its child 0 above.
    /// Refused is exactly a top with a child that has an entry over its limit, with the first such entry, that of child 0
    /// first; the list is then as before.
    pub fn split_top(&mut self, i: u8, j: u8) -> Result<(), WideAt>
        requires { MaySplit self.old i j }
        ensures made { IfOk result (λ _. IsTopReplaced self.old i j self.new) }
        ensures wide { IfErr result (IsWideTop self.old i j) }
        ensures kept { IfErr result (λ _. self.new ≡ self.old) }
    {
        match children_fit(self.rows.get(self.len - 1), i, j) {
            Some(at) => Err(at),
            None => {
                self.split_fitting(i, j);
                Ok(())
            }
        }
    }

    /// The same of a top whose children fit, which isn't tested again.
    #[inline(always)]
    pub fn split_fitting(&mut self, i: u8, j: u8)
        requires can { MaySplit self.old i j }
        requires fits { TopFits self.old i j }
        ensures { IsTopReplaced self.old i j self.new }
    {
        self.rows.split(self.len - 1, i, j);
        self.len += 1;
    }

    /// The top as a narrow cone, if its coordinates are at most two to its depth, as those of each cone of a tree are. None where a
    /// Gram entry of it is not narrow.
    pub fn narrow_top(&self) -> Option<NarrowCone>
        requires some { 0 < length self.now.cones }
        requires shallow { (c : ShownCone) → IsTopOf self.now c → HasShallowCoordinates c }
        ensures top { IfSome result (IsTopOf self.now) }
        ensures size { IfSome result (λ c. c.size ≡ self.now.size) }
    {
        NarrowCone::of(self.rows.get(self.len - 1))
    }

    /// Takes the top away.
    #[inline(always)]
    pub fn drop_top(&mut self)
        requires { 0 < length self.old.cones }
        ensures { IsDropped self.old self.new }
    {
        self.len -= 1;
    }

    /// The allocator that the block is from.
    pub fn allocator(&self) -> Global
        ensures { IsArena self.now }
    {
        self.rows.allocator()
    }

    /// How many cones there are.
    #[inline(always)]
    pub fn len(&self) -> usize
        ensures { result ≡ length self.now.cones }
    {
        self.len
    }

    /// The last cone, where it stands.
    #[inline(always)]
    pub fn top(&self) -> ConeView<'_>
        requires { 0 < length self.now.cones }
        ensures top { IsTopOf self.now result.cone.now }
        ensures size { result.cone.now.size ≡ self.now.size }
    {
        ConeView::of(self.rows.get(self.len - 1))
    }
}
