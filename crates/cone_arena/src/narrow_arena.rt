//! A list of narrow cones in one block of memory.

ghost use Rattle.std.specs.Prelude.{◌≡◌, ◌≤◌, ◌<◌, ◌+◌, [], ◌∷◌, length, take, pos, None, IfOk, IfSome};
ghost use Rattle.std.specs.Vec.{vec_capacity};
ghost use Rattle.cone_arena.specs.Arena.{MaySplit, TopFits, IsTopOf, IsDropped};
ghost use Rattle.cone_arena.specs.OpenTops.{IsTopOpened, AreRowsOpened};
ghost use Rattle.cone_arena.specs.SplitRows.{IsSplittableAt};

use std::alloc::{AllocError, Global};
use std::marker::Model;
use unimodular_cone::{ConeRead, NarrowCone, OpenChildren, Opened, SlackCone};

/// Narrow cones of n generators each, one above the other, in one block of memory with room for two more than a depth.
///
/// Contracts see the list of the cones, the top last. No call takes memory but the one that makes it.
#[derive(Drop)]
pub struct NarrowArena {
    n: u8,
    depth: u8,
    len: usize,
    // The cones that count, and above them rows that stood there before and are written over.
    rows: Vec<SlackCone>,
}

impl Model for NarrowArena {
    ghost use Rattle.cone_arena.specs.Arena.{ShownArena};
    ghost use Rattle.cone_arena.specs.NarrowRows.{narrow_arena_of, IsNarrowBlock};

    ghost Value = { ShownArena };

    ghost view = { narrow_arena_of };

    ghost invariant = { IsNarrowBlock };
}

impl NarrowArena {
    /// An empty list, with room for depth + 2 cones of n generators.
    pub fn with_cones(alloc: Global, n: u8, depth: u8) -> Result<NarrowArena, AllocError>
        requires some { 1 ≤ n }
        requires few { n ≤ 8 }
        requires shallow { depth ≤ 200 }
        ensures size { IfOk result (λ a. a.size ≡ n) }
        ensures depth { IfOk result (λ a. a.depth ≡ depth) }
        ensures empty { IfOk result (λ a. a.cones ≡ []) }
    {
        let rows = Vec::with_capacity(alloc, usize::from(depth) + 2)?;
        Ok(NarrowArena {
            n,
            depth,
            len: 0,
            rows,
        })
    }

    /// Puts a cone into the empty list.
    pub fn put_alone(&mut self, cone: NarrowCone)
        requires empty { self.old.cones ≡ [] }
        requires size { cone.size ≡ self.old.size }
        ensures size { self.new.size ≡ self.old.size }
        ensures depth { self.new.depth ≡ self.old.depth }
        ensures alone { self.new.cones ≡ cone ∷ [] }
    {
        put_first(&mut self.rows, SlackCone::of(cone));
        self.len = 1;
    }

    /// Splits the top, whose children fit, on the sides of the generators i and j, which count from 1, where both children are
    /// narrow. Both take its place, child 0 above, where the mediant's value is below the bound, else each that is not closed at
    /// the bound. Answers which are made, and whether the mediant's value is the bound: there `mediant` gets its coordinates, with
    /// zeros past them. None where a child is not narrow, and the list is as before.
    #[inline(always)]
    pub fn split_open(&mut self, i: u8, j: u8, bound: u64, mediant: &mut [u64; 8]) -> Option<Opened>
        requires can { MaySplit self.old i j }
        requires fits { TopFits self.old i j }
        ensures opened { IfSome result (λ o. IsTopOpened self.old i j (pos bound) o mediant.new self.new) }
        ensures kept { result ≡ None → self.new ≡ self.old }
    {
        let opened = open_in(&mut self.rows, self.len - 1, i, j, bound, mediant)?;
        match opened.made {
            OpenChildren::Below | OpenChildren::Both => self.len += 1,
            OpenChildren::First | OpenChildren::Second => {}
            OpenChildren::Neither => self.len -= 1,
        }
        Some(opened)
    }

    /// Takes the top away.
    #[inline(always)]
    pub fn drop_top(&mut self)
        requires { 0 < length self.old.cones }
        ensures { IsDropped self.old self.new }
    {
        self.len -= 1;
    }

    /// How many cones there are.
    #[inline(always)]
    pub fn len(&self) -> usize
        ensures { result ≡ length self.now.cones }
    {
        self.len
    }

    /// The last cone, where it stands.
    #[inline(always)]
    pub fn top(&self) -> &SlackCone
        requires { 0 < length self.now.cones }
        ensures top { IsTopOf self.now result.now }
        ensures size { result.now.size ≡ self.now.size }
    {
        &self.rows[self.len - 1]
    }
}

/// Puts a cone into the first row, whatever is in it.
fn put_first(rows: &mut Vec<SlackCone>, cone: SlackCone)
    requires { 0 < vec_capacity rows.old }
    ensures first { take 1 rows.new.items ≡ cone ∷ [] }
    ensures capacity { vec_capacity rows.new ≡ vec_capacity rows.old }
{
    if rows.len() == 0 {
        rows.push_reserved(cone);
        return;
    }
    rows[0] = cone;
}

/// Splits the cone of a row, where both children are narrow: those that are made stand in that row and in the one above, whatever is
/// in it. Answers which are made; None leaves the rows up to that one as before.
#[inline(always)]
fn open_in(
    rows: &mut Vec<SlackCone>,
    top: usize,
    i: u8,
    j: u8,
    bound: u64,
    mediant: &mut [u64; 8],
) -> Option<Opened>
    requires inside { top < length rows.old.items }
    requires above { top + 1 < vec_capacity rows.old }
    requires splits { IsSplittableAt rows.old.items top i j }
    ensures opened { IfSome result (λ o.
        AreRowsOpened rows.old.items top i j (pos bound) o mediant.new rows.new.items) }
    ensures kept { result ≡ None → take (top + 1) rows.new.items ≡ take (top + 1) rows.old.items }
    ensures counted { top + 1 < length rows.new.items }
    ensures capacity { vec_capacity rows.new ≡ vec_capacity rows.old }
{
    fill_above(rows, top);
    open_rows(rows, top, i, j, bound, mediant)
}

/// Puts a cone, whichever, into the row above, if there is none.
#[inline(always)]
fn fill_above(rows: &mut Vec<SlackCone>, top: usize)
    requires inside { top < length rows.old.items }
    requires above { top + 1 < vec_capacity rows.old }
    ensures filled { top + 1 < length rows.new.items }
    ensures same { take (top + 1) rows.new.items ≡ take (top + 1) rows.old.items }
    ensures capacity { vec_capacity rows.new ≡ vec_capacity rows.old }
{
    if rows.len() > top + 1 {
        return;
    }
    let cone = rows[top].copy();
    rows.push_reserved(cone);
}

/// Splits the cone of a row where it stands, where both children are narrow: those that are made stand in that row and in the next.
/// Answers which are made.
#[inline(always)]
fn open_rows(
    rows: &mut [SlackCone],
    top: usize,
    i: u8,
    j: u8,
    bound: u64,
    mediant: &mut [u64; 8],
) -> Option<Opened>
    requires inside { top + 1 < length rows.old }
    requires splits { IsSplittableAt rows.old top i j }
    ensures opened { IfSome result (λ o. AreRowsOpened rows.old top i j (pos bound) o mediant.new rows.new) }
    ensures kept { result ≡ None → take (top + 1) rows.new ≡ take (top + 1) rows.old }
    ensures count { length rows.new ≡ length rows.old }
{
    let (below, above) = rows.split_at_mut(top + 1);
    below[top].split_open(&mut above[0], i, j, bound, mediant)
}
