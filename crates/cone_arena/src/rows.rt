//! The rows of a block of memory: cones from its start on, and above them places that are still empty.

ghost use Rattle.std.specs.Prelude.{◌≡◌, ◌≤◌, ◌<◌, ◌+◌, ◌++◌, [], ◌∷◌, length, take, slice_index_or, slice_set, IfOk};
ghost use Rattle.cone_arena.specs.SplitRows.{IsSplittableAt, AreRowsSplit, IsTopRowSplit};

use crate::cells::{Base, Cells, Deed, allocate, deallocate};
use std::alloc::{AllocError, Global};
use std::marker::Model;
use unimodular_cone::Cone;

/// Cones in the rows of one block of memory, which it owns. A row that holds a cone can be written over and is never emptied.
///
/// Contracts see the list of the cones, and how many rows there is room for.
pub struct Rows {
    written: usize,
    room: usize,
    base: Base<Cone>,
    cells: Cells<Cone>,
    deed: Deed<Cone, Global>,
    alloc: Global,
}

impl Model for Rows {
    ghost use Rattle.cone_arena.specs.ShownRows.{ShownRows};
    ghost use Rattle.cone_arena.specs.RowFields.{shown_rows, AreRows};

    ghost Value = { ShownRows };

    ghost view = { shown_rows };

    ghost invariant = { AreRows };
}

impl Drop for Rows {
    fn drop(self) {
        let Rows {
            written: _,
            room,
            base,
            cells,
            deed,
            alloc,
        } = self;
        deallocate(&alloc, base, room, cells, deed);
    }
}

impl Rows {
    /// A block with room for so many rows, none of which holds a cone yet.
    pub(crate) fn with_room(alloc: Global, room: usize) -> Result<Rows, AllocError>
        requires { room ≤ 202 }
        ensures empty { IfOk result (λ r. r.items ≡ []) }
        ensures room { IfOk result (λ r. r.room ≡ room) }
    {
        let (base, cells, deed) = allocate(&alloc, room)?;
        Ok(Rows {
            written: 0,
            room,
            base,
            cells,
            deed,
            alloc,
        })
    }

    /// Where the block is from.
    pub(crate) fn allocator(&self) -> Global {
        self.alloc
    }

    /// The cone of a row, where it stands.
    #[inline(always)]
    pub(crate) fn get(&self, k: usize) -> &Cone
        requires { k < length self.now.items }
        ensures { result.now ≡ slice_index_or self.now.items k result.now }
    {
        self.cells.get(self.base, k)
    }

    /// Puts a cone into the lowest row that holds none.
    fn push(&mut self, cone: Cone)
        requires { length self.old.items < self.old.room }
        ensures items { self.new.items ≡ self.old.items ++ cone ∷ [] }
        ensures room { self.new.room ≡ self.old.room }
    {
        self.cells.write(self.base, self.written, cone);
        self.written += 1;
    }

    /// Puts a cone into the first row.
    pub(crate) fn put_first(&mut self, cone: Cone)
        requires { 0 < self.old.room }
        ensures first { take 1 self.new.items ≡ cone ∷ [] }
        ensures room { self.new.room ≡ self.old.room }
    {
        if self.written == 0 {
            self.push(cone);
            return;
        }
        write_first(self.cells.slice_mut(self.base, 0, self.written), cone);
    }

    /// Splits the cone of a row where it stands, on the sides of the generators i and j, which count from 1: it becomes its
    /// child 1, and the next row becomes its child 0.
    #[inline(always)]
    pub(crate) fn split(&mut self, top: usize, i: u8, j: u8)
        requires inside { top < length self.old.items }
        requires above { top + 1 < self.old.room }
        requires splits { IsSplittableAt self.old.items top i j }
        ensures split { IsTopRowSplit self.old.items top i j self.new.items }
        ensures room { self.new.room ≡ self.old.room }
    {
        self.fill_above(top);
        split_rows(self.cells.slice_mut(self.base, 0, self.written), top, i, j);
    }

    /// Puts a cone, whichever, into the row above, if that holds none.
    #[inline(always)]
    fn fill_above(&mut self, top: usize)
        requires inside { top < length self.old.items }
        requires above { top + 1 < self.old.room }
        ensures filled { top + 1 < length self.new.items }
        ensures same { take (top + 1) self.new.items ≡ take (top + 1) self.old.items }
        ensures room { self.new.room ≡ self.old.room }
    {
        if self.written > top + 1 {
            return;
        }
        let cone = self.get(top).copy();
        self.push(cone);
    }
}

/// Writes a cone over the first of the rows.
fn write_first(rows: &mut [Cone], cone: Cone)
    requires { 0 < length rows.old }
    ensures { rows.new ≡ slice_set rows.old 0 cone }
{
    rows[0] = cone;
}

/// Splits the cone of a row where it stands: it becomes its child 1, and the next row becomes its child 0.
#[inline(always)]
fn split_rows(rows: &mut [Cone], top: usize, i: u8, j: u8)
    requires inside { top + 1 < length rows.old }
    requires splits { IsSplittableAt rows.old top i j }
    ensures { AreRowsSplit rows.old top i j rows.new }
{
    let (below, above) = rows.split_at_mut(top + 1);
    below[top].split_into(&mut above[0], i, j);
}
