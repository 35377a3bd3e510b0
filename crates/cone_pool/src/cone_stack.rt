//! A stack of cones whose rows are written over.

ghost use Rattle.std.specs.Prelude.{◌≡◌, ◌<◌, ◌≤◌, ◌+◌, ◌-◌, [], ◌∷◌, ◌++◌, length, take, slice_index_or, MatchResult, OnOk, OnErr, IsTrue, ◌↔◌};
ghost use Rattle.cone_pool.specs.Turns.{CanSplitTop, IsTopSplit};

use std::alloc::{AllocError, Global};
use std::marker::Model;
use unimodular_cone::Cone;

/// A stack of cones. A row once taken stays, so that a split cone is changed in place and no cone is moved.
///
/// Contracts see the list of the cones, the last one on top.
#[derive(Drop)]
pub(crate) struct ConeStack {
    len: usize,
    // The cones that count, and above them rows that stood there before and are written over.
    rows: Vec<Cone>,
}

impl Model for ConeStack {
    ghost use Rattle.std.specs.Prelude.{◌≤◌, List, length, take};
    ghost use Rattle.unimodular_cone.specs.Shown.{ShownCone};

    ghost Value = { List ShownCone };

    ghost view = { λ s. take s.len s.rows.items };

    ghost invariant = { λ s. s.len ≤ length s.rows.items };
}

impl ConeStack {
    /// No cone.
    pub(crate) fn new(alloc: Global) -> ConeStack
        ensures { result ≡ [] }
    {
        ConeStack {
            len: 0,
            rows: Vec::new(alloc),
        }
    }

    /// How many cones there are.
    pub(crate) fn len(&self) -> usize
        ensures { result ≡ length self.now }
    {
        self.len
    }

    /// The cone on top, where it stands.
    pub(crate) fn top(&self) -> &Cone
        requires { 0 < length self.now }
        ensures { result.now ≡ slice_index_or self.now (length self.now - 1) result.now }
    {
        &self.rows[self.len - 1]
    }

    /// Takes the cone on top away.
    pub(crate) fn drop_top(&mut self)
        requires { 0 < length self.old }
        ensures { self.new ≡ take (length self.old - 1) self.old }
    {
        self.len -= 1;
    }

    /// Takes all cones away.
    pub(crate) fn clear(&mut self)
        ensures { self.new ≡ [] }
    {
        self.len = 0;
    }

    /// Puts a cone on top.
    pub(crate) fn push(&mut self, cone: Cone) -> Result<(), AllocError>
        ensures { MatchResult result (λ _. self.new ≡ self.old ++ cone ∷ []) (λ _. self.new ≡ self.old) }
    {
        match put(&mut self.rows, self.len, cone) {
            Ok(()) => {
                self.len += 1;
                Ok(())
            }
            Err(_) => Err(AllocError),
        }
    }

    /// Makes the cone on top its child 1, and puts its child 0 above, on the sides of the generators i and j, which count
    /// from 1.
    pub(crate) fn split_top(&mut self, i: u8, j: u8) -> Result<(), AllocError>
        requires some { 0 < length self.old }
        requires splits { CanSplitTop self.old i j }
        ensures { OnOk result (IsTopSplit self.old i j self.new) }
    {
        fill_above(&mut self.rows, self.len - 1)?;
        split_in(&mut self.rows, self.len - 1, i, j);
        self.len += 1;
        Ok(())
    }
}

/// Puts a cone into the row after the first `len`.
fn put(rows: &mut Vec<Cone>, len: usize, cone: Cone) -> Result<(), AllocError>
    requires { len ≤ length rows.old.items }
    ensures put { OnOk result (take (len + 1) rows.new.items ≡ take len rows.old.items ++ cone ∷ []) }
    ensures counted { OnOk result (len + 1 ≤ length rows.new.items) }
    ensures same { OnErr result (rows.new.items ≡ rows.old.items) }
{
    if len < rows.len() {
        rows[len] = cone;
        return Ok(());
    }
    rows.push(cone)?;
    Ok(())
}

/// Makes the row above the top, whatever cone it holds.
fn fill_above(rows: &mut Vec<Cone>, top: usize) -> Result<(), AllocError>
    requires { top < length rows.old.items }
    ensures filled { OnOk result (top + 1 < length rows.new.items) }
    ensures counted { top < length rows.new.items }
    ensures same { take (top + 1) rows.new.items ≡ take (top + 1) rows.old.items }
{
    if top + 1 < rows.len() {
        return Ok(());
    }
    let cone = rows[top].copy();
    rows.push(cone)?;
    Ok(())
}

/// Splits the cone of a row where it stands: it becomes its child 1, and the next row becomes its child 0.
fn split_in(rows: &mut Vec<Cone>, top: usize, i: u8, j: u8)
    requires inside { top + 1 < length rows.old.items }
    requires splits { CanSplitTop (take (top + 1) rows.old.items) i j }
    ensures split { IsTopSplit (take (top + 1) rows.old.items) i j (take (top + 2) rows.new.items) }
    ensures counted { length rows.new.items ≡ length rows.old.items }
{
    split_rows(rows, top, i, j);
}

/// The same of the rows as a slice.
fn split_rows(rows: &mut [Cone], top: usize, i: u8, j: u8)
    requires inside { top + 1 < length rows.old }
    requires splits { CanSplitTop (take (top + 1) rows.old) i j }
    ensures split { IsTopSplit (take (top + 1) rows.old) i j (take (top + 2) rows.new) }
    ensures counted { length rows.new ≡ length rows.old }
{
    let (below, above) = rows.split_at_mut(top + 1);
    below[top].split_into(&mut above[0], i, j);
}
