//! The cones on the way to a path, kept for the next path.

ghost use Rattle.std.specs.Prelude.{◌≡◌, ◌≤◌, IsTrue, OnOk, length, take};
ghost use Rattle.symmetric_matrix.specs.Symmetric.{entry};
ghost use Rattle.unimodular_cone.specs.Cones.{unit_vectors, Fits};
ghost use Rattle.unimodular_cone.specs.Tree.{IsInTree};
ghost use Rattle.search_core.specs.Way.{AreAtPaths, EndsInFront, IsLastAt};

use crate::descent::{fitting_root, step_down};
use std::alloc::AllocError;
use symmetric_matrix::SymInt;
use unimodular_cone::{Cone, ConeRead, Path};

/// Whether a path is a front of another.
fn is_front(front: &Path, path: &Path) -> bool
    ensures front { IsTrue result → take (length front.now) path.now ≡ front.now }
    ensures shorter { IsTrue result → length front.now ≤ length path.now }
{
    if front.len() > path.len() {
        return false;
    }
    for k in 0..front.len() {
        if front.digit(k) != path.digit(k) {
            return false;
        }
    }
    true
}

/// Takes cones away until the last one's path is a front of this one, or none is left.
fn come_back(way: &mut Vec<Cone>, q: &SymInt, path: &Path)
    requires { AreAtPaths q.now.size (entry q.now) way.old.items }
    ensures at { AreAtPaths q.now.size (entry q.now) way.new.items }
    ensures front { EndsInFront path.now way.new.items }
{
    while let Some(cone) = way.last() {
        if is_front(&cone.path(), path) {
            return;
        }
        way.truncate(way.len() - 1);
    }
}

/// Makes the last cone that of a path of the tree, whose root fits. The tree's depth is `limit`.
pub(crate) fn go_to(
    way: &mut Vec<Cone>,
    q: &SymInt,
    limit: u8,
    path: &Path,
) -> Result<(), AllocError>
    requires in_tree { IsInTree q.now.size (entry q.now) limit path.now }
    requires fits { Fits q.now.size (entry q.now) unit_vectors }
    requires way { AreAtPaths q.now.size (entry q.now) way.old.items }
    ensures at { OnOk result (AreAtPaths q.now.size (entry q.now) way.new.items) }
    ensures last { OnOk result (IsLastAt q.now.size (entry q.now) path.now way.new.items) }
{
    come_back(way, q, path);
    if way.is_empty() {
        way.push(fitting_root(q))?;
    }
    let from = way[way.len() - 1].path().len();
    for k in from..path.len() {
        let mut next = way[way.len() - 1].copy();
        step_down(&mut next, path.digit(k));
        way.push(next)?;
    }
    Ok(())
}
