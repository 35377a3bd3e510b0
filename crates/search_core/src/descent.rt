//! Ways down from the root to a path of the tree.

ghost use Rattle.std.specs.Prelude.{◌≤◌, ◌<◌, ◌-◌, [], ◌↔◌, ◌^◌, ◌≤ℤ◌, pos, IsTrue, length, nat_eq};
ghost use Rattle.symmetric_matrix.specs.Symmetric.{entry};
ghost use Rattle.unimodular_cone.specs.Cones.{unit_vectors, Fits};
ghost use Rattle.unimodular_cone.specs.Tree.{IsInTree};
ghost use Rattle.unimodular_cone.specs.Shown.{IsNext, IsConeAt};
ghost use Rattle.search_core.specs.Scans.{SplitsShown, IsUnclosedDown};

use symmetric_matrix::SymInt;
use unimodular_cone::{Cone, Path, closed, pair, root};

/// The root of a matrix whose root fits.
pub(crate) fn fitting_root(q: &SymInt) -> Cone
    requires { Fits q.now.size (entry q.now) unit_vectors }
    ensures { IsConeAt q.now.size (entry q.now) [] result }
{
    match root(q) {
        Ok(cone) => cone,
        Err(_) => unreachable!(),
    }
}

/// Goes down from a cone that splits to its child on a side of its pair.
pub(crate) fn step_down(c: &mut Cone, side: u8)
    requires digit { side < 2 }
    requires room { length c.old.path < 200 }
    requires splits { SplitsShown c.old }
    ensures { IsNext c.old (nat_eq side 1) c.new }
{
    match pair(c) {
        Some((i, j)) => c.step(i, j, side),
        None => unreachable!(),
    }
}

/// Whether neither the cone at a path of the tree nor a cone above it is closed at a bound. The tree's depth is `limit`.
pub(crate) fn is_unclosed_down(q: &SymInt, limit: u8, path: &Path, bound: i128) -> bool
    requires in_tree { IsInTree q.now.size (entry q.now) limit path.now }
    requires fits { Fits q.now.size (entry q.now) unit_vectors }
    requires low { pos 0 ≤ℤ bound }
    requires high { bound ≤ℤ pos (2 ^ 64 - 1) }
    ensures { IsTrue result ↔ IsUnclosedDown q.now.size (entry q.now) bound path.now }
{
    let mut cone = fitting_root(q);
    for k in 0..path.len() {
        if closed(&cone, bound) {
            return false;
        }
        step_down(&mut cone, path.digit(k));
    }
    !closed(&cone, bound)
}
