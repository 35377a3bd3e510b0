//! The tree that proves a matrix copositive.

ghost use Rattle.std.specs.Prelude.{◌≡◌, ◌≤◌, ◌-◌, pos, length, OnOk, IfOk};
ghost use Rattle.symmetric_matrix.specs.Symmetric.{entry};
ghost use Rattle.unimodular_cone.specs.Cones.{cone_at};
ghost use Rattle.unimodular_cone.specs.Shown.{IsConeAt};
ghost use Rattle.unimodular_cone.specs.Answer.{SearchAnswer, IsSearchAnswer, IsClosedAnswer};
ghost use Rattle.unimodular_cone.specs.declared.Mode.{Mode};
ghost use Rattle.cone_tree_certificate.specs.Trees.{TreeProves};
ghost use Rattle.cone_tree_certificate.specs.PairTrees.{IsPairTree};
ghost use Rattle.cone_tree_certificate.specs.WayDown.{IsOnWayDown, AddsTree};

use crate::tree::{ConeTree, TreeLine};
use std::alloc::{AllocError, Global};
use symmetric_matrix::SymInt;
use unimodular_cone::{Cone, children_fit, closed, pair, root};

/// Appends the lines of a cone and of those below it.
fn push_node(w: &SymInt, limit: u8, cone: Cone, tree: &mut ConeTree) -> Result<(), AllocError>
    requires limited { limit ≤ 200 }
    requires answer { IsClosedAnswer Mode.Sign w.now.size (entry w.now) limit (pos 0) }
    requires reached { IsConeAt w.now.size (entry w.now) cone.path cone }
    requires way { IsOnWayDown w.now.size (entry w.now) limit cone.path }
    ensures { OnOk result
        (AddsTree w.now.size (entry w.now) (limit - length cone.path) (cone_at w.now.size (entry w.now) cone.path)
        tree.old tree.new) }
{
    let _n = w.n();
    if closed(&cone, 0) {
        return tree.push(TreeLine::Leaf);
    }
    let Some((i, j)) = pair(&cone) else {
        unreachable!()
    };
    let None = children_fit(&cone, i, j) else {
        unreachable!()
    };
    tree.push(TreeLine::Split { i, j })?;
    let mut one = cone;
    let zero = one.split(i, j);
    push_node(w, limit, zero, tree)?;
    push_node(w, limit, one, tree)
}

/// The tree that proves a copositive matrix copositive, as the sign search to this depth does: each node is split at the pair
/// of its cone, and is a leaf exactly where the cone is closed at 0. It is refused for want of memory alone.
pub fn build_tree(alloc: Global, w: &SymInt, limit: u8) -> Result<ConeTree, AllocError>
    requires limited { limit ≤ 200 }
    requires copositive { IsSearchAnswer Mode.Sign w.now.size (entry w.now) limit SearchAnswer.Copositive }
    ensures proves { IfOk result (TreeProves w.now.size (entry w.now)) }
    ensures pairs { IfOk result (IsPairTree w.now.size (entry w.now) limit) }
{
    let mut tree = ConeTree::new(alloc);
    let Ok(cone) = root(w) else { unreachable!() };
    push_node(w, limit, cone, &mut tree)?;
    Ok(tree)
}
