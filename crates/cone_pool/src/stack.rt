//! A stack of cones, as a worker's deque has their paths.

ghost use Rattle.std.specs.Prelude.{◌≡◌, ◌<◌, ◌≤◌, [], OnOk, IfSome, IsTrue, length};
ghost use Rattle.symmetric_matrix.specs.Symmetric.{entry};
ghost use Rattle.unimodular_cone.specs.Shown.{IsConeAt};
ghost use Rattle.unimodular_cone.specs.Cones.{Fits, unit_vectors};
ghost use Rattle.unimodular_cone.specs.Tree.{IsInTree};
ghost use Rattle.cone_pool.specs.Parts.{AreCones, IsFateOnTop};
ghost use Rattle.cone_pool.specs.Turns.{TopSplits, IsTopTurned, IsTopAt, AreFewer};

use crate::cone_stack::ConeStack;
use search_core::{Fate, Mode};
use std::alloc::AllocError;
use std::cmp::Ordering;
use symmetric_matrix::SymInt;
use unimodular_cone::{Cone, ConeRead, Path, at_path, child, pair, root};

/// Puts the children of a split cone in its place on top of the stack, child 0 last. A cone of any other fate is taken
/// away.
pub(crate) fn turn(stack: &mut ConeStack, fate: &Fate) -> Result<(), AllocError>
    requires some { 0 < length stack.old }
    requires splits { TopSplits fate.now stack.old }
    ensures { OnOk result (IsTopTurned fate.now stack.old stack.new) }
{
    if let Fate::Split { i, j, .. } = *fate {
        return stack.split_top(i, j);
    }
    stack.drop_top();
    Ok(())
}

/// Drops cones from the top until the one at a path is there, and says whether it was found.
pub(crate) fn find(stack: &mut ConeStack, path: &Path) -> bool
    ensures fewer { AreFewer stack.old stack.new }
    ensures found { IsTrue result → IsTopAt path.now stack.new }
{
    while stack.len() > 0 {
        if let Ordering::Equal = stack.top().path().by_place(path) {
            return true;
        }
        stack.drop_top();
    }
    false
}

/// The cone at a path, made from the root. None where a cone above it has no pair or a child that does not fit.
pub(crate) fn made(q: &SymInt, path: &Path) -> Option<Cone>
    ensures { IfSome result (IsConeAt q.now.size (entry q.now) path.now) }
{
    let Ok(mut cone) = root(q) else {
        return None;
    };
    for k in 0..path.len() {
        let (i, j) = pair(&cone)?;
        let Ok(next) = child(&cone, i, j, path.digit(k)) else {
            return None;
        };
        cone = next;
    }
    Some(cone)
}

/// Brings the cone at a path to the top of the stack. False where there is no memory for it, where the path is longer
/// than the limit, or where it leads to no cone.
pub(crate) fn reach(stack: &mut ConeStack, q: &SymInt, limit: u8, path: &Path) -> bool
    requires { AreCones q.now.size (entry q.now) limit stack.old }
    ensures cones { AreCones q.now.size (entry q.now) limit stack.new }
    ensures found { IsTrue result → IsTopAt path.now stack.new }
{
    if path.len() > limit {
        return false;
    }
    if find(stack, path) {
        return true;
    }
    let Some(cone) = made(q, path) else {
        return false;
    };
    match stack.push(cone) {
        Ok(()) => true,
        Err(_) => false,
    }
}

/// The cone at a path of the tree, made from the root.
fn cone_in_tree(q: &SymInt, limit: u8, path: &Path) -> Cone
    requires tree { IsInTree q.now.size (entry q.now) limit path.now }
    requires root { Fits q.now.size (entry q.now) unit_vectors }
    ensures { IsConeAt q.now.size (entry q.now) path.now result }
{
    match at_path(q, path) {
        Ok(cone) => cone,
        Err(_) => unreachable!(),
    }
}

/// Brings the cone at a path of the tree to the top of the stack. It is refused for want of memory alone.
pub(crate) fn ready(
    stack: &mut ConeStack,
    q: &SymInt,
    limit: u8,
    path: &Path,
) -> Result<(), AllocError>
    requires cones { AreCones q.now.size (entry q.now) limit stack.old }
    requires tree { IsInTree q.now.size (entry q.now) limit path.now }
    requires root { Fits q.now.size (entry q.now) unit_vectors }
    ensures cones { OnOk result (AreCones q.now.size (entry q.now) limit stack.new) }
    ensures found { OnOk result (IsTopAt path.now stack.new) }
{
    if find(stack, path) {
        return Ok(());
    }
    let cone = cone_in_tree(q, limit, path);
    stack.push(cone)?;
    Ok(())
}

/// Puts the children of a split cone in its place on top of the stack, or drops all cones for want of memory. A cone of
/// any other fate is taken away.
pub(crate) fn turned(
    stack: &mut ConeStack,
    mode: Mode,
    q: &SymInt,
    limit: u8,
    path: &Path,
    fate: &Fate,
)
    requires limited { limit ≤ 200 }
    requires cones { AreCones q.now.size (entry q.now) limit stack.old }
    requires top { IsTopAt path.now stack.old }
    requires fate { IsFateOnTop mode limit fate.now stack.old }
    ensures { AreCones q.now.size (entry q.now) limit stack.new }
{
    match turn(stack, fate) {
        Ok(()) => {}
        Err(_) => stack.clear(),
    }
}
