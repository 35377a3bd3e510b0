//! The lines of a tree.

ghost use Rattle.std.specs.Prelude.{◌≡◌, ◌≤◌, OnOk, IfErr, Some, None};
ghost use Rattle.std.specs.List.{All};
ghost use Rattle.exact_forms.specs.Forms.{IsSymmetric};
ghost use Rattle.symmetric_matrix.specs.Symmetric.{entry};
ghost use Rattle.unimodular_cone.specs.Cones.{unit_vectors};
ghost use Rattle.certificate_checker.specs.Checks.{first_refusal};
ghost use Rattle.certificate_checker.specs.Rows.{at};
ghost use Rattle.certificate_checker.specs.Tree.{tree_checks};
ghost use Rattle.certificate_checker.specs.Walks.{FollowsAll};
ghost use Rattle.cone_tree_certificate.specs.VerdictText.{HasSplit};

use crate::checked::Checked;
use crate::node::check_node;
use crate::rows::{rows_of, unit_rows};
use crate::small::{images, narrowed, widened};
use crate::small_node::check_small_node;
use cone_tree_certificate::ConeTree;
use symmetric_matrix::SymInt;

/// Tests the lines of the root, the cone of the unit vectors, and answers the index of the line after them, from 0.
fn check_root(n: usize, w: &[[i128; 8]; 8], tree: &ConeTree) -> Result<usize, Checked>
    requires few { n ≤ 8 }
    requires splits { All (HasSplit n) tree.now }
    requires symmetric { IsSymmetric n (at w.now) }
    ensures { FollowsAll n (at w.now) tree.now 0 200 unit_vectors result }
{
    let mut v = unit_rows();
    match narrowed(n, w) {
        Some(narrow) => {
            let mut images = images(n, &narrow, &v);
            check_small_node(n, &narrow, tree, 0, 200, &mut v, &mut images)
        }
        None => check_node(n, w, tree, 0, 200, &mut widened(&v)),
    }
}

/// Tests the lines of a tree for W: none but one whole tree of at most 200 levels, each leaf of it closed at 0.
pub fn check_tree(w: &SymInt, tree: &ConeTree) -> Result<(), Checked>
    requires { All (HasSplit w.now.size) tree.now }
    ensures passes { OnOk result (first_refusal (tree_checks w.now.size (entry w.now) tree.now) ≡ None) }
    ensures refused { IfErr result (λ refusal. first_refusal (tree_checks w.now.size (entry w.now) tree.now)
        ≡ Some refusal) }
{
    let rows = rows_of(w);
    let n = w.n();
    match check_root(n as usize, &rows, tree) {
        Ok(end) => {
            if end < tree.len() {
                return Err(Checked::TreeShape {
                    index: end as u64 + 1,
                });
            }
            Ok(())
        }
        Err(refusal) => Err(refusal),
    }
}
