//! The lines of one node.

ghost use Rattle.std.specs.Prelude.{◌≡◌, ◌≤◌, ◌<◌, ◌+ℤ◌, length, slice_get, OnOk, IfOk, IfErr, Some, None};
ghost use Rattle.std.specs.List.{All};
ghost use Rattle.symmetric_matrix.specs.Owed.{first_owed};
ghost use Rattle.symmetric_matrix.specs.Operations.{is_owed};
ghost use Rattle.certificate_checker.specs.Checks.{first_refusal};
ghost use Rattle.certificate_checker.specs.Rows.{at, AreFirst};
ghost use Rattle.certificate_checker.specs.Leaves.{leaf_checks};
ghost use Rattle.certificate_checker.specs.Tree.{mediant_ops};
ghost use Rattle.certificate_checker.specs.Walks.{FollowsAll};
ghost use Rattle.cone_tree_certificate.specs.VerdictText.{HasSplit};

use crate::checked::Checked;
use crate::closing::is_closed;
use cone_tree_certificate::{ConeTree, TreeLine};
use symmetric_matrix::{IntOp, int_add};

/// Tests the leaf of the line with this index, which counts from 1.
fn check_leaf(n: usize, w: &[[i128; 8]; 8], v: &[[i128; 8]; 8], index: u64) -> Result<(), Checked>
    requires { n ≤ 8 }
    ensures passes { OnOk result (first_refusal (leaf_checks n (at w.now) (at v.now) index) ≡ None) }
    ensures refused { IfErr result (λ refusal. first_refusal (leaf_checks n (at w.now) (at v.now) index)
        ≡ Some refusal) }
{
    match is_closed(n, w, v) {
        Ok(true) => Ok(()),
        Ok(false) => Err(Checked::OpenLeaf { index }),
        Err(op) => Err(Checked::Wide { op }),
    }
}

/// The sum of two generators, which count from 0, or the first addition that does not fit.
fn mediant(n: usize, v: &[[i128; 8]; 8], i: usize, j: usize) -> Result<[i128; 8], IntOp>
    requires few { n ≤ 8 }
    requires first { i < n }
    requires second { j < n }
    ensures fits { OnOk result (first_owed is_owed (mediant_ops n (at v.now) i j) ≡ None) }
    ensures value { IfOk result (λ sums. AreFirst n sums (λ p. at v.now i p +ℤ at v.now j p)) }
    ensures wide { IfErr result (λ op. first_owed is_owed (mediant_ops n (at v.now) i j) ≡ Some op) }
{
    let mut sums = [0; 8];
    for p in 0..n {
        sums[p] = int_add(v[i][p], v[j][p])?;
    }
    Ok(sums)
}

/// The line at an index, which counts from 0.
pub fn line_at(n: usize, tree: &ConeTree, k: usize) -> TreeLine
    requires splits { All (HasSplit n) tree.now }
    requires range { k < length tree.now }
    ensures line { slice_get tree.now k ≡ Some result }
    ensures split { HasSplit n result }
{
    *tree.at(k)
}

/// Tests the lines of one node with the generators v, from the line at index k on, which counts from 0. The index of the line
/// after them is answered, and then v is as before.
pub fn check_node(
    n: usize,
    w: &[[i128; 8]; 8],
    tree: &ConeTree,
    k: usize,
    levels: u8,
    v: &mut [[i128; 8]; 8],
) -> Result<usize, Checked>
    requires few { n ≤ 8 }
    requires splits { All (HasSplit n) tree.now }
    requires start { k ≤ length tree.now }
    ensures range { IfOk result (λ next. next ≤ length tree.now) }
    ensures kept { OnOk result (v.new ≡ v.old) }
    ensures follows { FollowsAll n (at w.now) tree.now k levels (at v.old) result }
{
    if k == tree.len() {
        return Err(Checked::TreeShape { index: k as u64 });
    }
    match line_at(n, tree, k) {
        TreeLine::Leaf => match check_leaf(n, w, v, k as u64 + 1) {
            Ok(()) => Ok(k + 1),
            Err(refusal) => Err(refusal),
        },
        TreeLine::Split { i, j } => {
            if levels == 0 {
                return Err(Checked::TreeShape {
                    index: k as u64 + 1,
                });
            }
            let (i, j) = (i as usize - 1, j as usize - 1);
            let sums = match mediant(n, v, i, j) {
                Ok(sums) => sums,
                Err(op) => return Err(Checked::Wide { op }),
            };
            let before = v[i];
            v[i] = sums;
            let next = match check_node(n, w, tree, k + 1, levels - 1, v) {
                Ok(next) => next,
                Err(refusal) => return Err(refusal),
            };
            v[i] = before;
            let before = v[j];
            v[j] = sums;
            let end = match check_node(n, w, tree, next, levels - 1, v) {
                Ok(end) => end,
                Err(refusal) => return Err(refusal),
            };
            v[j] = before;
            Ok(end)
        }
    }
}
