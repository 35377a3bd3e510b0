//! The lines of one node, where the numbers are small.

ghost use Rattle.std.specs.Prelude.{◌≡◌, ◌≤◌, ◌^◌, length, OnOk, IfOk};
ghost use Rattle.std.specs.List.{All};
ghost use Rattle.exact_forms.specs.Forms.{IsSymmetric};
ghost use Rattle.certificate_checker.specs.Rows.{at, AgreeBelow};
ghost use Rattle.certificate_checker.specs.Dots.{image_rows};
ghost use Rattle.certificate_checker.specs.Small.{AreSmallBelow};
ghost use Rattle.certificate_checker.specs.Walks.{FollowsAll};
ghost use Rattle.cone_tree_certificate.specs.VerdictText.{HasSplit};

use crate::checked::Checked;
use crate::node::{check_node, line_at};
use crate::slacks::is_closed;
use crate::small::{image, is_small, sums_of, widened};
use cone_tree_certificate::{ConeTree, TreeLine};

/// Tests the lines of one node with the same numbers in 128 bits.
#[cold]
#[inline(never)]
fn check_widened(
    n: usize,
    w: &[[i64; 8]; 8],
    tree: &ConeTree,
    k: usize,
    levels: u8,
    v: &[[i64; 8]; 8],
) -> Result<usize, Checked>
    requires few { n ≤ 8 }
    requires splits { All (HasSplit n) tree.now }
    requires start { k ≤ length tree.now }
    ensures range { IfOk result (λ next. next ≤ length tree.now) }
    ensures follows { FollowsAll n (at w.now) tree.now k levels (at v.now) result }
{
    check_node(n, &widened(w), tree, k, levels, &mut widened(v))
}

/// Tests the lines of one node as `check_node` does, with the generators and their images under W in 64 bits. From the first
/// node on whose mediant is not small, `check_node` tests them.
pub fn check_small_node(
    n: usize,
    w: &[[i64; 8]; 8],
    tree: &ConeTree,
    k: usize,
    levels: u8,
    v: &mut [[i64; 8]; 8],
    images: &mut [[i64; 8]; 8],
) -> Result<usize, Checked>
    requires few { n ≤ 8 }
    requires splits { All (HasSplit n) tree.now }
    requires start { k ≤ length tree.now }
    requires matrix { AreSmallBelow n (2 ^ 40) (at w.now) }
    requires symmetric { IsSymmetric n (at w.now) }
    requires generators { AreSmallBelow n (2 ^ 19) (at v.old) }
    requires images { AgreeBelow n (at images.old) (image_rows n (at w.now) (at v.old)) }
    ensures range { IfOk result (λ next. next ≤ length tree.now) }
    ensures kept { OnOk result (v.new ≡ v.old) }
    ensures images_kept { OnOk result (images.new ≡ images.old) }
    ensures follows { FollowsAll n (at w.now) tree.now k levels (at v.old) result }
{
    if k == tree.len() {
        return Err(Checked::TreeShape { index: k as u64 });
    }
    let index = k as u64 + 1;
    match line_at(n, tree, k) {
        TreeLine::Leaf => {
            if is_closed(n, v, images) {
                Ok(k + 1)
            } else {
                Err(Checked::OpenLeaf { index })
            }
        }
        TreeLine::Split { .. } if levels == 0 => Err(Checked::TreeShape { index }),
        TreeLine::Split { i, j } => {
            let (i, j) = (i as usize - 1, j as usize - 1);
            let sums = sums_of(n, &v[i], &v[j]);
            if !is_small(n, &sums) {
                return check_widened(n, w, tree, k, levels, v);
            }
            let image = image(n, w, &sums);
            let generator = v[i];
            let its_image = images[i];
            v[i] = sums;
            images[i] = image;
            let next = check_small_node(n, w, tree, k + 1, levels - 1, v, images)?;
            v[i] = generator;
            images[i] = its_image;
            let generator = v[j];
            let its_image = images[j];
            v[j] = sums;
            images[j] = image;
            let end = check_small_node(n, w, tree, next, levels - 1, v, images)?;
            v[j] = generator;
            images[j] = its_image;
            Ok(end)
        }
    }
}
