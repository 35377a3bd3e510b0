//! Splits of cones.

ghost use Rattle.std.specs.Prelude.{◌<◌, length};

use crate::draws::Draws;
use crate::matrices::matrix;
use std::alloc::{AllocError, Global};
use symmetric_matrix::SymInt;
use unimodular_cone::{Cone, ConeRead, children_fit, pair, root};

/// The depth at which a descent begins again at the root.
const DEPTH: u8 = 20;

/// The root's matrix. It is far from copositive, so that each cone down to the depth has a pair.
const TABLE: [[i64; 6]; 6] = [
    [1, -1, -1, -1, -1, -1],
    [-1, 1, -1, -1, -1, -1],
    [-1, -1, 1, -1, -1, -1],
    [-1, -1, -1, 1, -1, -1],
    [-1, -1, -1, -1, 1, -1],
    [-1, -1, -1, -1, -1, 1],
];

/// Splits cones at their pairs and goes on with one child of each, down from the root on one path after the other, and says how
/// many: `count` of them, or those before the first that can't be split. It is refused for want of memory alone.
pub fn cones(alloc: Global, count: u64) -> Result<u64, AllocError> {
    let matrix = matrix(alloc, &TABLE)?;
    let mut draws = Draws::new();
    let Ok(mut cone) = root(&matrix) else {
        return Ok(0);
    };
    for made in 0..count {
        if next(&mut cone, &matrix, draws.below(2)).is_none() {
            return Ok(made);
        }
    }
    Ok(count)
}

// Goes down from a cone, and from the root where the cone is at the depth.
fn next(cone: &mut Cone, matrix: &SymInt, side: u64) -> Option<()> {
    if cone.path().len() < DEPTH {
        return go_down(cone, side);
    }
    *cone = root(matrix).ok()?;
    go_down(cone, side)
}

// Splits a cone as the search does, and goes on with its child on a side. None where the cone has no pair, or a child doesn't
// fit.
fn go_down(cone: &mut Cone, side: u64) -> Option<()>
    requires { length cone.old.path < 200 }
{
    let (i, j) = pair(cone)?;
    let None = children_fit(cone, i, j) else {
        return None;
    };
    let zero = cone.split(i, j);
    if side == 0 {
        *cone = zero;
    }
    Some(())
}
