//! Narrow cones of small matrices and their children that are open at a bound, with numbers that were worked out by hand.
//!
//! Of each matrix `a b / b c`: the value of its mediant, a + 2b + c, child 0 with the mediant in the place of the first generator
//! and child 1 with it in the place of the second, both by their lower triangles, and the slacks of their two generators. A child
//! is closed at a bound where both slacks are at least the bound.
//!
//!     matrix    value   child 0   slacks   child 1   slacks
//!     2 -3 6      2      2 3 6     2 6      2 -1 2    1 1
//!     2 -3 7      3      3 4 7     3 7      2 -1 3    1 2
//!     7 -3 2      3      3 -1 2    2 1      7 4 3     7 3
//!     1 1 1       4      4 2 1     4 1      1 2 4     1 4

use crate::matrix_tests::matrix;
use std::alloc::Global;
use std::process::Abort;
use std::test::Fail;
use unimodular_cone::{ConeRead, ConeTests, OpenChildren, Opened, SlackCone, narrow_root};

/// The root's cone of the matrix of n rows with this lower triangle.
fn root_of(rt: &impl Abort, alloc: Global, n: u8, lower: &[i128]) -> Result<SlackCone, Fail> {
    let q = matrix(rt, alloc, n, lower)?;
    Ok(SlackCone::of(narrow_root(&q).ok_or("not narrow")?))
}

/// The Gram entries of a cone of two, in lower triangle order.
fn gram(rt: &impl Abort, c: &SlackCone) -> [i128; 3] {
    assert_eq!(rt; c.n(), 2);
    [c.gram(1, 1), c.gram(2, 1), c.gram(2, 2)]
}

/// The generators of a cone of two, one after the other.
fn generators(rt: &impl Abort, c: &SlackCone) -> [u64; 4] {
    assert_eq!(rt; c.n(), 2);
    [
        c.coordinate(1, 1),
        c.coordinate(1, 2),
        c.coordinate(2, 1),
        c.coordinate(2, 2),
    ]
}

/// Splits a cone whose children fit on the sides of its first two generators, and gives back what is told of it, and the cone that
/// stands above it then. A mediant that attains the bound is to have the coordinates 1, 1 and zeros. None where a child is not
/// narrow.
fn split(rt: &impl Abort, cone: &mut SlackCone, bound: u64) -> Option<(Opened, SlackCone)> {
    let mut above = cone.copy();
    assert!(rt; cone.n() >= 2 && cone.path().len() < 200);
    match cone.children_fit(1, 2) {
        Some(_) => panic!(rt; "over a limit"),
        None => {
            let mut mediant = [0; 8];
            let opened = cone.split_open(&mut above, 1, 2, bound, &mut mediant)?;
            if opened.attains {
                assert_eq!(rt; mediant, [1, 1, 0, 0, 0, 0, 0, 0]);
            }
            Some((opened, above))
        }
    }
}

#[test]
fn both_children_of_a_mediant_below_the_bound(rt: HostRuntime) -> Result<(), Fail> {
    let mut second = root_of(&rt, rt.alloc(), 2, &[2, -3, 6])?;
    assert_eq!(rt; second.pair(), Some((1, 2)));
    assert_eq!(rt; second.least_value(), 2);
    assert!(rt; !second.closed(1));
    let (opened, first) = split(&rt, &mut second, 3).ok_or("not narrow")?;
    assert!(rt;
        matches!(
            opened,
            Opened {
                made: OpenChildren::Below,
                attains: false
            }
        )
    );
    assert_eq!(rt; gram(&rt, &first), [2, 3, 6]);
    assert_eq!(rt; generators(&rt, &first), [1, 1, 0, 1]);
    assert_eq!(rt; (first.path().len(), first.pair()), (1, None));
    assert!(rt; first.closed(2) && !first.closed(3));
    assert_eq!(rt; gram(&rt, &second), [2, -1, 2]);
    assert_eq!(rt; generators(&rt, &second), [1, 0, 1, 1]);
    assert!(rt; second.closed(1) && !second.closed(2));
    Ok(())
}

#[test]
fn both_open_children(rt: HostRuntime) -> Result<(), Fail> {
    let mut second = root_of(&rt, rt.alloc(), 2, &[1, 1, 1])?;
    let (opened, first) = split(&rt, &mut second, 2).ok_or("not narrow")?;
    assert!(rt;
        matches!(
            opened,
            Opened {
                made: OpenChildren::Both,
                attains: false
            }
        )
    );
    assert_eq!(rt; gram(&rt, &first), [4, 2, 1]);
    assert_eq!(rt; gram(&rt, &second), [1, 2, 4]);
    assert!(rt; first.closed(1) && !first.closed(2));
    assert!(rt; second.closed(1) && !second.closed(2));
    Ok(())
}

// Child 1 is closed.
#[test]
fn child_0_alone(rt: HostRuntime) -> Result<(), Fail> {
    let mut row = root_of(&rt, rt.alloc(), 2, &[7, -3, 2])?;
    let (opened, _) = split(&rt, &mut row, 2).ok_or("not narrow")?;
    assert!(rt;
        matches!(
            opened,
            Opened {
                made: OpenChildren::First,
                attains: false
            }
        )
    );
    assert_eq!(rt; gram(&rt, &row), [3, -1, 2]);
    assert_eq!(rt; generators(&rt, &row), [1, 1, 0, 1]);
    assert!(rt; row.closed(1) && !row.closed(2));
    Ok(())
}

// Child 0 is closed.
#[test]
fn child_1_alone(rt: HostRuntime) -> Result<(), Fail> {
    let mut row = root_of(&rt, rt.alloc(), 2, &[2, -3, 7])?;
    let (opened, _) = split(&rt, &mut row, 2).ok_or("not narrow")?;
    assert!(rt;
        matches!(
            opened,
            Opened {
                made: OpenChildren::Second,
                attains: false
            }
        )
    );
    assert_eq!(rt; gram(&rt, &row), [2, -1, 3]);
    assert_eq!(rt; generators(&rt, &row), [1, 0, 1, 1]);
    assert!(rt; row.closed(1) && !row.closed(2));
    Ok(())
}

// The mediant attains the bound, and child 1 is closed at it.
#[test]
fn child_0_alone_of_a_mediant_at_the_bound(rt: HostRuntime) -> Result<(), Fail> {
    let mut row = root_of(&rt, rt.alloc(), 2, &[7, -3, 2])?;
    let (opened, _) = split(&rt, &mut row, 3).ok_or("not narrow")?;
    assert!(rt;
        matches!(
            opened,
            Opened {
                made: OpenChildren::First,
                attains: true
            }
        )
    );
    assert_eq!(rt; gram(&rt, &row), [3, -1, 2]);
    Ok(())
}

// The slacks of child 1 are just the bound.
#[test]
fn no_open_child(rt: HostRuntime) -> Result<(), Fail> {
    let mut row = root_of(&rt, rt.alloc(), 2, &[2, -3, 6])?;
    let (opened, _) = split(&rt, &mut row, 1).ok_or("not narrow")?;
    assert!(rt;
        matches!(
            opened,
            Opened {
                made: OpenChildren::Neither,
                attains: false
            }
        )
    );
    Ok(())
}

// The matrix 4 -3 -3 / -3 5 2 / -3 2 5. The mediant's products with the generators are 1, 2 and -1, and its value is 3. The
// slacks of child 0, `3 2 -1 / 2 5 2 / -1 2 5`, are 2, 5 and 4; those of child 1, `4 1 -3 / 1 3 -1 / -3 -1 5`, are 1, 2 and 1.
#[test]
fn a_third_generator(rt: HostRuntime) -> Result<(), Fail> {
    let mut row = root_of(&rt, rt.alloc(), 3, &[4, -3, 5, -3, 2, 5])?;
    let (opened, _) = split(&rt, &mut row, 2).ok_or("not narrow")?;
    assert!(rt;
        matches!(
            opened,
            Opened {
                made: OpenChildren::Second,
                attains: false
            }
        )
    );
    assert!(rt; row.closed(1) && !row.closed(2));
    // At 3 the mediant attains the bound.
    let mut row = root_of(&rt, rt.alloc(), 3, &[4, -3, 5, -3, 2, 5])?;
    let (opened, first) = split(&rt, &mut row, 3).ok_or("not narrow")?;
    assert!(rt;
        matches!(
            opened,
            Opened {
                made: OpenChildren::Both,
                attains: true
            }
        )
    );
    assert!(rt; first.closed(2) && !first.closed(3));
    assert!(rt; row.closed(1) && !row.closed(2));
    Ok(())
}

/// 2^59, the narrow limit.
const LARGEST: i128 = 576460752303423488;

#[test]
fn numbers_over_the_narrow_limit(rt: HostRuntime) -> Result<(), Fail> {
    let alloc = rt.alloc();
    assert!(rt; narrow_root(&matrix(&rt, alloc, 2, &[LARGEST + 1, 0, 0])?).is_none());
    assert!(rt; narrow_root(&matrix(&rt, alloc, 2, &[0, 0 - LARGEST - 1, 0])?).is_none());
    // The entry of child 0 at (1, 1) is 2^59 + 2.
    let mut cone = root_of(&rt, alloc, 2, &[LARGEST, -1, 4])?;
    assert!(rt; split(&rt, &mut cone, 1).is_none());
    assert_eq!(rt; gram(&rt, &cone), [LARGEST, -1, 4]);
    assert!(rt; !cone.closed(LARGEST + 1));
    // It is 2^59, and so is that of child 1 at (2, 2). A bound over it lets each mediant through.
    let mut cone = root_of(&rt, alloc, 2, &[LARGEST - 2, -1, 4])?;
    let (opened, first) = split(&rt, &mut cone, u64::MAX).ok_or("not narrow")?;
    assert!(rt;
        matches!(
            opened,
            Opened {
                made: OpenChildren::Below,
                attains: false
            }
        )
    );
    assert_eq!(rt; gram(&rt, &first), [LARGEST, 3, 4]);
    assert_eq!(rt; gram(&rt, &cone), [LARGEST - 2, LARGEST - 3, LARGEST]);
    Ok(())
}
