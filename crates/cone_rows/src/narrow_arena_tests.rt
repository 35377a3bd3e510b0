//! Tops of lists of narrow cones that are split at a bound. The table before the tests of narrow cones has their numbers.

ghost use Rattle.std.specs.Prelude.{◌<◌, length};

use crate::matrix_tests::matrix;
use cone_arena::NarrowArena;
use std::alloc::Global;
use std::process::Abort;
use std::test::Fail;
use unimodular_cone::{ConeRead, OpenChildren, Opened, children_fit, narrow_root};

/// What is told of a split, the mediant's coordinates where it attains the bound, else zeros, and the list.
#[derive(Drop)]
struct SplitRoot {
    opened: Option<Opened>,
    mediant: [u64; 8],
    arena: NarrowArena,
}

/// Splits the root's cone of a matrix of two, which stands alone in a list.
fn split_root(
    rt: &impl Abort,
    alloc: Global,
    lower: &[i128; 3],
    bound: u64,
) -> Result<SplitRoot, Fail> {
    let q = matrix(rt, alloc, 2, lower)?;
    let root = narrow_root(&q).ok_or("not narrow")?;
    assert!(rt; root.n() == 2);
    assert!(rt; root.path().len() == 0);
    let mut arena = NarrowArena::with_cones(alloc, 2, 2)?;
    match children_fit(&root, 1, 2) {
        Some(_) => panic!(rt; "over a limit"),
        None => {
            arena.put_alone(root);
            let mut mediant = [0; 8];
            let opened = arena.split_open(1, 2, bound, &mut mediant);
            Ok(SplitRoot {
                opened,
                mediant,
                arena,
            })
        }
    }
}

/// Sees how many cones there are, and that the top is the child on a side of the root, with these Gram entries in lower triangle
/// order.
fn assert_child(rt: &impl Abort, arena: &NarrowArena, len: usize, side: u8, gram: [i128; 3])
    ensures { 0 < length arena.now.cones }
{
    assert_eq!(rt; arena.len(), len);
    assert!(rt; arena.len() > 0);
    let top = arena.top();
    assert!(rt; top.n() == 2 && top.path().len() == 1);
    assert_eq!(rt; top.path().digit(0), side);
    assert_eq!(rt; [top.gram(1, 1), top.gram(2, 1), top.gram(2, 2)], gram);
}

#[test]
fn both_children_take_the_place_of_the_top(rt: HostRuntime) -> Result<(), Fail> {
    // The mediant's value is below the bound.
    let mut split = split_root(&rt, rt.alloc(), &[2, -3, 6], 3)?;
    assert!(rt;
        matches!(
            split.opened,
            Some(Opened {
                made: OpenChildren::Below,
                attains: false
            })
        )
    );
    assert_child(&rt, &split.arena, 2, 0, [2, 3, 6]);
    split.arena.drop_top();
    assert_child(&rt, &split.arena, 1, 1, [2, -1, 2]);
    let mut split = split_root(&rt, rt.alloc(), &[1, 1, 1], 2)?;
    assert!(rt;
        matches!(
            split.opened,
            Some(Opened {
                made: OpenChildren::Both,
                attains: false
            })
        )
    );
    assert_child(&rt, &split.arena, 2, 0, [4, 2, 1]);
    split.arena.drop_top();
    assert_child(&rt, &split.arena, 1, 1, [1, 2, 4]);
    Ok(())
}

#[test]
fn one_open_child_takes_the_place_of_the_top(rt: HostRuntime) -> Result<(), Fail> {
    let split = split_root(&rt, rt.alloc(), &[7, -3, 2], 2)?;
    assert!(rt;
        matches!(
            split.opened,
            Some(Opened {
                made: OpenChildren::First,
                attains: false
            })
        )
    );
    assert_child(&rt, &split.arena, 1, 0, [3, -1, 2]);
    let split = split_root(&rt, rt.alloc(), &[2, -3, 7], 2)?;
    assert!(rt;
        matches!(
            split.opened,
            Some(Opened {
                made: OpenChildren::Second,
                attains: false
            })
        )
    );
    assert_child(&rt, &split.arena, 1, 1, [2, -1, 3]);
    Ok(())
}

#[test]
fn a_top_without_open_children_goes(rt: HostRuntime) -> Result<(), Fail> {
    let split = split_root(&rt, rt.alloc(), &[2, -3, 6], 1)?;
    assert!(rt;
        matches!(
            split.opened,
            Some(Opened {
                made: OpenChildren::Neither,
                attains: false
            })
        )
    );
    assert_eq!(rt; split.arena.len(), 0);
    Ok(())
}

// Of 2 -1 / -1 2 the mediant's value is 2, and the slacks of both children, 2 1 / 1 2 each, are 2 and 2.
#[test]
fn a_mediant_that_attains_the_bound_is_told(rt: HostRuntime) -> Result<(), Fail> {
    let split = split_root(&rt, rt.alloc(), &[2, -3, 6], 2)?;
    assert!(rt;
        matches!(
            split.opened,
            Some(Opened {
                made: OpenChildren::Second,
                attains: true
            })
        )
    );
    assert_eq!(rt; split.mediant, [1, 1, 0, 0, 0, 0, 0, 0]);
    assert_child(&rt, &split.arena, 1, 1, [2, -1, 2]);
    let split = split_root(&rt, rt.alloc(), &[2, -1, 2], 2)?;
    assert!(rt;
        matches!(
            split.opened,
            Some(Opened {
                made: OpenChildren::Neither,
                attains: true
            })
        )
    );
    assert_eq!(rt; split.mediant, [1, 1, 0, 0, 0, 0, 0, 0]);
    assert_eq!(rt; split.arena.len(), 0);
    Ok(())
}

// The mediant's value is 2^59 + 2, over the narrow limit.
#[test]
fn a_top_with_a_child_that_is_not_narrow_stays(rt: HostRuntime) -> Result<(), Fail> {
    let split = split_root(&rt, rt.alloc(), &[576460752303423488, -1, 4], 1)?;
    assert!(rt; split.opened.is_none());
    assert_eq!(rt; split.arena.len(), 1);
    assert!(rt; split.arena.len() > 0);
    let top = split.arena.top();
    assert!(rt; top.n() == 2 && top.path().len() == 0);
    assert_eq!(rt;
        [top.gram(1, 1), top.gram(2, 1), top.gram(2, 2)],
        [576460752303423488, -1, 4]
    );
    Ok(())
}
