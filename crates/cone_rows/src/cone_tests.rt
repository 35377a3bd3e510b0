//! Cones on the paths of small matrices, with numbers that were worked out by hand.

ghost use Rattle.std.specs.Prelude.{◌≡◌, ◌≤◌, ◌^◌, nat_abs, IfOk};

use std::alloc::Global;
use std::cmp::Ordering;
use std::process::Abort;
use std::test::Fail;
use symmetric_matrix::SymInt;
use unimodular_cone::{
    Cone, ConeFail, ConeRead, Path, WideAt, WideEntry, at_path, child, children_fit, closed,
    least_value, pair, root,
};

/// The matrix `a b / b c`.
fn matrix(alloc: Global, a: i128, b: i128, c: i128) -> Result<SymInt, Fail>
    requires first { nat_abs a ≤ 2 ^ 126 }
    requires beside { nat_abs b ≤ 2 ^ 126 }
    requires last { nat_abs c ≤ 2 ^ 126 }
    ensures { IfOk result (λ q. q.size ≡ 2) }
{
    Ok(SymInt::from_lower(alloc, 2, &[a, b, c])?)
}

/// The generators of a cone of two, one after the other.
fn generators(rt: &impl Abort, c: &Cone) -> [u64; 4] {
    assert_eq!(rt; c.n(), 2);
    [
        c.coordinate(1, 1),
        c.coordinate(1, 2),
        c.coordinate(2, 1),
        c.coordinate(2, 2),
    ]
}

/// The Gram entries of a cone of two, in lower triangle order.
fn gram(rt: &impl Abort, c: &Cone) -> [i128; 3] {
    assert_eq!(rt; c.n(), 2);
    [c.gram(1, 1), c.gram(2, 1), c.gram(2, 2)]
}

/// The cone at a path, by `at_path` and by `root` and `child`, which show the same numbers.
fn both_ways(rt: &impl Abort, q: &SymInt, digits: &[u8]) -> Result<Cone, Fail> {
    let mut walked = root(q)?;
    let mut path = Path::root();
    for digit in digits {
        let (i, j) = pair(&walked).ok_or("no pair")?;
        assert!(rt; *digit < 2 && path.len() < 200);
        path = path.child(*digit);
        walked = child(&walked, i, j, *digit)?;
    }
    let reached = at_path(q, &path)?;
    assert_eq!(rt; walked.path(), path);
    assert_eq!(rt; reached.path(), path);
    assert_eq!(rt; generators(rt, &walked), generators(rt, &reached));
    assert_eq!(rt; gram(rt, &walked), gram(rt, &reached));
    Ok(reached)
}

#[derive(Drop)]
struct Row {
    digits: &'static [u8],
    generators: [u64; 4],
    gram: [i128; 3],
    pair: Option<(u8, u8)>,
    closed_at_one: bool,
    closed_at_two: bool,
}

#[test]
fn cones_on_the_paths_of_a_matrix(rt: HostRuntime) -> Result<(), Fail> {
    let q = matrix(rt.alloc(), 2, -3, 6)?;
    let rows = [
        Row {
            digits: &[1],
            generators: [1, 0, 1, 1],
            gram: [2, -1, 2],
            pair: Some((1, 2)),
            closed_at_one: true,
            closed_at_two: false,
        },
        Row {
            digits: &[1, 0],
            generators: [2, 1, 1, 1],
            gram: [2, 1, 2],
            pair: None,
            closed_at_one: true,
            closed_at_two: true,
        },
        Row {
            digits: &[0],
            generators: [1, 1, 0, 1],
            gram: [2, 3, 6],
            pair: None,
            closed_at_one: true,
            closed_at_two: true,
        },
    ];
    for row in &rows {
        let cone = both_ways(&rt, &q, row.digits)?;
        assert_eq!(rt; generators(&rt, &cone), row.generators);
        assert_eq!(rt; gram(&rt, &cone), row.gram);
        assert_eq!(rt; pair(&cone), row.pair);
        assert_eq!(rt; closed(&cone, 1), row.closed_at_one);
        assert_eq!(rt; closed(&cone, 2), row.closed_at_two);
        assert_eq!(rt; least_value(&cone), 2);
    }
    Ok(())
}

/// 2^100, the limit of Gram entries.
const LARGEST: i128 = 1267650600228229401496703205376;

#[test]
fn entries_over_their_limits(rt: HostRuntime) -> Result<(), Fail> {
    let entry = WideEntry::Gram { row: 1, column: 1 };
    let cone = root(&matrix(rt.alloc(), LARGEST, -1, 4)?)?;
    assert_eq!(rt; cone.n(), 2);
    // The entry of child 0 at (1, 1) is 2^100 + 2.
    let path = Path::root().child(0);
    assert_eq!(rt; children_fit(&cone, 1, 2), Some(WideAt { path, entry }));
    let wide = root(&matrix(rt.alloc(), LARGEST + 1, 0, 0)?);
    match wide {
        Err(fail) => {
            let path = Path::root();
            assert_eq!(rt; fail, ConeFail::Wide(WideAt { path, entry }));
        }
        Ok(_) => assert!(rt; false),
    }
    Ok(())
}

/// The cone of a matrix down a path that begins with 0 and takes the other side at each cone, whose child there is the first
/// over a limit, and what of that child is. None where the first hundred fit.
fn down_to_the_limit(rt: &impl Abort, q: &SymInt) -> Result<Option<(Cone, WideAt)>, Fail> {
    let mut cone = root(q)?;
    for depth in 0..100u8 {
        assert!(rt; cone.n() == 2 && cone.path().len() < 200);
        match child(&cone, 1, 2, depth % 2) {
            Ok(next) => cone = next,
            Err(ConeFail::Wide(at)) => return Ok(Some((cone, at))),
            Err(ConeFail::OutOfMemory) => return Ok(None),
        }
    }
    Ok(None)
}

// With the zero matrix the coordinates are Fibonacci numbers. The 91st is the first over 2^62, and the 90th and the 91st are
// the coordinates of the mediant at depth 89.
#[test]
fn a_coordinate_over_its_limit(rt: HostRuntime) -> Result<(), Fail> {
    let zero = matrix(rt.alloc(), 0, 0, 0)?;
    let (cone, at) = down_to_the_limit(&rt, &zero)?.ok_or("no limit")?;
    assert_eq!(rt; cone.path().len(), 89);
    assert_eq!(rt;
        generators(&rt, &cone),
        [
            1779979416004714189,
            2880067194370816120,
            1100087778366101931,
            1779979416004714189
        ]
    );
    assert_eq!(rt; at.path.len(), 90);
    assert_eq!(rt;
        at.entry,
        WideEntry::Coordinate {
            generator: 2,
            place: 2
        }
    );
    assert!(&rt; cone.n() == 2 && cone.path().len() < 200);
    let at = children_fit(&cone, 1, 2).ok_or("both fit")?;
    assert_eq!(rt; at.path.len(), 90);
    assert_eq!(rt; at.path.digit(89), 0);
    assert_eq!(rt;
        at.entry,
        WideEntry::Coordinate {
            generator: 1,
            place: 2
        }
    );
    Ok(())
}

#[test]
fn orders_of_paths(rt: HostRuntime) {
    let zero = Path::root().child(0);
    let one = Path::root().child(1);
    let one_zero = one.child(0);
    for (left, right, place, depth) in [
        (Path::root(), zero, Ordering::Less, Ordering::Less),
        (one_zero, one, Ordering::Greater, Ordering::Greater),
        (zero.child(1), one, Ordering::Less, Ordering::Greater),
        (one_zero, one_zero, Ordering::Equal, Ordering::Equal),
    ] {
        assert_eq!(rt; left.by_place(&right), place);
        assert_eq!(rt; left.by_depth(&right), depth);
    }
    assert_eq!(rt;
        (one_zero.len(), one_zero.digit(0), one_zero.digit(1)),
        (2, 1, 0)
    );
}
