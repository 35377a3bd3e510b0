//! Small lists of cones, with numbers that were worked out by hand.

ghost use Rattle.std.specs.Prelude.{◌≡◌, ◌<◌, ◌≤◌, ◌^◌, [], nat_abs, length, IfOk};
ghost use Rattle.cone_arena.specs.Arena.{MaySplit, HasRoot, IsTopReplaced};

use cone_arena::ConeArena;
use std::alloc::Global;
use std::process::Abort;
use std::test::Fail;
use symmetric_matrix::SymInt;
use unimodular_cone::{ConeRead, Path, WideAt, WideEntry};

/// The matrix `a b / b c`.
fn matrix(alloc: Global, a: i128, b: i128, c: i128) -> Result<SymInt, Fail>
    requires first { nat_abs a ≤ 2 ^ 126 }
    requires beside { nat_abs b ≤ 2 ^ 126 }
    requires last { nat_abs c ≤ 2 ^ 126 }
    ensures { IfOk result (λ q. q.size ≡ 2) }
{
    Ok(SymInt::from_lower(alloc, 2, &[a, b, c])?)
}

/// Puts the root's cone into the empty list, or ends the test.
fn put_root(rt: &impl Abort, arena: &mut ConeArena, q: &SymInt)
    requires empty { arena.old.cones ≡ [] }
    requires size { q.now.size ≡ arena.old.size }
    ensures { HasRoot q.now arena.old arena.new }
{
    match arena.push_root(q) {
        Ok(()) => {}
        Err(_) => panic!(rt; "wide"),
    }
}

/// Splits the top on the sides of its two generators, or ends the test.
fn split(rt: &impl Abort, arena: &mut ConeArena)
    requires { MaySplit arena.old 1 2 }
    ensures { IsTopReplaced arena.old 1 2 arena.new }
{
    match arena.split_top(1, 2) {
        Ok(()) => {}
        Err(_) => panic!(rt; "wide"),
    }
}

/// Sees how many cones there are, the digits of the top's path and its Gram entries in lower triangle order.
fn assert_top(rt: &impl Abort, arena: &ConeArena, len: usize, digits: &[u8], gram: [i128; 3])
    requires some { 0 < length arena.now.cones }
    requires size { arena.now.size ≡ 2 }
{
    assert_eq!(rt; arena.len(), len);
    let top = arena.top();
    let path = top.path();
    assert_eq!(rt; usize::from(path.len()), digits.len());
    for k in 0..path.len() {
        assert_eq!(rt; digits.get(usize::from(k)).copied(), Some(path.digit(k)));
    }
    assert_eq!(rt; [top.gram(1, 1), top.gram(2, 1), top.gram(2, 2)], gram);
}

#[test]
fn a_top_is_split_in_place(rt: HostRuntime) -> Result<(), Fail> {
    let alloc = rt.alloc();
    let q = matrix(alloc, 2, -3, 6)?;
    let mut arena = ConeArena::with_cones(alloc, 2, 2)?;
    assert_eq!(rt; arena.len(), 0);
    put_root(&rt, &mut arena, &q);
    assert_top(&rt, &arena, 1, &[], [2, -3, 6]);
    split(&rt, &mut arena);
    assert_top(&rt, &arena, 2, &[0], [2, 3, 6]);
    arena.drop_top();
    assert_top(&rt, &arena, 1, &[1], [2, -1, 2]);
    Ok(())
}

// The second root and its children are written over the first ones.
#[test]
fn rows_are_used_again(rt: HostRuntime) -> Result<(), Fail> {
    let alloc = rt.alloc();
    let mut arena = ConeArena::with_cones(alloc, 2, 2)?;
    put_root(&rt, &mut arena, &matrix(alloc, 2, -3, 6)?);
    split(&rt, &mut arena);
    arena.drop_top();
    arena.drop_top();
    put_root(&rt, &mut arena, &matrix(alloc, 4, -1, 1)?);
    assert_top(&rt, &arena, 1, &[], [4, -1, 1]);
    split(&rt, &mut arena);
    assert_top(&rt, &arena, 2, &[0], [3, 0, 1]);
    arena.drop_top();
    assert_top(&rt, &arena, 1, &[1], [4, 3, 3]);
    Ok(())
}

/// 2^100, the limit of Gram entries.
const LARGEST: i128 = 1267650600228229401496703205376;

#[test]
fn entries_over_their_limits(rt: HostRuntime) -> Result<(), Fail> {
    let alloc = rt.alloc();
    let entry = WideEntry::Gram { row: 1, column: 1 };
    let mut arena = ConeArena::with_cones(alloc, 2, 1)?;
    let path = Path::root();
    let wide = matrix(alloc, LARGEST + 1, 0, 0)?;
    assert_eq!(rt; arena.push_root(&wide), Err(WideAt { path, entry }));
    assert_eq!(rt; arena.len(), 0);
    // The entry of child 0 at (1, 1) is 2^100 + 2.
    put_root(&rt, &mut arena, &matrix(alloc, LARGEST, -1, 4)?);
    let path = path.child(0);
    assert_eq!(rt; arena.split_top(1, 2), Err(WideAt { path, entry }));
    assert_top(&rt, &arena, 1, &[], [LARGEST, -1, 4]);
    Ok(())
}
