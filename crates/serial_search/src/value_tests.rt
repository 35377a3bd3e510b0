//! Least values without their vectors: answers that were worked out by hand, and the searcher's beside them.

ghost use Rattle.std.specs.Prelude.{◌≤◌};

use crate::tests::{LARGEST, assert_path, assert_vector, three, two};
use crate::{SerialSearcher, ValueOnly, least_value_in};
use cone_arena::ConeArena;
use search_core::{Least, Searcher};
use std::alloc::Global;
use std::process::Abort;
use std::test::Fail;
use symmetric_matrix::SymInt;
use unimodular_cone::WideEntry;

/// The least value of a matrix, over an arena of its own.
fn value_of(alloc: Global, q: &SymInt, limit: u8) -> Result<ValueOnly, Fail>
    requires { limit ≤ 200 }
{
    let mut arena = ConeArena::with_cones(alloc, q.n(), limit)?;
    Ok(least_value_in(&mut arena, q, limit))
}

fn assert_found(rt: &impl Abort, answer: &ValueOnly, least: i128) {
    match answer {
        ValueOnly::Found { minimum } => assert_eq!(rt; *minimum, least),
        _ => assert!(rt; false),
    }
}

fn assert_depth(rt: &impl Abort, answer: &ValueOnly, digits: &[u8]) {
    match answer {
        ValueOnly::Depth { path } => assert_path(rt, path, digits),
        _ => assert!(rt; false),
    }
}

fn assert_wide(rt: &impl Abort, answer: &ValueOnly, digits: &[u8]) {
    match answer {
        ValueOnly::Wide { at } => {
            assert_path(rt, &at.path, digits);
            assert_eq!(rt; at.entry, WideEntry::Gram { row: 1, column: 1 });
        }
        _ => assert!(rt; false),
    }
}

#[test]
fn depths_and_a_minimum(rt: HostRuntime) -> Result<(), Fail> {
    let alloc = rt.alloc();
    let deep = three(alloc, 10, -6, 4, -7, 5, 20)?;
    assert_depth(&rt, &value_of(alloc, &deep, 1)?, &[0]);
    assert_depth(&rt, &value_of(alloc, &deep, 2)?, &[1, 0]);
    assert_found(&rt, &value_of(alloc, &deep, 3)?, 2);
    Ok(())
}

#[test]
fn a_low_vector(rt: HostRuntime) -> Result<(), Fail> {
    let alloc = rt.alloc();
    match value_of(alloc, &two(alloc, 1, -1, 1)?, 60)? {
        ValueOnly::Low {
            vector,
            value,
            path,
        } => {
            assert_eq!(&rt; value, 0);
            assert_path(&rt, &path, &[0]);
            assert_vector(&rt, &vector, &[1, 1]);
        }
        _ => assert!(&rt; false),
    }
    Ok(())
}

/// 2^64 - 2, the least diagonal entry of a matrix with nothing below 2^63.
const DIAGONAL: i128 = 18446744073709551614;

#[test]
fn values_over_their_limits(rt: HostRuntime) -> Result<(), Fail> {
    let alloc = rt.alloc();
    match value_of(alloc, &two(alloc, DIAGONAL, 1, DIAGONAL)?, 60)? {
        ValueOnly::BoundWide { diagonal } => assert_eq!(&rt; diagonal, DIAGONAL),
        _ => assert!(&rt; false),
    }
    assert_wide(
        &rt,
        &value_of(alloc, &two(alloc, LARGEST, -1, 4)?, 1)?,
        &[0],
    );
    assert_wide(
        &rt,
        &value_of(alloc, &two(alloc, LARGEST + 1, 0, 1)?, 60)?,
        &[],
    );
    Ok(())
}

#[test]
fn an_arena_serves_again(rt: HostRuntime) -> Result<(), Fail> {
    let alloc = rt.alloc();
    let deep = three(alloc, 10, -6, 4, -7, 5, 20)?;
    let mut arena = ConeArena::with_cones(alloc, deep.n(), 3)?;
    assert_depth(&rt, &least_value_in(&mut arena, &deep, 2), &[1, 0]);
    assert_eq!(&rt; arena.len(), 0);
    assert_found(&rt, &least_value_in(&mut arena, &deep, 3), 2);
    assert_eq!(&rt; arena.len(), 0);
    Ok(())
}

/// That the searcher's answer, its list left out, is this one.
fn assert_same(rt: &impl Abort, least: &Least, answer: &ValueOnly) {
    match (least, answer) {
        (Least::Found { minimum, .. }, ValueOnly::Found { minimum: alone }) => {
            assert_eq!(rt; *minimum, *alone);
        }
        (
            Least::Low {
                vector,
                value,
                path,
            },
            ValueOnly::Low {
                vector: vector_alone,
                value: value_alone,
                path: path_alone,
            },
        ) => {
            assert_vector(rt, vector_alone, vector.as_slice());
            assert_eq!(rt; *value, *value_alone);
            assert_eq!(rt; *path, *path_alone);
        }
        (Least::Depth { path }, ValueOnly::Depth { path: alone }) => {
            assert_eq!(rt; *path, *alone);
        }
        (Least::Wide { at }, ValueOnly::Wide { at: alone }) => assert_eq!(rt; *at, *alone),
        (Least::BoundWide { diagonal }, ValueOnly::BoundWide { diagonal: alone }) => {
            assert_eq!(rt; *diagonal, *alone);
        }
        _ => assert!(rt; false),
    }
}

/// That the two agree on a matrix at the first limits.
fn assert_agreement(rt: &impl Abort, alloc: Global, q: &SymInt) -> Result<(), Fail> {
    let mut searcher = SerialSearcher::new(alloc);
    for limit in 0..6 {
        assert_same(rt, &searcher.least(q, limit), &value_of(alloc, q, limit)?);
    }
    Ok(())
}

#[test]
fn the_searcher_agrees(rt: HostRuntime) -> Result<(), Fail> {
    let alloc = rt.alloc();
    assert_agreement(&rt, alloc, &three(alloc, 2, -1, 2, 0, -1, 2)?)?;
    assert_agreement(&rt, alloc, &three(alloc, 10, -6, 4, -7, 5, 20)?)?;
    assert_agreement(&rt, alloc, &three(alloc, 7, -5, 4, -4, 3, 3)?)?;
    assert_agreement(&rt, alloc, &three(alloc, 5, -9, 17, 2, -8, 6)?)?;
    assert_agreement(&rt, alloc, &three(alloc, 3, -4, 6, 1, -5, 4)?)?;
    assert_agreement(&rt, alloc, &two(alloc, 2, -3, 6)?)?;
    assert_agreement(&rt, alloc, &two(alloc, 8, -13, 21)?)?;
    assert_agreement(&rt, alloc, &two(alloc, 1, -1, 1)?)?;
    assert_agreement(&rt, alloc, &two(alloc, 0, -1, 2)?)?;
    assert_agreement(&rt, alloc, &two(alloc, LARGEST, -1, 4)?)?;
    assert_agreement(&rt, alloc, &two(alloc, DIAGONAL, 1, DIAGONAL)?)?;
    Ok(())
}
