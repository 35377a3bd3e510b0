//! Searches by several workers, which answer what one does. The answers were worked out by hand.

ghost use Rattle.std.specs.Prelude.{◌≤◌, ◌^◌, nat_abs};

use cone_pool::{Gate, OpenGate};
use copositive_minimum::{AnySearcher, PooledSearcher};
use search_core::{Least, Searcher, Sign};
use serial_search::SerialSearcher;
use std::alloc::Global;
use std::process::Abort;
use std::test::Fail;
use std::thread;
use symmetric_matrix::{SymInt, VectorList};
use unimodular_cone::{Path, WideEntry};

/// The matrix `a b / b c`.
fn two(alloc: Global, a: i128, b: i128, c: i128) -> Result<SymInt, Fail>
    requires first { nat_abs a ≤ 2 ^ 126 }
    requires beside { nat_abs b ≤ 2 ^ 126 }
    requires last { nat_abs c ≤ 2 ^ 126 }
{
    Ok(SymInt::from_lower(alloc, 2, &[a, b, c])?)
}

/// The matrix of three rows with this lower triangle.
fn three(
    alloc: Global,
    a: i128,
    b: i128,
    c: i128,
    d: i128,
    e: i128,
    f: i128,
) -> Result<SymInt, Fail>
    requires first { nat_abs a ≤ 2 ^ 126 }
    requires second { nat_abs b ≤ 2 ^ 126 }
    requires third { nat_abs c ≤ 2 ^ 126 }
    requires fourth { nat_abs d ≤ 2 ^ 126 }
    requires fifth { nat_abs e ≤ 2 ^ 126 }
    requires last { nat_abs f ≤ 2 ^ 126 }
{
    Ok(SymInt::from_lower(alloc, 3, &[a, b, c, d, e, f])?)
}

fn assert_path(rt: &impl Abort, path: &Path, digits: &[u8]) {
    assert_eq!(rt; usize::from(path.len()), digits.len());
    for k in 0..path.len() {
        assert_eq!(rt; digits.get(usize::from(k)).copied(), Some(path.digit(k)));
    }
}

/// The vectors of a list, one after the other.
fn assert_vectors(rt: &impl Abort, vectors: &VectorList, coordinates: &[u64]) {
    let mut left = coordinates.iter();
    for k in 0..vectors.len() {
        let vector = vectors.at(k);
        for place in 0..vector.len() {
            assert_eq!(rt; left.next().copied(), Some(vector.at(place + 1)));
        }
    }
    assert!(rt; left.next().is_none());
}

fn assert_found(rt: &impl Abort, answer: &Least, least: i128, coordinates: &[u64]) {
    match answer {
        Least::Found { minimum, vectors } => {
            assert_eq!(rt; *minimum, least);
            assert_vectors(rt, vectors, coordinates);
        }
        _ => assert!(rt; false),
    }
}

fn assert_least_low(
    rt: &impl Abort,
    answer: &Least,
    least: i128,
    digits: &[u8],
    coordinates: &[u64],
) {
    match answer {
        Least::Low {
            vector,
            value,
            path,
        } => {
            assert_eq!(rt; *value, least);
            assert_path(rt, path, digits);
            assert_eq!(rt; vector.as_slice(), coordinates);
        }
        _ => assert!(rt; false),
    }
}

fn assert_bound_wide(rt: &impl Abort, answer: &Least, least: i128) {
    match answer {
        Least::BoundWide { diagonal } => assert_eq!(rt; *diagonal, least),
        _ => assert!(rt; false),
    }
}

fn assert_least_depth(rt: &impl Abort, answer: &Least, digits: &[u8]) {
    match answer {
        Least::Depth { path } => assert_path(rt, path, digits),
        _ => assert!(rt; false),
    }
}

fn assert_least_wide(rt: &impl Abort, answer: &Least, digits: &[u8]) {
    match answer {
        Least::Wide { at } => {
            assert_path(rt, &at.path, digits);
            assert_eq!(rt; at.entry, WideEntry::Gram { row: 1, column: 1 });
        }
        _ => assert!(rt; false),
    }
}

fn assert_sign_wide(rt: &impl Abort, answer: &Sign, digits: &[u8]) {
    match answer {
        Sign::Wide { at } => {
            assert_path(rt, &at.path, digits);
            assert_eq!(rt; at.entry, WideEntry::Gram { row: 1, column: 1 });
        }
        _ => assert!(rt; false),
    }
}

fn assert_copositive(rt: &impl Abort, answer: &Sign) {
    match answer {
        Sign::Copositive => {}
        _ => assert!(rt; false),
    }
}

fn assert_sign_depth(rt: &impl Abort, answer: &Sign, digits: &[u8]) {
    match answer {
        Sign::Depth { path } => assert_path(rt, path, digits),
        _ => assert!(rt; false),
    }
}

fn assert_sign_low(
    rt: &impl Abort,
    answer: &Sign,
    least: i128,
    digits: &[u8],
    coordinates: &[u64],
) {
    match answer {
        Sign::Low {
            vector,
            value,
            path,
        } => {
            assert_eq!(rt; *value, least);
            assert_path(rt, path, digits);
            assert_eq!(rt; vector.as_slice(), coordinates);
        }
        _ => assert!(rt; false),
    }
}

/// The chain of three rows: 2 on the diagonal, -1 beside it.
fn chain(alloc: Global) -> Result<SymInt, Fail> {
    three(alloc, 2, -1, 2, 0, -1, 2)
}

/// The minimal vectors of the chain: the runs of ones.
const RUNS_OF_ONES: [u64; 18] = [0, 0, 1, 0, 1, 0, 0, 1, 1, 1, 0, 0, 1, 1, 0, 1, 1, 1];

/// Least values that are found, or not within a depth.
fn assert_minima<S: Searcher>(
    rt: &impl Abort,
    alloc: Global,
    searcher: &mut S,
) -> Result<(), Fail> {
    assert_found(rt, &searcher.least(&chain(alloc)?, 60), 2, &RUNS_OF_ONES);
    let deep = three(alloc, 10, -6, 4, -7, 5, 20)?;
    assert_least_depth(rt, &searcher.least(&deep, 1), &[0]);
    assert_least_depth(rt, &searcher.least(&deep, 2), &[1, 0]);
    assert_found(rt, &searcher.least(&deep, 3), 2, &[1, 1, 0, 1, 2, 0]);
    let small = two(alloc, 2, -3, 6)?;
    assert_least_depth(rt, &searcher.least(&small, 1), &[1]);
    assert_found(rt, &searcher.least(&small, 2), 2, &[1, 0, 1, 1, 2, 1]);
    let flat = two(alloc, 1, -1, 1)?;
    assert_least_low(rt, &searcher.least(&flat, 60), 0, &[0], &[1, 1]);
    Ok(())
}

/// 2^100, the limit of Gram entries.
const LARGEST: i128 = 1267650600228229401496703205376;

/// 2^64 - 2, a least diagonal entry over its limit.
const OVER: i128 = 18446744073709551614;

/// The product of 2^63 - 1 and 2^63 - 2, a Gram entry over its limit.
const PRODUCT: i128 = 85070591730234615838173535747377725442;

/// Matrices with entries over a limit: the least on the diagonal, one of the root, and one of a child of the root.
fn assert_wide<S: Searcher>(rt: &impl Abort, alloc: Global, searcher: &mut S) -> Result<(), Fail> {
    let over = two(alloc, OVER, 1, OVER)?;
    assert_bound_wide(rt, &searcher.least(&over, 60), OVER);
    let wide = two(alloc, PRODUCT, 0, 1)?;
    assert_least_wide(rt, &searcher.least(&wide, 60), &[]);
    assert_sign_wide(rt, &searcher.sign(&wide, 60), &[]);
    // The entry of child 0 at (1, 1) is 2^100 + 2.
    let large = two(alloc, LARGEST, -1, 4)?;
    assert_least_wide(rt, &searcher.least(&large, 1), &[0]);
    assert_least_depth(rt, &searcher.least(&large, 0), &[]);
    Ok(())
}

/// Whether a value is below 0.
fn assert_signs<S: Searcher>(rt: &impl Abort, alloc: Global, searcher: &mut S) -> Result<(), Fail> {
    let edge = two(alloc, 0, 1, 0)?;
    assert_copositive(rt, &searcher.sign(&edge, 60));
    let low = two(alloc, 2, -1, 0)?;
    assert_sign_low(rt, &searcher.sign(&low, 60), -2, &[0, 0], &[1, 2]);
    assert_sign_depth(rt, &searcher.sign(&low, 1), &[0]);
    let ray = two(alloc, 0, -1, 2)?;
    assert_sign_low(rt, &searcher.sign(&ray, 60), -2, &[1, 0], &[2, 1]);
    assert_sign_depth(rt, &searcher.sign(&ray, 1), &[1]);
    Ok(())
}

#[test]
fn any_number_of_workers(rt: HostRuntime) -> Result<(), Fail> {
    let alloc = rt.alloc();
    for workers in [1, 2, 4, 8, 16] {
        let mut searcher = PooledSearcher::new(&rt, alloc, workers, &OpenGate);
        assert_minima(&rt, alloc, &mut searcher)?;
        assert_wide(&rt, alloc, &mut searcher)?;
        assert_signs(&rt, alloc, &mut searcher)?;
    }
    Ok(())
}

/// Some of these searches end alone, and some are shared after a few turns.
#[test]
fn searches_that_begin_alone(rt: HostRuntime) -> Result<(), Fail> {
    let alloc = rt.alloc();
    for turns in [1, 2, 3, 5, 1000] {
        let mut searcher = PooledSearcher::new(&rt, alloc, 2, &OpenGate).beginning_alone(turns);
        assert_minima(&rt, alloc, &mut searcher)?;
        assert_wide(&rt, alloc, &mut searcher)?;
        assert_signs(&rt, alloc, &mut searcher)?;
    }
    Ok(())
}

#[test]
fn either_searcher(rt: HostRuntime) -> Result<(), Fail> {
    let alloc = rt.alloc();
    let mut serial: AnySearcher<HostRuntime, OpenGate> = AnySearcher::Serial(SerialSearcher::new(
        alloc,
    ));
    assert_minima(&rt, alloc, &mut serial)?;
    assert_wide(&rt, alloc, &mut serial)?;
    assert_signs(&rt, alloc, &mut serial)?;
    let mut pooled: AnySearcher<HostRuntime, OpenGate> = AnySearcher::Pooled(PooledSearcher::new(
        &rt, alloc, 2, &OpenGate,
    ));
    assert_minima(&rt, alloc, &mut pooled)?;
    assert_wide(&rt, alloc, &mut pooled)?;
    assert_signs(&rt, alloc, &mut pooled)?;
    Ok(())
}

/// A gate at which the second of each two workers lets others go first.
struct Yielding;

impl Gate for Yielding {
    fn pass(&self, worker: usize, _turn: u64) {
        if worker.is_multiple_of(2) {
            thread::yield_now();
        }
    }
}

#[test]
fn a_gate_that_yields(rt: HostRuntime) -> Result<(), Fail> {
    let alloc = rt.alloc();
    let mut searcher = PooledSearcher::new(&rt, alloc, 4, &Yielding);
    assert_found(&rt, &searcher.least(&chain(alloc)?, 60), 2, &RUNS_OF_ONES);
    let low = two(alloc, 2, -1, 0)?;
    assert_sign_low(&rt, &searcher.sign(&low, 60), -2, &[0, 0], &[1, 2]);
    Ok(())
}
