//! Searches of small matrices, with answers that were worked out by hand.

ghost use Rattle.std.specs.Prelude.{◌≡◌, ◌≤◌, ◌^◌, nat_abs};

use crate::SerialSearcher;
use crate::narrow_search::search_narrow;
use crate::plain::{plain_least, plain_sign};
use crate::searcher::bound_wide;
use search_core::{Least, Mode, Searcher, Sign};
use std::alloc::Global;
use std::process::Abort;
use std::test::Fail;
use symmetric_matrix::{IntVector, SymInt, VectorList};
use unimodular_cone::{Path, WideEntry};

/// The matrix `a b / b c`.
pub(crate) fn two(alloc: Global, a: i128, b: i128, c: i128) -> Result<SymInt, Fail>
    requires first { nat_abs a ≤ 2 ^ 126 }
    requires beside { nat_abs b ≤ 2 ^ 126 }
    requires last { nat_abs c ≤ 2 ^ 126 }
{
    Ok(SymInt::from_lower(alloc, 2, &[a, b, c])?)
}

/// The matrix of three rows with this lower triangle.
pub(crate) fn three(
    alloc: Global,
    a: i128,
    b: i128,
    c: i128,
    d: i128,
    e: i128,
    f: i128,
) -> Result<SymInt, Fail>
    requires first { nat_abs a ≤ 2 ^ 126 }
    requires second { nat_abs b ≤ 2 ^ 126 }
    requires third { nat_abs c ≤ 2 ^ 126 }
    requires fourth { nat_abs d ≤ 2 ^ 126 }
    requires fifth { nat_abs e ≤ 2 ^ 126 }
    requires last { nat_abs f ≤ 2 ^ 126 }
{
    Ok(SymInt::from_lower(alloc, 3, &[a, b, c, d, e, f])?)
}

pub(crate) fn assert_path(rt: &impl Abort, path: &Path, digits: &[u8]) {
    assert_eq!(rt; usize::from(path.len()), digits.len());
    for k in 0..path.len() {
        assert_eq!(rt; digits.get(usize::from(k)).copied(), Some(path.digit(k)));
    }
}

pub(crate) fn assert_vector(rt: &impl Abort, vector: &IntVector, coordinates: &[u64]) {
    assert_eq!(rt; vector.as_slice(), coordinates);
}

/// The vectors of a list, one after the other.
fn assert_vectors(rt: &impl Abort, vectors: &VectorList, coordinates: &[u64]) {
    let mut left = coordinates.iter();
    for k in 0..vectors.len() {
        let vector = vectors.at(k);
        for place in 0..vector.len() {
            assert_eq!(rt; left.next().copied(), Some(vector.at(place + 1)));
        }
    }
    assert!(rt; left.next().is_none());
}

fn assert_found(rt: &impl Abort, answer: &Least, least: i128, coordinates: &[u64]) {
    match answer {
        Least::Found { minimum, vectors } => {
            assert_eq!(rt; *minimum, least);
            assert_vectors(rt, vectors, coordinates);
        }
        _ => assert!(rt; false),
    }
}

fn assert_least_depth(rt: &impl Abort, answer: &Least, digits: &[u8]) {
    match answer {
        Least::Depth { path } => assert_path(rt, path, digits),
        _ => assert!(rt; false),
    }
}

fn assert_sign_depth(rt: &impl Abort, answer: &Sign, digits: &[u8]) {
    match answer {
        Sign::Depth { path } => assert_path(rt, path, digits),
        _ => assert!(rt; false),
    }
}

fn assert_least_wide(rt: &impl Abort, answer: &Least, digits: &[u8]) {
    match answer {
        Least::Wide { at } => {
            assert_path(rt, &at.path, digits);
            assert_eq!(rt; at.entry, WideEntry::Gram { row: 1, column: 1 });
        }
        _ => assert!(rt; false),
    }
}

fn assert_sign_low(
    rt: &impl Abort,
    answer: &Sign,
    least: i128,
    digits: &[u8],
    coordinates: &[u64],
) {
    match answer {
        Sign::Low {
            vector,
            value,
            path,
        } => {
            assert_eq!(rt; *value, least);
            assert_path(rt, path, digits);
            assert_vector(rt, vector, coordinates);
        }
        _ => assert!(rt; false),
    }
}

#[test]
fn least_values(rt: HostRuntime) -> Result<(), Fail> {
    let alloc = rt.alloc();
    let mut searcher = SerialSearcher::new(alloc);
    let chain = three(alloc, 2, -1, 2, 0, -1, 2)?;
    let vectors = [0, 0, 1, 0, 1, 0, 0, 1, 1, 1, 0, 0, 1, 1, 0, 1, 1, 1];
    assert_found(&rt, &searcher.least(&chain, 60), 2, &vectors);
    let deep = three(alloc, 10, -6, 4, -7, 5, 20)?;
    assert_least_depth(&rt, &searcher.least(&deep, 1), &[0]);
    assert_least_depth(&rt, &searcher.least(&deep, 2), &[1, 0]);
    assert_found(&rt, &searcher.least(&deep, 3), 2, &[1, 1, 0, 1, 2, 0]);
    let small = two(alloc, 2, -3, 6)?;
    assert_least_depth(&rt, &searcher.least(&small, 1), &[1]);
    assert_found(&rt, &searcher.least(&small, 2), 2, &[1, 0, 1, 1, 2, 1]);
    Ok(())
}

/// How many judgements a search for the least value over narrow cones keeps, and how many vectors it has noted in the end. None
/// where there is no such search.
fn kept_and_noted(alloc: Global, q: &SymInt, limit: u8) -> Result<Option<(usize, usize)>, Fail>
    requires { limit ≤ 200 }
{
    match bound_wide(q) {
        Some(_) => Ok(None),
        None => match search_narrow(alloc, Mode::Least, q, limit)? {
            Some(found) => Ok(Some((found.judged.len(), found.attaining.len()))),
            None => Ok(None),
        },
    }
}

// Seven cones are judged, none of them low or an end. (1, 1) is noted at its turn, and forgotten for (2, 1) and (3, 2), which are
// new in the children 0 below.
#[test]
fn mediants_attain_the_minimum(rt: HostRuntime) -> Result<(), Fail> {
    let alloc = rt.alloc();
    let mut searcher = SerialSearcher::new(alloc);
    let q = two(alloc, 5, -8, 13)?;
    assert_found(&rt, &searcher.least(&q, 60), 1, &[2, 1, 3, 2]);
    assert_eq!(&rt; kept_and_noted(alloc, &q, 60)?, Some((0, 2)));
    Ok(())
}

#[test]
fn low_values(rt: HostRuntime) -> Result<(), Fail> {
    let alloc = rt.alloc();
    let mut searcher = SerialSearcher::new(alloc);
    match searcher.least(&two(alloc, 1, -1, 1)?, 60) {
        Least::Low {
            vector,
            value,
            path,
        } => {
            assert_eq!(rt; value, 0);
            assert_path(&rt, &path, &[0]);
            assert_vector(&rt, &vector, &[1, 1]);
        }
        _ => assert!(rt; false),
    }
    let ray = two(alloc, 0, -1, 2)?;
    assert_sign_low(&rt, &searcher.sign(&ray, 2), -2, &[1, 0], &[2, 1]);
    assert_sign_depth(&rt, &searcher.sign(&ray, 1), &[1]);
    let other = two(alloc, 2, -1, 0)?;
    assert_sign_low(&rt, &searcher.sign(&other, 60), -2, &[0, 0], &[1, 2]);
    assert_sign_depth(&rt, &searcher.sign(&other, 1), &[0]);
    match searcher.sign(&two(alloc, 0, 1, 0)?, 60) {
        Sign::Copositive => {}
        _ => assert!(rt; false),
    }
    Ok(())
}

/// 2^100, the limit of Gram entries.
pub(crate) const LARGEST: i128 = 1267650600228229401496703205376;

/// 2^64, a diagonal entry over its limit.
const OVER: i128 = 18446744073709551616;

#[test]
fn entries_over_their_limits(rt: HostRuntime) -> Result<(), Fail> {
    let alloc = rt.alloc();
    let mut searcher = SerialSearcher::new(alloc);
    // The entry of child 0 at (1, 1) is 2^100 + 2.
    let large = two(alloc, LARGEST, -1, 4)?;
    assert_least_wide(&rt, &searcher.least(&large, 1), &[0]);
    assert_least_depth(&rt, &searcher.least(&large, 0), &[]);
    let larger = two(alloc, LARGEST + 1, 0, 1)?;
    assert_least_wide(&rt, &searcher.least(&larger, 60), &[]);
    match searcher.least(&two(alloc, OVER, 1, OVER)?, 60) {
        Least::BoundWide { diagonal } => assert_eq!(rt; diagonal, OVER),
        _ => assert!(rt; false),
    }
    Ok(())
}

/// 2^59, the narrow limit.
const NARROW: i128 = 576460752303423488;

/// Searches the matrix `first -1 / -1 4`, whose child 0 has the entry first + 2 at (1, 1), where first is at least 5.
fn assert_four(rt: &impl Abort, alloc: Global, first: i128) -> Result<(), Fail>
    requires { nat_abs first ≤ 2 ^ 126 }
{
    let mut searcher = SerialSearcher::new(alloc);
    let q = two(alloc, first, -1, 4)?;
    assert_found(rt, &searcher.least(&q, 1), 4, &[0, 1]);
    assert_least_depth(rt, &searcher.least(&q, 0), &[]);
    match searcher.sign(&q, 1) {
        Sign::Copositive => Ok(()),
        _ => panic!(rt; "not copositive"),
    }
}

// Over narrow cones alone, begun again at a child that isn't narrow, and from a root that isn't.
#[test]
fn searches_at_the_narrow_limit(rt: HostRuntime) -> Result<(), Fail> {
    let alloc = rt.alloc();
    assert_four(&rt, alloc, NARROW - 2)?;
    assert_four(&rt, alloc, NARROW)?;
    assert_four(&rt, alloc, NARROW + 1)?;
    Ok(())
}

// 2^58 (2x - y)^2 + y^2, and with z the same and 3 2^58 yz + 2^58 z^2. Neither root is narrow, child 0 is; the product of (1, 2, 0)
// and (0, 0, 1) is not.
#[test]
fn narrow_cones_below_a_wide_root(rt: HostRuntime) -> Result<(), Fail> {
    let alloc = rt.alloc();
    let mut searcher = SerialSearcher::new(alloc);
    let plane = two(alloc, 2 * NARROW, 0 - NARROW, NARROW / 2 + 1)?;
    assert_eq!(&rt; kept_and_noted(alloc, &plane, 60)?, Some((0, 1)));
    assert_found(&rt, &searcher.least(&plane, 60), 4, &[1, 2]);
    let half = NARROW / 2;
    let space = three(
        alloc,
        2 * NARROW,
        0 - NARROW,
        half + 1,
        0,
        half + half / 2,
        half,
    )?;
    assert_eq!(&rt; kept_and_noted(alloc, &space, 60)?, None);
    assert_found(&rt, &searcher.least(&space, 60), 4, &[1, 2, 0]);
    Ok(())
}

#[test]
fn every_judgement_settles_to_the_same(rt: HostRuntime) -> Result<(), Fail> {
    let alloc = rt.alloc();
    let deep = three(alloc, 10, -6, 4, -7, 5, 20)?;
    match plain_least(alloc, &deep, 3) {
        Some(answer) => assert_found(&rt, &answer, 2, &[1, 1, 0, 1, 2, 0]),
        None => assert!(&rt; false),
    }
    match plain_sign(alloc, &two(alloc, 0, 1, 0)?, 60) {
        Some(Sign::Copositive) => {}
        _ => assert!(&rt; false),
    }
    match plain_sign(alloc, &two(alloc, 2, -1, 0)?, 60) {
        Some(answer) => assert_sign_low(&rt, &answer, -2, &[0, 0], &[1, 2]),
        None => assert!(&rt; false),
    }
    Ok(())
}
