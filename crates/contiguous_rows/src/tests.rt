//! Ways from the first matrix of two rows along the ray 0 -1 / -1 2, with answers that were worked out by hand.

use contiguous::{Neighbour, NeighbourOp, Tightens, last_candidate, next_perfect};
use serial_search::SerialSearcher;
use std::alloc::{AllocError, Global};
use std::process::Abort;
use symmetric_matrix::{IntVector, SymInt, VectorList, start_matrix, start_minimum, start_vectors};
use unimodular_cone::WideEntry;

/// A tightening: its vector, and λ as p and q.
type Row = ([u64; 2], i128, i128);

#[derive(Clone, Copy, Debug, PartialEq)]
enum End {
    Found,
    Depth,
    Pivots,
}

/// The answer where the ray is below 0 at `below`, and the candidate of the last tightening where the budget is used.
#[derive(Drop)]
struct Way {
    answer: Neighbour,
    last: Option<SymInt>,
}

fn way_along(
    rt: &impl Abort,
    alloc: Global,
    below: [u64; 2],
    limit: u8,
    budget: u32,
) -> Result<Way, AllocError> {
    let [x, y] = below;
    assert!(rt; 0 < y);
    assert!(rt; y < x);
    assert!(rt; x <= 1 << 62);
    assert!(rt; limit <= 200);
    let matrix = start_matrix(alloc, 2)?;
    let vectors = start_vectors(alloc, 2)?;
    let ray = SymInt::from_lower(alloc, 2, &[0, -1, 2])?;
    let mut searcher = SerialSearcher::new(alloc);
    let answer = next_perfect(
        alloc,
        &mut searcher,
        &matrix,
        start_minimum(2),
        &vectors,
        &ray,
        &IntVector::from_slice(alloc, &[x, y]),
        limit,
        budget,
    );
    let last = match &answer {
        Neighbour::Pivots { steps } => last_candidate(
            alloc,
            &matrix,
            start_minimum(2),
            &ray,
            steps,
        )?,
        _ => None,
    };
    Ok(Way { answer, last })
}

fn assert_lower(rt: &impl Abort, matrix: &SymInt, lower: [i128; 3]) {
    assert_eq!(rt; matrix.n(), 2);
    assert_eq!(rt;
        [matrix.get(1, 1), matrix.get(2, 1), matrix.get(2, 2)],
        lower
    );
}

fn assert_steps(rt: &impl Abort, steps: &Tightens, rows: &[Row]) {
    assert_eq!(rt; steps.len(), rows.len());
    for (k, row) in rows.iter().enumerate() {
        if k < steps.len() {
            let step = steps.at(k);
            assert!(rt; step.vector.as_slice() == row.0.as_slice(), "at {k}");
            assert_eq!(rt; (step.p, step.q), (row.1, row.2), "at {k}");
        }
    }
}

fn assert_vectors(rt: &impl Abort, vectors: &VectorList, rows: &[[u64; 2]]) {
    assert_eq!(rt; vectors.len(), rows.len());
    for (k, row) in rows.iter().enumerate() {
        if k < vectors.len() {
            assert!(rt; vectors.at(k).as_slice() == row.as_slice(), "at {k}");
        }
    }
}

fn assert_answer(rt: &impl Abort, answer: &Neighbour, end: End, rows: &[Row]) {
    match answer {
        Neighbour::Found {
            perfect,
            mu,
            vectors,
            steps,
        } => {
            assert_eq!(rt; end, End::Found);
            assert_lower(rt, perfect, [2, -3, 6]);
            assert_eq!(rt; *mu, 2);
            assert_vectors(rt, vectors, &[[1, 0], [1, 1], [2, 1]]);
            assert_steps(rt, steps, rows);
        }
        Neighbour::Depth {
            candidate,
            path,
            steps,
        } => {
            assert_eq!(rt; end, End::Depth);
            assert_lower(rt, candidate, [2, -3, 6]);
            assert_eq!(rt; path.len(), 1);
            assert!(rt; path.len() > 0 && path.digit(0) == 1);
            assert_steps(rt, steps, rows);
        }
        Neighbour::Pivots { steps } => {
            assert_eq!(rt; end, End::Pivots);
            assert_steps(rt, steps, rows);
        }
        _ => assert!(rt; false),
    }
}

#[test]
fn ways_along_one_ray(rt: HostRuntime) -> Result<(), AllocError> {
    let near: Row = ([2, 1], 2, 1);
    let far: Row = ([7, 2], 19, 5);
    let rows: [([u64; 2], u8, u32, End, &[Row]); 5] = [
        ([2, 1], 60, 5, End::Found, &[near]),
        ([7, 2], 60, 5, End::Found, &[far, near]),
        ([7, 2], 60, 1, End::Pivots, &[far]),
        ([2, 1], 60, 0, End::Pivots, &[]),
        ([2, 1], 1, 5, End::Depth, &[near]),
    ];
    for (below, limit, budget, end, steps) in rows {
        let way = way_along(&rt, rt.alloc(), below, limit, budget)?;
        assert_answer(&rt, &way.answer, end, steps);
    }
    Ok(())
}

#[test]
fn the_last_candidate_is_made_again(rt: HostRuntime) -> Result<(), AllocError> {
    let made = way_along(&rt, rt.alloc(), [7, 2], 60, 1)?;
    match &made.last {
        Some(candidate) => assert_lower(&rt, candidate, [5, -12, 24]),
        None => assert!(&rt; false),
    }
    let none = way_along(&rt, rt.alloc(), [2, 1], 60, 0)?;
    assert!(&rt; none.last.is_none());
    Ok(())
}

fn assert_wide(
    rt: &impl Abort,
    answer: &Neighbour,
    lower: [i128; 3],
    row: Row,
) -> Option<WideEntry> {
    match answer {
        Neighbour::Wide {
            op,
            candidate: Some(candidate),
            steps,
        } => {
            assert_lower(rt, candidate, lower);
            assert_steps(rt, steps, &[row]);
            match op {
                NeighbourOp::Gram { at } => Some(at.entry),
                NeighbourOp::Bound { diagonal } => {
                    assert_eq!(rt; *diagonal, lower[0]);
                    None
                }
                _ => {
                    assert!(rt; false);
                    None
                }
            }
        }
        _ => {
            assert!(rt; false);
            None
        }
    }
}

#[test]
fn candidates_over_the_limits_of_a_search(rt: HostRuntime) -> Result<(), AllocError> {
    let half: Row = (
        [1 << 40, (1 << 39) + 1],
        302231454903657293676544,
        100743818301219097892181,
    );
    let bound = way_along(&rt, rt.alloc(), half.0, 60, 5)?;
    let lower = [
        201487636602438195784362,
        -402975273204876391568725,
        805950546409752783137450,
    ];
    assert_eq!(&rt; assert_wide(&rt, &bound.answer, lower, half), None);
    let low: Row = (
        [10_000_000_000_000_000, 2],
        99999999999999980000000000000003,
        19999999999999996,
    );
    let gram = way_along(&rt, rt.alloc(), low.0, 60, 5)?;
    let lower = [
        39999999999999992,
        -99999999999999999999999999999999,
        199999999999999999999999999999998,
    ];
    assert_eq!(&rt;
        assert_wide(&rt, &gram.answer, lower, low),
        Some(WideEntry::Gram { row: 2, column: 1 })
    );
    Ok(())
}
