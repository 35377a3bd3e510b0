//! Walks of small matrices, with ends and steps that were worked out by hand.

use fraction128::{Fraction, Terms};
use matrix_text::{cleared, read_matrix};
use perfect_walk::{End, Limits, Step, Steps, Walked, walk};
use serial_search::SerialSearcher;
use std::alloc::Global;
use std::process::Abort;
use std::test::Fail;
use symmetric_matrix::{IntVector, SymInt};
use unimodular_cone::Path;

/// A term: the numerator and the denominator of its weight, and its vector.
type TermRow = (i128, i128, &'static [u64]);

/// How a walk ends. A matrix is given by its lower triangle, a value by numerator and denominator.
#[derive(Clone, Copy)]
enum EndRow {
    Factored(&'static [TermRow]),
    Separated(&'static [i128], i128, i128),
    Depth(&'static [u8]),
    Pivots,
}

/// A step. λ is given by numerator and denominator.
#[derive(Clone, Copy)]
enum StepRow {
    Tighten(&'static [u64], i128, i128),
    Move,
}

/// A matrix text, the limits of pivots and depth, the number of visits, the steps, and the end.
type Row = (&'static str, u32, u8, usize, &'static [StepRow], EndRow);

const NARROW: &str = "cpmatrix 1 2\n6 3\n3 2\n";

const TO_NARROW: &[StepRow] = &[StepRow::Tighten(&[2, 1], 2, 1), StepRow::Move];

const TO_STEEP: &[StepRow] = &[StepRow::Tighten(&[1, 2], 2, 1), StepRow::Move];

const TO_STEEPER: &[StepRow] = &[
    StepRow::Tighten(&[1, 2], 2, 1),
    StepRow::Move,
    StepRow::Tighten(&[1, 3], 2, 1),
];

const TO_THREE: &[StepRow] = &[StepRow::Tighten(&[1, 0, 1], 1, 1), StepRow::Move];

const FACTORED: [Row; 7] = [
    ("cpmatrix 1 1\n0\n", 1000, 60, 1, &[], EndRow::Factored(&[])),
    (
        "cpmatrix 1 1\n5/3\n",
        1000,
        60,
        1,
        &[],
        EndRow::Factored(&[(5, 3, &[1])]),
    ),
    (
        "cpmatrix 1 1\n9223372036854775807\n",
        1000,
        60,
        1,
        &[],
        EndRow::Factored(&[(9223372036854775807, 1, &[1])]),
    ),
    (
        "cpmatrix 1 2\n2 1\n1 2\n",
        0,
        0,
        1,
        &[],
        EndRow::Factored(&[(1, 1, &[0, 1]), (1, 1, &[1, 0]), (1, 1, &[1, 1])]),
    ),
    (
        NARROW,
        1000,
        60,
        2,
        TO_NARROW,
        EndRow::Factored(&[(1, 1, &[1, 0]), (1, 1, &[1, 1]), (1, 1, &[2, 1])]),
    ),
    (
        "cpmatrix 1 3\n5 2 3\n2 4 2\n3 2 5\n",
        1000,
        60,
        2,
        TO_THREE,
        EndRow::Factored(&[
            (2, 1, &[0, 0, 1]),
            (2, 1, &[0, 1, 0]),
            (2, 1, &[1, 0, 0]),
            (1, 1, &[1, 0, 1]),
            (2, 1, &[1, 1, 1]),
        ]),
    ),
    (
        "cpmatrix 1 3\n3/2 1 1/2\n1 2 1\n1/2 1 3/2\n",
        1000,
        60,
        1,
        &[],
        EndRow::Factored(&[
            (1, 2, &[0, 0, 1]),
            (1, 2, &[0, 1, 0]),
            (1, 2, &[0, 1, 1]),
            (1, 2, &[1, 0, 0]),
            (1, 2, &[1, 1, 0]),
            (1, 2, &[1, 1, 1]),
        ]),
    ),
];

const OTHERS: [Row; 7] = [
    (
        "cpmatrix 1 1\n-1\n",
        1000,
        60,
        1,
        &[],
        EndRow::Separated(&[1], -1, 1),
    ),
    (
        "cpmatrix 1 2\n-1 0\n0 0\n",
        1000,
        60,
        1,
        &[],
        EndRow::Separated(&[2, -1, 2], -2, 1),
    ),
    (
        "cpmatrix 1 2\n1 -1\n-1 1\n",
        1000,
        60,
        1,
        &[],
        EndRow::Separated(&[0, 1, 0], -2, 1),
    ),
    (
        "cpmatrix 1 2\n1 2\n2 2\n",
        1000,
        60,
        2,
        TO_STEEP,
        EndRow::Separated(&[6, -3, 2], -2, 1),
    ),
    (NARROW, 1000, 1, 1, &[], EndRow::Depth(&[1])),
    (NARROW, 0, 60, 1, &[], EndRow::Pivots),
    (
        "cpmatrix 1 2\n1 1000\n1000 1000000\n",
        3,
        60,
        2,
        TO_STEEPER,
        EndRow::Pivots,
    ),
];

fn walk_of(rt: &impl Abort, alloc: Global, text: &str, pivots: u32, depth: u8) -> Option<Walked> {
    let bytes = text.as_bytes();
    assert!(rt; bytes.len() <= 1_048_576);
    assert!(rt; depth <= 200);
    let a = read_matrix(alloc, bytes).ok()?;
    let (s, d) = cleared(alloc, &a).ok()?;
    assert!(rt; 1 <= d);
    let mut searcher = SerialSearcher::new(alloc);
    Some(walk(alloc, &mut searcher, &s, d, Limits { pivots, depth }))
}

fn assert_vector(rt: &impl Abort, vector: &IntVector, row: &[u64], text: &str) {
    assert!(rt; vector.as_slice() == row, "at {text}");
}

fn assert_steps(rt: &impl Abort, steps: &Steps, rows: &[StepRow], text: &str) {
    assert_eq!(rt; steps.len(), rows.len(), "at {text}");
    for (k, row) in rows.iter().enumerate() {
        if k < steps.len() {
            match (steps.at(k), row) {
                (Step::Tighten(step), StepRow::Tighten(vector, p, q)) => {
                    assert_vector(rt, &step.vector, vector, text);
                    assert_eq!(rt; (step.p, step.q), (*p, *q), "at {text}");
                }
                (Step::Move, StepRow::Move) => {}
                _ => assert!(rt; false, "at {text}"),
            }
        }
    }
}

fn assert_terms(rt: &impl Abort, terms: &Terms, rows: &[TermRow], text: &str) {
    assert_eq!(rt; terms.len(), rows.len(), "at {text}");
    for (k, row) in rows.iter().enumerate() {
        if k < terms.len() {
            let term = terms.at(k);
            assert_eq!(rt;
                (term.weight.num(), term.weight.den()),
                (row.0, row.1),
                "at {text}"
            );
            assert_vector(rt, &term.vector, row.2, text);
        }
    }
}

fn assert_lower(rt: &impl Abort, matrix: &SymInt, lower: &[i128], text: &str) {
    let mut left = lower.iter();
    for row in 1..=matrix.n() {
        for column in 1..=row {
            assert_eq!(rt;
                left.next().copied(),
                Some(matrix.get(row, column)),
                "at {text}"
            );
        }
    }
    assert!(rt; left.next().is_none(), "at {text}");
}

fn assert_path(rt: &impl Abort, path: &Path, digits: &[u8], text: &str) {
    assert_eq!(rt; usize::from(path.len()), digits.len(), "at {text}");
    for k in 0..path.len() {
        assert_eq!(rt;
            digits.get(usize::from(k)).copied(),
            Some(path.digit(k)),
            "at {text}"
        );
    }
}

fn assert_end(rt: &impl Abort, end: &End, row: &EndRow, text: &str) {
    match (end, row) {
        (End::Factored { terms }, EndRow::Factored(rows)) => assert_terms(rt, terms, rows, text),
        (End::Separated { w, value }, EndRow::Separated(lower, num, den)) => {
            assert_lower(rt, w, lower, text);
            assert_eq!(rt; (value.num(), value.den()), (*num, *den), "at {text}");
        }
        (End::Depth { path }, EndRow::Depth(digits)) => assert_path(rt, path, digits, text),
        (End::Pivots, EndRow::Pivots) => {}
        _ => assert!(rt; false, "at {text}"),
    }
}

fn assert_row(rt: &impl Abort, alloc: Global, row: Row) {
    let (text, pivots, depth, visits, steps, end) = row;
    match walk_of(rt, alloc, text, pivots, depth) {
        Some(walked) => {
            assert_eq!(rt; walked.journal.visited.len(), visits, "at {text}");
            assert_steps(rt, &walked.journal.steps, steps, text);
            assert_end(rt, &walked.end, &end, text);
        }
        None => assert!(rt; false, "at {text}"),
    }
}

#[test]
fn matrices_that_are_factored(rt: HostRuntime) {
    for row in FACTORED {
        assert_row(&rt, rt.alloc(), row);
    }
}

#[test]
fn matrices_that_are_separated_or_refused(rt: HostRuntime) {
    for row in OTHERS {
        assert_row(&rt, rt.alloc(), row);
    }
}
