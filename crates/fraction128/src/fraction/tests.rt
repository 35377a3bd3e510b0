//! Worked examples, computed by another program.

use super::Fraction;
use Operation::{Add, Div, Mul, Sub};
use std::cmp::Ordering;
use std::process::Abort;
use symmetric_matrix::{IntKind, IntOp};

// The greatest number that fits.
const MAX: i128 = i128::MAX;

#[derive(Clone, Copy)]
enum Operation {
    Add,
    Sub,
    Mul,
    Div,
}

fn fraction(rt: &impl Abort, parts: (i128, i128)) -> Fraction {
    assert!(rt; parts.0 != i128::MIN && 1 <= parts.1);
    Fraction::new(parts.0, parts.1)
}

fn shown(answer: Result<Fraction, IntOp>) -> Result<(i128, i128), (IntKind, i128, i128)> {
    match answer {
        Ok(value) => Ok((value.num(), value.den())),
        Err(op) => Err((op.kind, op.left, op.right)),
    }
}

fn answered(
    rt: &impl Abort,
    operation: Operation,
    left: Fraction,
    right: Fraction,
) -> Result<Fraction, IntOp> {
    match operation {
        Add => left.add(right),
        Sub => left.sub(right),
        Mul => left.mul(right),
        Div => {
            assert!(rt; !right.is_zero());
            left.div(right)
        }
    }
}

#[test]
fn results_and_first_operations_that_do_not_fit(rt: HostRuntime) {
    for (operation, left, right, want) in [
        (Add, (1, 2), (1, 3), Ok((5, 6))),
        (Add, (1, 6), (1, 10), Ok((4, 15))),
        (Add, (5, 6), (1, 6), Ok((1, 1))),
        (Add, (3, 1), (-3, 4), Ok((9, 4))),
        (Add, (-7, 12), (7, 12), Ok((0, 1))),
        (Add, (MAX - 1, 1), (1, 1), Ok((MAX, 1))),
        (Add, (MAX, 1), (1, 1), Err((IntKind::Add, MAX, 1))),
        (Add, (-MAX, 1), (-1, 1), Err((IntKind::Add, -MAX, -1))),
        (Add, (MAX, 1), (1, 2), Err((IntKind::Mul, MAX, 2))),
        (Add, (1, 2), (MAX, 3), Err((IntKind::Mul, MAX, 2))),
        (
            Add,
            (42535295865117307932921825928971026431, 3),
            (28356863910078205288614550619314017641, 2),
            Err((
                IntKind::Add,
                85070591730234615865843651857942052862,
                85070591730234615865843651857942052923,
            )),
        ),
        (
            Add,
            (1, 18446744073709551616),
            (1, 36472996377170786403),
            Err((IntKind::Mul, 18446744073709551616, 36472996377170786403)),
        ),
        (
            Add,
            (
                1267650600228229401496703205377,
                3713820117856140824697372672,
            ),
            (
                -1267650600228229401496703205371,
                6189700196426901374495621120,
            ),
            Ok((633825300114114700748351602693, 4642275147320176030871715840)),
        ),
        (Sub, (1, 2), (1, 3), Ok((1, 6))),
        (Sub, (-MAX, 1), (1, 1), Err((IntKind::Add, -MAX, -1))),
        (Sub, (1, 4), (MAX, 2), Err((IntKind::Mul, -MAX, 2))),
        (Mul, (2, 3), (9, 4), Ok((3, 2))),
        (Mul, (-5, 7), (14, 15), Ok((-2, 3))),
        (Mul, (0, 1), (7, 9), Ok((0, 1))),
        (
            Mul,
            (-9223372036854775808, 1),
            (18446744073709551616, 1),
            Err((IntKind::Mul, -9223372036854775808, 18446744073709551616)),
        ),
        (
            Mul,
            (9223372036854775807, 1),
            (18446744073709551616, 1),
            Ok((170141183460469231713240559642174554112, 1)),
        ),
        (
            Mul,
            (1, 18446744073709551617),
            (1, 9223372036854775809),
            Err((IntKind::Mul, 18446744073709551617, 9223372036854775809)),
        ),
        (
            Mul,
            (1329227995784915872903807060280344576, 3),
            (9, 664613997892457936451903530140172288),
            Ok((6, 1)),
        ),
        (Div, (2, 3), (-4, 9), Ok((-3, 2))),
        (Div, (-1, 2), (-3, 2), Ok((1, 3))),
        (Div, (0, 1), (-5, 3), Ok((0, 1))),
        (Div, (MAX, 2), (1, 3), Err((IntKind::Mul, MAX, 3))),
        (Div, (1, MAX), (-2, 1), Err((IntKind::Mul, MAX, 2))),
    ] {
        let got = answered(&rt, operation, fraction(&rt, left), fraction(&rt, right));
        assert_eq!(&rt; shown(got), want, "at {left:?} and {right:?}");
    }
}

#[test]
fn fractions_in_order(rt: HostRuntime) {
    for (left, right, want) in [
        ((7, 3), (9, 4), Ordering::Greater),
        ((-7, 3), (-9, 4), Ordering::Less),
        ((1, 2), (2, 4), Ordering::Equal),
        ((-1, 5), (1, MAX), Ordering::Less),
        ((3, 7), (2, 7), Ordering::Greater),
        ((MAX, MAX - 1), (MAX - 1, MAX - 2), Ordering::Less),
        (
            (
                2535301200456458802993406410753,
                1267650600228229401496703205376,
            ),
            (
                2535301200456458802993406410753,
                633825300114114700748351602688,
            ),
            Ordering::Less,
        ),
        ((-MAX, MAX - 1), (1 - MAX, MAX - 2), Ordering::Greater),
        (
            (
                85070591730234615865843651857942052865,
                42535295865117307932921825928971026432,
            ),
            (
                85070591730234615865843651857942052867,
                42535295865117307932921825928971026433,
            ),
            Ordering::Greater,
        ),
        ((0, 1), (1, MAX), Ordering::Less),
        (
            (5902958103587056517120, 3541774862152233910273),
            (5, 3),
            Ordering::Less,
        ),
    ] {
        let got = fraction(&rt, left).cmp(&fraction(&rt, right));
        assert_eq!(&rt; got, want, "at {left:?} and {right:?}");
    }
}

#[test]
fn numbers_of_a_fraction(rt: HostRuntime) {
    let half = fraction(&rt, (-6, 12));
    assert_eq!(&rt; (half.num(), half.den()), (-1, 2));
    assert!(&rt; half.neg() == fraction(&rt, (1, 2)));
    assert!(&rt; Fraction::whole(7) == fraction(&rt, (7, 1)));
    assert!(&rt; fraction(&rt, (0, 5)).is_zero() && !half.is_zero());
}
