//! Worked values, found by hand.

ghost use Rattle.std.specs.Prelude.{◌≡◌, IfOk};

use std::alloc::{AllocError, Global};
use std::cmp::Ordering;
use std::process::Abort;
use symmetric_matrix::{
    Fail, IntKind, IntOp, IntVector, SymInt, VectorList, combine, gcd, int_add, int_mul,
    start_matrix, start_minimum, start_vectors,
};

const LARGEST: i128 = 170141183460469231731687303715884105727;

fn vector(rt: &impl Abort, alloc: Global, x: &[u64]) -> IntVector
    ensures { result ≡ x.now }
{
    assert!(rt; !x.is_empty());
    assert!(rt; x.len() <= 8);
    assert!(rt; x.iter().all(|c| *c <= 4611686018427387904));
    IntVector::from_slice(alloc, x)
}

/// The matrix of n rows with these entries, its lower triangle row by row.
pub(crate) fn matrix(
    rt: &impl Abort,
    alloc: Global,
    n: u8,
    lower: &[i128],
) -> Result<SymInt, AllocError>
    ensures { IfOk result (λ q. q ≡ record { size = n; lower = lower.now }) }
{
    assert!(rt; n >= 1);
    assert!(rt; n <= 8);
    let rows = usize::from(n);
    assert!(rt; lower.len() == rows * (rows + 1) / 2);
    for entry in lower {
        assert!(rt; *entry != i128::MIN);
    }
    SymInt::from_lower(alloc, n, lower)
}

// Whether the list has these vectors, in this order.
fn lists(rt: &impl Abort, list: &VectorList, n: usize, rows: &[u64]) {
    assert!(rt; n > 0);
    assert_eq!(rt; list.len(), rows.len() / n);
    for (k, row) in rows.chunks(n).enumerate() {
        if k < list.len() {
            assert!(rt; list.at(k).as_slice() == row, "at {k}");
        }
    }
}

#[test]
fn start_vectors_of_three_sizes(rt: HostRuntime) -> Result<(), AllocError> {
    lists(&rt, &start_vectors(rt.alloc(), 1)?, 1, &[1]);
    lists(&rt, &start_vectors(rt.alloc(), 2)?, 2, &[0, 1, 1, 0, 1, 1]);
    let of_three = [0, 0, 1, 0, 1, 0, 0, 1, 1, 1, 0, 0, 1, 1, 0, 1, 1, 1];
    lists(&rt, &start_vectors(rt.alloc(), 3)?.copy()?, 3, &of_three);
    Ok(())
}

// Whether a matrix has this lower triangle of two rows.
fn is_of_two(rt: &impl Abort, q: &SymInt, lower: [i128; 3]) {
    assert_eq!(rt; q.n(), 2);
    assert_eq!(rt; [q.get(1, 1), q.get(2, 1), q.get(2, 2)], lower);
}

#[test]
fn start_matrices(rt: HostRuntime) -> Result<(), AllocError> {
    let of_one = start_matrix(rt.alloc(), 1)?;
    assert_eq!(rt; of_one.n(), 1);
    assert_eq!(rt; of_one.get(1, 1), 1);
    assert_eq!(rt; start_minimum(1), 1);
    is_of_two(&rt, &start_matrix(rt.alloc(), 2)?, [2, -1, 2]);
    assert_eq!(rt; start_minimum(2), 2);
    let of_four = start_matrix(rt.alloc(), 4)?;
    assert_eq!(rt; of_four.n(), 4);
    let last_row = [
        of_four.get(4, 1),
        of_four.get(4, 2),
        of_four.get(4, 3),
        of_four.get(4, 4),
    ];
    assert_eq!(rt; last_row, [0, 0, -1, 2]);
    Ok(())
}

#[test]
fn combination_and_its_primitive_form(rt: HostRuntime) -> Result<(), AllocError> {
    let p = matrix(&rt, rt.alloc(), 2, &[2, -1, 2])?;
    let r = matrix(&rt, rt.alloc(), 2, &[0, -1, 2])?;
    match combine(rt.alloc(), 5, &p, 19, &r) {
        Ok(sum) => {
            is_of_two(&rt, &sum, [10, -24, 48]);
            assert!(rt; sum.gcd_of_entries() != 0);
            is_of_two(&rt, &sum.primitive()?, [5, -12, 24]);
        }
        Err(_) => assert!(rt; false),
    }
    Ok(())
}

#[test]
fn combination_that_does_not_fit(rt: HostRuntime) -> Result<(), AllocError> {
    let p = matrix(&rt, rt.alloc(), 2, &[0, 1, 0])?;
    let r = matrix(&rt, rt.alloc(), 2, &[5, 1, 5])?;
    let owed = IntOp {
        kind: IntKind::Add,
        left: LARGEST,
        right: 1,
    };
    match combine(rt.alloc(), LARGEST, &p, 1, &r) {
        Ok(_) => assert!(rt; false),
        Err(fail) => assert_eq!(rt; fail, Fail::Wide(owed)),
    }
    Ok(())
}

#[test]
fn coordinates_and_order(rt: HostRuntime) {
    let low = vector(&rt, rt.alloc(), &[1, 0, 5]);
    let high = vector(&rt, rt.alloc(), &[1, 2, 0]);
    assert!(rt; low.copy().as_slice() == [1, 0, 5].as_slice());
    assert_eq!(rt; low.len(), 3);
    assert_eq!(rt; high.at(2), 2);
    assert_eq!(rt; low.cmp(&high), Ordering::Less);
    assert_eq!(rt; high.cmp(&low), Ordering::Greater);
    assert_eq!(rt; low.cmp(&low), Ordering::Equal);
}

#[test]
fn entries_of_both_triangles(rt: HostRuntime) -> Result<(), AllocError> {
    let q = matrix(&rt, rt.alloc(), 3, &[6, 3, -9, 12, 0, 15])?.copy()?;
    assert_eq!(rt; q.n(), 3);
    assert_eq!(rt; q.get(2, 1), 3);
    assert_eq!(rt; q.get(1, 3), 12);
    assert_eq!(rt; q.get(2, 2), -9);
    assert_eq!(rt; q.gcd_of_entries(), 3);
    Ok(())
}

#[test]
fn forms_and_inner_products(rt: HostRuntime) -> Result<(), AllocError> {
    let q = matrix(&rt, rt.alloc(), 3, &[2, -1, 2, 0, -1, 2])?;
    let x = vector(&rt, rt.alloc(), &[1, 2, 3]);
    assert_eq!(rt; q.form(&x), Ok(12));
    assert_eq!(rt; q.inner(&q), Ok(16));
    Ok(())
}

#[test]
fn first_operation_that_does_not_fit(rt: HostRuntime) -> Result<(), AllocError> {
    let left = LARGEST;
    let q = matrix(&rt, rt.alloc(), 2, &[0, left, 1])?;
    let x = vector(&rt, rt.alloc(), &[1, 1]);
    let owed = IntOp {
        kind: IntKind::Mul,
        left,
        right: 2,
    };
    assert_eq!(rt; q.form(&x), Err(owed));
    let owed = IntOp {
        kind: IntKind::Mul,
        left: 2,
        right: left,
    };
    assert_eq!(rt; q.inner(&q), Err(owed));
    let owed = IntOp {
        kind: IntKind::Add,
        left: -left,
        right: -1,
    };
    assert_eq!(rt; int_add(-left, -1), Err(owed));
    let owed = IntOp {
        kind: IntKind::Mul,
        left: 18446744073709551616,
        right: -9223372036854775808,
    };
    assert_eq!(rt;
        int_mul(18446744073709551616, -9223372036854775808),
        Err(owed)
    );
    assert_eq!(rt;
        int_mul(-9223372036854775808, -9223372036854775808),
        Ok(85070591730234615865843651857942052864)
    );
    Ok(())
}

#[test]
fn common_divisors(rt: HostRuntime) {
    assert_eq!(rt; gcd(0, 0), 0);
    assert_eq!(rt; gcd(-12, 18), 6);
    assert_eq!(rt; gcd(0, -7), 7);
    assert_eq!(rt;
        gcd(-12345678901234567890123456789000, 98765432109876543210),
        90
    );
}
