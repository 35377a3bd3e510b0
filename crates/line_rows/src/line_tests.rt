//! Lines and texts as they are written, from the worked rows of the formats.

use cp_outside::{MemSink, PutEnd};
use cpfactor_lines::{
    depth_line, owed_line, pivots_line, push_factorization, put_lines, trace_lines,
};
use exact_linear::{EntryOp, EntryPart};
use fraction128::{Fraction, Term, Terms};
use perfect_walk::{Owed, Visit, Visits};
use std::test::Fail;
use symmetric_matrix::{IntKind, IntOp, IntVector, start_matrix, start_minimum, start_vectors};
use unimodular_cone::{Path, WideAt, WideEntry};

const OP: IntOp = IntOp {
    kind: IntKind::Mul,
    left: 85_070_591_730_234_615_838_173_535_747_377_725_442,
    right: 9_223_372_036_854_775_805,
};

const SUM: IntOp = IntOp {
    kind: IntKind::Add,
    left: -7,
    right: 0,
};

/// An operation at an entry of a tableau.
fn entry_op() -> EntryOp {
    EntryOp {
        row: 2,
        column: 5,
        part: EntryPart::Subtract,
        left: Fraction::whole(1),
        right: Fraction::whole(3),
        op: SUM,
    }
}

#[test]
fn what_does_not_fit_is_named_by_its_place(rt: HostRuntime) -> Result<(), Fail> {
    let alloc = rt.alloc();
    let path = Path::root().child(1).child(0);
    let coordinate = WideEntry::Coordinate {
        generator: 2,
        place: 3,
    };
    let gram = WideEntry::Gram { row: 1, column: 1 };
    let root = Path::root();
    let rows: [(Owed, &str); 12] = [
        (
            Owed::Clear {
                row: 1,
                column: 1,
                op: OP,
            },
            "refused overflow Clear Mul 85070591730234615838173535747377725442 9223372036854775805\n",
        ),
        (Owed::Inner { op: SUM }, "refused overflow Inner Add -7 0\n"),
        (
            Owed::Tableau { op: entry_op() },
            "refused overflow Tableau Add -7 0\n",
        ),
        (
            Owed::RayEntry { op: entry_op() },
            "refused overflow Ray Add -7 0\n",
        ),
        (
            Owed::RayClear { op: SUM },
            "refused overflow Ray Add -7 0\n",
        ),
        (
            Owed::Form {
                vector: IntVector::from_slice(alloc, &[2, 1]),
                op: SUM,
            },
            "refused overflow Form Add -7 0\n",
        ),
        (Owed::Scale { op: SUM }, "refused overflow Scale Add -7 0\n"),
        (
            Owed::Gram {
                at: WideAt {
                    path,
                    entry: coordinate,
                },
            },
            "refused overflow Gram 10 coordinate 2 3\n",
        ),
        (
            Owed::Gram {
                at: WideAt {
                    path: root,
                    entry: gram,
                },
            },
            "refused overflow Gram - gram 1 1\n",
        ),
        (
            Owed::Bound {
                diagonal: 18_446_744_073_709_551_614,
            },
            "refused overflow Bound 18446744073709551614\n",
        ),
        (
            Owed::Weight { vector: 4, op: SUM },
            "refused overflow Weight Add -7 0\n",
        ),
        (Owed::Bound { diagonal: 0 }, "refused overflow Bound 0\n"),
    ];
    for (owed, text) in &rows {
        let line = owed_line(alloc, owed)?;
        assert_eq!(rt; line.as_slice(), text.as_bytes(), "at {text}");
    }
    Ok(())
}

#[test]
fn limits_are_named(rt: HostRuntime) -> Result<(), Fail> {
    let alloc = rt.alloc();
    let steps = pivots_line(alloc, 3)?;
    assert_eq!(rt; steps.as_slice(), "refused pivots 3\n".as_bytes());
    let none = pivots_line(alloc, 0)?;
    assert_eq!(rt; none.as_slice(), "refused pivots 0\n".as_bytes());
    let depth = depth_line(alloc, &Path::root().child(1))?;
    assert_eq!(rt; depth.as_slice(), "refused depth 1\n".as_bytes());
    Ok(())
}

const TRACE: &str = "# visit 0\n# 2 -1 0\n# -1 2 -1\n# 0 -1 2\n# minimum 2\n# vectors 6\n\
    # 0 0 1\n# 0 1 0\n# 0 1 1\n# 1 0 0\n# 1 1 0\n# 1 1 1\n\
    # visit 1\n# 1\n# minimum 1\n# vectors 1\n# 1\n";

#[test]
fn visits_are_traced(rt: HostRuntime) -> Result<(), Fail> {
    let alloc = rt.alloc();
    let mut visits = Visits::new(alloc);
    for n in [3, 1] {
        visits.push(Visit {
            matrix: start_matrix(alloc, n)?,
            mu: start_minimum(n),
            vectors: start_vectors(alloc, n)?,
        })?;
    }
    let text = trace_lines(alloc, true, &visits)?;
    assert_eq!(rt; text.as_slice(), TRACE.as_bytes());
    let nothing = trace_lines(alloc, false, &visits)?;
    assert_eq!(rt; nothing.len(), 0);
    Ok(())
}

#[test]
fn factorizations_are_written(rt: HostRuntime) -> Result<(), Fail> {
    let alloc = rt.alloc();
    let mut text = Vec::new(alloc);
    let mut terms = Terms::new(alloc);
    push_factorization(&mut text, 1, &terms)?;
    terms.push(Term {
        weight: Fraction::whole(5),
        vector: IntVector::from_slice(alloc, &[1]),
    })?;
    push_factorization(&mut text, 1, &terms)?;
    assert_eq!(rt;
        text.as_slice(),
        "factored 1 0\nfactored 1 1\n5/1 1\n".as_bytes()
    );
    Ok(())
}

const FACTORED: &[u8] = b"factored 2 3\n1/1 1 0\n1/1 1 1\n1/1 2 1\n";

/// The put that fails, how many bytes it keeps, how the writing ends, and what is written.
const PUTS: [(u64, usize, PutEnd, &[u8]); 4] = [
    (9, 0, PutEnd::Done, FACTORED),
    (2, 3, PutEnd::Failed, b"factored 2 3\n1/1"),
    (4, 99, PutEnd::Failed, FACTORED),
    (1, 0, PutEnd::Failed, b""),
];

#[test]
fn each_line_is_one_put(rt: HostRuntime) -> Result<(), Fail> {
    for (call, keep, end, written) in PUTS {
        let mut sink = MemSink::with_room(rt.alloc(), 100)?;
        sink.fail_at(call, keep)?;
        assert_eq!(rt; put_lines(FACTORED, &mut sink), end, "at {call}");
        assert_eq!(rt; sink.bytes(), written, "at {call}");
    }
    Ok(())
}
