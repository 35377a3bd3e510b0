//! Whole runs of `solve`.

use cp_outside::MemSink;
use cpfactor_top::{Limits, Step, solve_alone};
use row_runs::{WORKERS, status_after, status_over, two_files};
use std::test::Fail;

/// A matrix that is factored at the second visit: its journal has the steps Tighten and Move.
const SECOND_VISIT: &str = "cpmatrix 1 2\n6 3\n3 2\n";

/// A command line, the text of its file, the exit status, and what is written.
const SOLVES: [(&str, &str, u8, &str); 16] = [
    ("solve a", "cpmatrix 1 1\n0\n", 0, "factored 1 0\n"),
    ("solve a", "cpmatrix 1 1\n5/3\n", 0, "factored 1 1\n5/3 1\n"),
    (
        "solve a",
        "cpmatrix 1 1\n9223372036854775807\n",
        0,
        "factored 1 1\n9223372036854775807/1 1\n",
    ),
    (
        "solve a",
        "cpmatrix 1 2\n2 1\n1 2\n",
        0,
        "factored 2 3\n1/1 0 1\n1/1 1 0\n1/1 1 1\n",
    ),
    (
        "solve a",
        "# a comment\n\ncpmatrix 1 2\r\n\t2  1\n1 4/2",
        0,
        "factored 2 3\n1/1 0 1\n1/1 1 0\n1/1 1 1\n",
    ),
    (
        "solve a",
        "cpmatrix 1 3\n3/2 1 1/2\n1 2 1\n1/2 1 3/2\n",
        0,
        "factored 3 6\n1/2 0 0 1\n1/2 0 1 0\n1/2 0 1 1\n1/2 1 0 0\n1/2 1 1 0\n1/2 1 1 1\n",
    ),
    (
        "solve a",
        SECOND_VISIT,
        0,
        "factored 2 3\n1/1 1 0\n1/1 1 1\n1/1 2 1\n",
    ),
    (
        "solve a",
        "cpmatrix 1 1\n-1\n",
        10,
        "separated 1\n1\nvalue -1/1\ntree 1\nleaf\n",
    ),
    (
        "solve a",
        "cpmatrix 1 2\n-1 0\n0 0\n",
        10,
        "separated 2\n2 -1\n-1 2\nvalue -2/1\ntree 1\nleaf\n",
    ),
    (
        "solve a",
        "cpmatrix 1 2\n1 -1\n-1 1\n",
        10,
        "separated 2\n0 1\n1 0\nvalue -2/1\ntree 1\nleaf\n",
    ),
    (
        "solve a",
        "cpmatrix 1 2\n1 2\n2 2\n",
        10,
        "separated 2\n6 -3\n-3 2\nvalue -2/1\ntree 3\nsplit 1 2\nleaf\nleaf\n",
    ),
    ("solve a --depth 1", SECOND_VISIT, 4, "refused depth 1\n"),
    (
        "solve --pivots 3 a",
        "cpmatrix 1 2\n1 1000\n1000 1000000\n",
        5,
        "refused pivots 3\n",
    ),
    ("solve a --pivots 0", SECOND_VISIT, 5, "refused pivots 0\n"),
    (
        "solve a --trace",
        "cpmatrix 1 2\n1/9223372036854775807 1/9223372036854775806\n1/9223372036854775806 1/9223372036854775805\n",
        6,
        "refused overflow Clear Mul 85070591730234615838173535747377725442 9223372036854775805\n",
    ),
    (
        "solve a",
        "cpmatrix 1 2\n1/9223372036854775807 -9223372036854775807\n-9223372036854775807 9223372036854775807\n",
        6,
        "refused overflow Inner Add 170141183460469231694793815568465002500 170141183460469231694793815568465002498\n",
    ),
];

#[test]
fn matrices_are_factored_separated_or_refused(rt: HostRuntime) -> Result<(), Fail> {
    for (line, text, status, expected) in SOLVES {
        for workers in WORKERS {
            let asked = format!(in rt.alloc(); "{line}{workers}")?;
            let mut sink = MemSink::with_room(rt.alloc(), 200)?;
            let ended = status_after(&rt, &asked, text.as_bytes(), &mut sink)?;
            assert_eq!(rt; ended, status, "at {asked} {text}");
            assert_eq!(rt; sink.bytes(), expected.as_bytes(), "at {asked} {text}");
        }
    }
    Ok(())
}

/// Another one, and its text with the trace.
const TRACED: &str = "cpmatrix 1 3\n5 2 3\n2 4 2\n3 2 5\n";

const TRACED_TEXT: &str = "# visit 0\n# 2 -1 0\n# -1 2 -1\n# 0 -1 2\n# minimum 2\n# vectors 6\n\
# 0 0 1\n# 0 1 0\n# 0 1 1\n# 1 0 0\n# 1 1 0\n# 1 1 1\n\
# visit 1\n# 2 0 -1\n# 0 2 -1\n# -1 -1 2\n# minimum 2\n# vectors 6\n\
# 0 0 1\n# 0 1 0\n# 0 1 1\n# 1 0 0\n# 1 0 1\n# 1 1 1\n\
factored 3 5\n2/1 0 0 1\n2/1 0 1 0\n2/1 1 0 0\n1/1 1 0 1\n2/1 1 1 1\n";

#[test]
fn the_trace_stands_before_the_verdict(rt: HostRuntime) -> Result<(), Fail> {
    for workers in WORKERS {
        let asked = format!(in rt.alloc(); "solve a --trace{workers}")?;
        let mut sink = MemSink::with_room(rt.alloc(), 500)?;
        let ended = status_after(&rt, &asked, TRACED.as_bytes(), &mut sink)?;
        assert_eq!(rt; ended, 0, "at {asked}");
        assert_eq!(rt; sink.bytes(), TRACED_TEXT.as_bytes(), "at {asked}");
    }
    Ok(())
}

#[test]
fn the_trace_stands_before_a_refusal(rt: HostRuntime) -> Result<(), Fail> {
    let mut sink = MemSink::with_room(rt.alloc(), 500)?;
    let ended = status_after(
        &rt,
        "solve a --trace --pivots 0",
        SECOND_VISIT.as_bytes(),
        &mut sink,
    )?;
    assert_eq!(rt; ended, 5);
    assert_eq!(rt;
        sink.bytes(),
        b"# visit 0\n# 2 -1\n# -1 2\n# minimum 2\n# vectors 3\n# 0 1\n# 1 0\n# 1 1\nrefused pivots 0\n".as_slice()
    );
    Ok(())
}

/// A command line that solves the matrix of a text, and a text that `check` takes as its proof.
const CHECKED: [(&str, &str); 6] = [
    ("solve a", SECOND_VISIT),
    ("solve a", "cpmatrix 1 1\n-1\n"),
    ("solve a", "cpmatrix 1 2\n-1 0\n0 0\n"),
    ("solve a", "cpmatrix 1 2\n1 -1\n-1 1\n"),
    ("solve a", "cpmatrix 1 2\n1 2\n2 2\n"),
    ("solve a --trace", TRACED),
];

#[test]
fn check_accepts_what_solve_wrote(rt: HostRuntime) -> Result<(), Fail> {
    for (line, text) in CHECKED {
        let mut proof = MemSink::with_room(rt.alloc(), 500)?;
        status_after(&rt, line, text.as_bytes(), &mut proof)?;
        let mut files = two_files(rt.alloc(), text.as_bytes(), proof.bytes())?;
        let mut sink = MemSink::with_room(rt.alloc(), 200)?;
        let status = status_over(&rt, "check a b", &mut files, &mut sink)?;
        assert_eq!(rt; status, 0, "at {text}");
        assert_eq!(rt; sink.bytes(), b"accepted\n".as_slice(), "at {text}");
    }
    Ok(())
}

const LIMITS: Limits = Limits {
    pivots: 10_000,
    depth: 60,
};

#[test]
fn a_failed_put_leaves_a_front_of_the_text_and_the_journal(rt: HostRuntime) -> Result<(), Fail> {
    let mut sink = MemSink::with_room(rt.alloc(), 200)?;
    sink.fail_at(2, 3)?;
    let ended = solve_alone(
        rt.alloc(),
        SECOND_VISIT.as_bytes(),
        LIMITS,
        false,
        &mut sink,
    );
    assert_eq!(rt; ended.status.number(), 8);
    assert_eq!(rt; sink.bytes(), b"factored 2 3\n1/1".as_slice());
    assert!(rt; ended.journal.is_some());
    let Some(journal) = &ended.journal else {
        return Ok(());
    };
    assert_eq!(rt; journal.visited.len(), 2);
    assert_eq!(rt; journal.steps.len(), 2);
    assert!(rt; matches!(journal.steps.at(0), Step::Tighten(_)));
    assert!(rt; matches!(journal.steps.at(1), Step::Move));
    Ok(())
}

#[test]
fn each_line_of_a_trace_is_one_put(rt: HostRuntime) -> Result<(), Fail> {
    let mut sink = MemSink::with_room(rt.alloc(), 200)?;
    sink.fail_at(3, 4)?;
    let ended = solve_alone(rt.alloc(), SECOND_VISIT.as_bytes(), LIMITS, true, &mut sink);
    assert_eq!(rt; ended.status.number(), 8);
    assert_eq!(rt; sink.bytes(), b"# visit 0\n# 2 -1\n# -1".as_slice());
    Ok(())
}
