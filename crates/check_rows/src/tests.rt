//! Whole runs of `check`.

use cp_outside::MemSink;
use cpfactor_top::check_run;
use row_runs::{status_over, two_files, words_of};
use std::test::Fail;

/// A matrix outside the start cone, and a factorization of it.
const OUTSIDE: &str = "cpmatrix 1 2\n6 3\n3 2\n";

const FACTORED: &str = "factored 2 3\n1/1 1 0\n1/1 1 1\n1/1 2 1\n";

/// Matrices that a copositive matrix separates.
const ONE_LEAF: &str = "cpmatrix 1 2\n1 -1\n-1 1\n";

const TWO_LEAVES: &str = "cpmatrix 1 2\n1 2\n2 2\n";

/// A matrix text, a proof text, the exit status, and what is written.
const VERDICTS: [(&str, &str, u8, &str); 12] = [
    (OUTSIDE, FACTORED, 0, "accepted\n"),
    (
        ONE_LEAF,
        "separated 2\n0 1\n1 0\nvalue -2/1\ntree 1\nleaf\n",
        0,
        "accepted\n",
    ),
    (
        TWO_LEAVES,
        "# a comment\nseparated 2\n6 -3\n-3 2\nvalue -2/1\ntree 3\nsplit 1 2\nleaf\nleaf\n",
        0,
        "accepted\n",
    ),
    (
        OUTSIDE,
        "factored 2 3\n2/1 1 0\n1/1 1 1\n1/1 2 1\n",
        11,
        "proof SumDiffers 1 1\n",
    ),
    (
        TWO_LEAVES,
        "separated 2\n6 -3\n-3 2\nvalue -2/1\ntree 2\nsplit 1 2\nleaf\n",
        11,
        "proof TreeShape 2\n",
    ),
    (
        TWO_LEAVES,
        "separated 2\n6 -3\n-3 2\nvalue -2/1\ntree 3\nsplit 1 2\nleaf\n",
        3,
        "refused proof-text MissingLine 8\n",
    ),
    (
        TWO_LEAVES,
        "separated 2\n6 -3\n-3 2\nvalue -2/1\ntree 1\nleaf\n",
        11,
        "proof OpenLeaf 1\n",
    ),
    (
        "cpmatrix 1 2\n0 0\n0 0\n",
        "separated 2\n0 1\n1 0\nvalue -2/1\ntree 1\nleaf\n",
        11,
        "proof NotNegative\n",
    ),
    (
        ONE_LEAF,
        "separated 2\n0 1\n1 0\nvalue -3/1\ntree 1\nleaf\n",
        11,
        "proof ValueDiffers\n",
    ),
    (
        "cpmatrix 1 1\n5/3\n",
        "factored 2 3\n1/1 0 1\n1/1 1 0\n1/1 1 1\n",
        11,
        "proof Dimension\n",
    ),
    (
        "cpmatrix 1 2\n2 1\n1 2\n",
        "factored 2 3\n1/1 1 0\n1/1 0 1\n1/1 1 1\n",
        11,
        "proof BadTerm 2\n",
    ),
    (
        "cpmatrix 1 1\n1\n",
        "factored 1 1\n18446744073709551616/1 4611686018427387904\n",
        6,
        "refused overflow Check Mul 18446744073709551616 21267647932558653966460912964485513216\n",
    ),
];

#[test]
fn verdicts_are_accepted_or_refused(rt: HostRuntime) -> Result<(), Fail> {
    for (matrix, proof, status, expected) in VERDICTS {
        let mut files = two_files(rt.alloc(), matrix.as_bytes(), proof.as_bytes())?;
        let mut sink = MemSink::with_room(rt.alloc(), 200)?;
        let ended = status_over(&rt, "check a b", &mut files, &mut sink)?;
        assert_eq!(rt; ended, status, "at {proof}");
        assert_eq!(rt; sink.bytes(), expected.as_bytes(), "at {proof}");
    }
    Ok(())
}

/// A command line, the text of `a`, the exit status, and what is written.
const READS: [(&str, &str, u8, &str); 7] = [
    ("check c b", OUTSIDE, 7, "refused read\n"),
    ("check a c", OUTSIDE, 7, "refused read\n"),
    (
        "check a c",
        "cpmatrix 1 1\n1/0\n",
        3,
        "refused text ZeroDenominator 2\n",
    ),
    ("check a a", OUTSIDE, 3, "refused proof-text NoHeader 1\n"),
    ("check a", OUTSIDE, 2, "refused usage 3\n"),
    ("check a b c", OUTSIDE, 2, "refused usage 4\n"),
    ("solve a", OUTSIDE, 2, "refused usage 1\n"),
];

#[test]
fn what_comes_first_is_told(rt: HostRuntime) -> Result<(), Fail> {
    for (line, matrix, status, expected) in READS {
        let words = words_of(rt.alloc(), line)?;
        let mut files = two_files(rt.alloc(), matrix.as_bytes(), FACTORED.as_bytes())?;
        let mut sink = MemSink::with_room(rt.alloc(), 200)?;
        let ended = check_run(rt.alloc(), &words, &mut files, &mut sink);
        assert_eq!(rt; ended.status.number(), status, "at {line}");
        assert_eq!(rt; sink.bytes(), expected.as_bytes(), "at {line}");
    }
    Ok(())
}

#[test]
fn a_long_proof_is_refused(rt: HostRuntime) -> Result<(), Fail> {
    let proof = vec![in rt.alloc(); 48u8; 67_108_865]?;
    let mut files = two_files(rt.alloc(), OUTSIDE.as_bytes(), &proof)?;
    let mut sink = MemSink::with_room(rt.alloc(), 200)?;
    let ended = status_over(&rt, "check a b", &mut files, &mut sink)?;
    assert_eq!(rt; ended, 3);
    assert_eq!(rt; sink.bytes(), b"refused proof-text TooLong\n".as_slice());
    Ok(())
}
