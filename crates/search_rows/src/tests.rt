//! Whole runs of `minimum` and `copositive`, and of matrix texts that are refused.

use cp_outside::MemSink;
use cpfactor_top::minimum_alone;
use row_runs::{WORKERS, status_after};
use std::test::Fail;
use unimodular_cone::Mode;

const DEEP: &str = "cpmatrix 1 3\n10 -6 -7\n-6 4 5\n-7 5 20\n";

/// `w·wᵗ + 10 I` for w = (4400, -9175, 4406, 4361): its search takes some 32,000 cones.
const LONG: &str =
    "cpmatrix 1 4\n19360010 -40370000 19386400 19188400\n-40370000 84180635 -40425050 -40012175\n\
    19386400 -40425050 19412846 19214566\n19188400 -40012175 19214566 19018331\n";

const NARROW: &str = "cpmatrix 1 2\n2 -3\n-3 6\n";

/// A command line, the text of its file, the exit status, and what is written.
const SEARCHES: [(&str, &str, u8, &str); 15] = [
    (
        "minimum a",
        LONG,
        0,
        "minimum 3005/1\nvectors 1\n8 11 7 8\n",
    ),
    (
        "minimum a",
        "cpmatrix 1 3\n2 -1 0\n-1 2 -1\n0 -1 2\n",
        0,
        "minimum 2/1\nvectors 6\n0 0 1\n0 1 0\n0 1 1\n1 0 0\n1 1 0\n1 1 1\n",
    ),
    (
        "minimum a",
        "cpmatrix 1 2\n1/2 0\n0 1/3\n",
        0,
        "minimum 1/3\nvectors 1\n0 1\n",
    ),
    (
        "minimum a",
        "cpmatrix 1 2\n1 -1\n-1 1\n",
        10,
        "low value 0/1 path 0 vector 1 1\n",
    ),
    ("minimum a --depth 1", DEEP, 4, "refused depth 0\n"),
    ("minimum --depth 2 a", DEEP, 4, "refused depth 10\n"),
    (
        "minimum a --depth 3",
        DEEP,
        0,
        "minimum 2/1\nvectors 2\n1 1 0\n1 2 0\n",
    ),
    ("minimum a --depth 1", NARROW, 4, "refused depth 1\n"),
    (
        "minimum a --depth 2",
        NARROW,
        0,
        "minimum 2/1\nvectors 3\n1 0\n1 1\n2 1\n",
    ),
    (
        "minimum a",
        "cpmatrix 1 2\n9223372036854775807 1/2\n1/2 9223372036854775807\n",
        6,
        "refused overflow Bound 18446744073709551614\n",
    ),
    (
        "minimum a",
        "cpmatrix 1 2\n9223372036854775807 0\n0 1/9223372036854775806\n",
        6,
        "refused overflow Gram - gram 1 1\n",
    ),
    (
        "copositive a",
        "cpmatrix 1 2\n0 1\n1 0\n",
        0,
        "copositive 2\n",
    ),
    (
        "copositive a",
        "cpmatrix 1 2\n2 -1\n-1 0\n",
        10,
        "low value -2/1 path 00 vector 1 2\n",
    ),
    (
        "copositive a --depth 0",
        "cpmatrix 1 2\n2 -1\n-1 0\n",
        4,
        "refused depth -\n",
    ),
    (
        "copositive a",
        "cpmatrix 1 1\n1/0\n",
        3,
        "refused text ZeroDenominator 2\n",
    ),
];

#[test]
fn searches_end_with_a_minimum_a_low_value_or_a_refusal(rt: HostRuntime) -> Result<(), Fail> {
    for (line, text, status, expected) in SEARCHES {
        for workers in WORKERS {
            let asked = format!(in rt.alloc(); "{line}{workers}")?;
            let mut sink = MemSink::with_room(rt.alloc(), 200)?;
            let ended = status_after(&rt, &asked, text.as_bytes(), &mut sink)?;
            assert_eq!(rt; ended, status, "at {asked} {text}");
            assert_eq!(rt; sink.bytes(), expected.as_bytes(), "at {asked} {text}");
        }
    }
    Ok(())
}

#[test]
fn a_failed_put_leaves_a_front_of_the_vectors(rt: HostRuntime) -> Result<(), Fail> {
    let mut sink = MemSink::with_room(rt.alloc(), 200)?;
    sink.fail_at(4, 3)?;
    let ended = minimum_alone(rt.alloc(), NARROW.as_bytes(), Mode::Least, 2, &mut sink);
    assert_eq!(rt; ended.status.number(), 8);
    assert_eq!(rt;
        sink.bytes(),
        b"minimum 2/1\nvectors 3\n1 0\n1 1".as_slice()
    );
    Ok(())
}

#[test]
fn faulty_texts_are_refused_with_their_first_fault(rt: HostRuntime) -> Result<(), Fail> {
    let cases = [
        ("cpmatrix 1 2\n2 1\n0 2\n", "refused text NotSymmetric 3\n"),
        ("cpmatrix 1 2\n2 1\n", "refused text MissingRow 3\n"),
        ("cpmatrix 1 1\n1/0\n", "refused text ZeroDenominator 2\n"),
        (
            "cpmatrix 1 1\n9223372036854775808\n",
            "refused text NumberTooLarge 2\n",
        ),
        ("", "refused text NoHeader 1\n"),
        ("cpmatrix 2 1\n5\n", "refused text BadVersion 1\n"),
        ("cpmatrix 1 7\n", "refused text BadDimension 1\n"),
        ("cpmatrix 1 2\n2 1 0\n1 2\n", "refused text LongRow 2\n"),
    ];
    for (text, expected) in cases {
        for workers in WORKERS {
            let asked = format!(in rt.alloc(); "solve a{workers}")?;
            let mut sink = MemSink::with_room(rt.alloc(), 200)?;
            let status = status_after(&rt, &asked, text.as_bytes(), &mut sink)?;
            assert_eq!(rt; status, 3, "at {asked} {text}");
            assert_eq!(rt; sink.bytes(), expected.as_bytes(), "at {asked} {text}");
        }
    }
    Ok(())
}
