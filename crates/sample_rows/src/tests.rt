//! Whole runs of `sample`, by one worker and by several. The sums were worked out apart, by the recurrence over whole numbers.

use cp_outside::{MemFiles, MemSink};
use row_runs::{WORKERS, ended_over};
use std::test::Fail;

/// A command line, how many matrices are visited, and what is written.
///
/// From 0 the coordinates are 2, 0, 1 and 1, and from 3 they are 2 and 1.
const SAMPLES: [(&str, usize, &str); 6] = [
    (
        "sample 1 1 0",
        1,
        "sample 1 1 0\ndiagonal 4\nvisits 1\nverdict factored 1 1\n",
    ),
    (
        "sample 2 1 0",
        1,
        "sample 2 1 0\ndiagonal 4 0\nvisits 1\nverdict factored 2 1\n",
    ),
    (
        "sample 1 2 0",
        1,
        "sample 1 2 0\ndiagonal 4\nvisits 1\nverdict factored 1 1\n",
    ),
    (
        "sample 2 2 0",
        1,
        "sample 2 2 0\ndiagonal 5 1\nvisits 1\nverdict factored 2 2\n",
    ),
    (
        "sample 2 1 3",
        2,
        "sample 2 1 3\ndiagonal 4 1\nvisits 2\nverdict factored 2 1\n",
    ),
    (
        "sample 2 100000 0",
        1,
        "sample 2 100000 0\ndiagonal 167291 166041\nvisits 1\nverdict factored 2 3\n",
    ),
];

#[test]
fn samples_are_solved_and_summed_up(rt: HostRuntime) -> Result<(), Fail> {
    for (line, visits, expected) in SAMPLES {
        for workers in WORKERS {
            let asked = format!(in rt.alloc(); "{line}{workers}")?;
            let mut files = MemFiles::new(rt.alloc());
            let mut sink = MemSink::with_room(rt.alloc(), 200)?;
            let ended = ended_over(&rt, &asked, &mut files, &mut sink)?;
            assert_eq!(rt; ended.status.number(), 0, "at {asked}");
            assert_eq!(rt; sink.bytes(), expected.as_bytes(), "at {asked}");
            let visited = ended.journal.map(|journal| journal.visited.len());
            assert_eq!(rt; visited, Some(visits), "at {asked}");
        }
    }
    Ok(())
}

#[test]
fn faulty_words_are_refused(rt: HostRuntime) -> Result<(), Fail> {
    let cases = [
        ("sample 7 1 0", "refused usage 2\n"),
        ("sample 2 1 0 --depth 5", "refused usage 5\n"),
        ("sample 2 1 0 --workers 17", "refused usage 6\n"),
    ];
    for (line, expected) in cases {
        let mut files = MemFiles::new(rt.alloc());
        let mut sink = MemSink::with_room(rt.alloc(), 200)?;
        let ended = ended_over(&rt, line, &mut files, &mut sink)?;
        assert_eq!(rt; ended.status.number(), 2, "at {line}");
        assert_eq!(rt; sink.bytes(), expected.as_bytes(), "at {line}");
        assert!(rt; ended.journal.is_none(), "at {line}");
    }
    Ok(())
}
