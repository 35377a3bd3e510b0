//! Command lines as they are read, and each fault at its position.

use cpfactor_lines::{Command, Limits, Usage, read_words};
use std::alloc::{AllocError, Global};
use std::test::Fail;

/// The words of a line.
fn words_of(alloc: Global, line: &str) -> Result<Vec<String>, AllocError> {
    command_words(alloc, line, "")
}

/// The words of a command's name and of a line that follows it.
fn command_words(alloc: Global, name: &str, line: &str) -> Result<Vec<String>, AllocError> {
    let mut words = Vec::new(alloc);
    for word in name.split_whitespace().chain(line.split_whitespace()) {
        words.push(String::from_str(alloc, word)?)?;
    }
    Ok(words)
}

/// Command lines of `solve`, each with the file, the limits of steps and depth, how many workers, and whether the
/// trace is wanted.
const SOLVED: [(&str, &str, u32, u8, u8, bool); 16] = [
    ("solve a", "a", 10_000, 60, 1, false),
    ("solve -", "-", 10_000, 60, 1, false),
    ("solve -a", "-a", 10_000, 60, 1, false),
    ("solve a --pivots 0", "a", 0, 60, 1, false),
    ("solve a --pivots 100000", "a", 100_000, 60, 1, false),
    ("solve --depth 0 a", "a", 10_000, 0, 1, false),
    ("solve a --depth 200", "a", 10_000, 200, 1, false),
    ("solve a --trace", "a", 10_000, 60, 1, true),
    ("solve --trace a", "a", 10_000, 60, 1, true),
    ("solve --depth 7 --trace a --pivots 3", "a", 3, 7, 1, true),
    ("solve a --workers 1", "a", 10_000, 60, 1, false),
    ("solve --workers 16 a", "a", 10_000, 60, 16, false),
    ("solve a --workers 2 --depth 5", "a", 10_000, 5, 2, false),
    ("solve a --depth 5 --workers 2", "a", 10_000, 5, 2, false),
    ("solve a --trace --workers 9", "a", 10_000, 60, 9, true),
    (
        "solve --workers 4 --pivots 3 a --trace --depth 7",
        "a",
        3,
        7,
        4,
        true,
    ),
];

/// What follows `minimum` or `copositive`, each with the depth and how many workers. The file is `a`.
const SEARCHED: [(&str, u8, u8); 10] = [
    ("a", 60, 1),
    ("a --depth 5", 5, 1),
    ("--depth 5 a", 5, 1),
    ("--depth 0 a", 0, 1),
    ("a --depth 200", 200, 1),
    ("a --workers 1", 60, 1),
    ("--workers 16 a", 60, 16),
    ("a --workers 2 --depth 7", 7, 2),
    ("a --depth 7 --workers 2", 7, 2),
    ("--depth 16 a --workers 8", 16, 8),
];

/// Command lines of `sample`, each with its three numbers and how many workers.
const SAMPLED: [(&str, u8, u32, u64, u8); 6] = [
    ("sample 1 1 0", 1, 1, 0, 1),
    (
        "sample 6 100000 18446744073709551615",
        6,
        100_000,
        u64::MAX,
        1,
    ),
    ("sample 2 3 4 --workers 1", 2, 3, 4, 1),
    ("sample 2 3 4 --workers 16", 2, 3, 4, 16),
    ("sample --workers 5 2 3 4", 2, 3, 4, 5),
    ("sample 2 --workers 5 3 4", 2, 3, 4, 5),
];

/// Each with the position of its first fault.
const FAULTY: [(&str, u32); 89] = [
    ("sample", 2),
    ("sample 2 1", 4),
    ("sample 7 1 0", 2),
    ("sample 0 1 0", 2),
    ("sample 2 0 0", 3),
    ("sample 2 100001 0", 3),
    ("sample 2 01 0", 3),
    ("sample 2 1 18446744073709551616", 4),
    ("sample 2 1 -1", 4),
    ("sample 2 1 0 0", 5),
    ("sample 2 1 0 --workers 0", 6),
    ("sample 2 1 0 --workers 17", 6),
    ("sample --workers a 2 1 0", 3),
    ("sample 2 1 0 --workers", 6),
    ("sample 2 1 --workers 4", 6),
    ("sample 2 --workers 4 1 0 --workers 4", 7),
    ("sample 2 --depth 5 1 0", 3),
    ("sample 2 --trace 1 0", 3),
    ("check a", 3),
    ("check a b c", 4),
    ("check a --depth 5", 3),
    ("check a b --workers 1", 4),
    ("check --workers 1 a b", 2),
    ("", 1),
    ("sum a", 1),
    ("minimum", 2),
    ("Solve a", 1),
    ("--trace solve a", 1),
    ("solve", 2),
    ("solve --trace", 3),
    ("solve --", 2),
    ("solve --trace a b", 4),
    ("solve a b", 3),
    ("solve a --depth 201", 4),
    ("solve a --pivots 01", 4),
    ("solve a --pivots 100001", 4),
    ("solve a --pivots -1", 4),
    ("solve a --pivots 18446744073709551616", 4),
    ("solve a --pivots --trace", 4),
    ("solve a --pivots", 4),
    ("solve --pivots 5", 4),
    ("solve --pivots a", 3),
    ("solve a --trace --trace", 4),
    ("solve a --trace 5", 4),
    ("solve a --pivots 5 --depth 6 --pivots 5", 7),
    ("solve a --depth 5 --trace --depth 5", 6),
    ("solve a --workers 0", 4),
    ("solve a --workers 17", 4),
    ("solve a --workers 18446744073709551617", 4),
    ("solve a --workers 04", 4),
    ("solve a --workers +4", 4),
    ("solve a --workers four", 4),
    ("solve a --workers", 4),
    ("solve --workers 4", 4),
    ("solve --workers a", 3),
    ("solve a --workers --depth 5", 4),
    ("solve a --workers 4 4", 5),
    ("solve a --workers 4 --workers 4", 5),
    ("solve a --workers 4 --depth 5 --workers 3", 7),
    ("solve a --workers=4", 3),
    ("solve a --worker 4", 3),
    ("solve a --trace=1", 3),
    ("solve a --x=1", 3),
    ("solve a b --x", 3),
    ("minimum a --depth 201", 4),
    ("minimum a --depth 01", 4),
    ("minimum a --depth +5", 4),
    ("minimum a --depth -5", 4),
    ("minimum a --depth 18446744073709551621", 4),
    ("minimum a --depth", 4),
    ("minimum --depth 5", 4),
    ("minimum --depth a", 3),
    ("minimum a --depth 5 --depth 6", 5),
    ("minimum a --depth 5 b", 5),
    ("minimum a --depth=5", 3),
    ("minimum a --trace", 3),
    ("minimum a --depth --depth", 4),
    ("minimum a --workers 0", 4),
    ("minimum --workers 17 a", 3),
    ("minimum --depth 5 --workers -1 a", 5),
    ("minimum --workers 2 --depth 201 a", 5),
    ("minimum a --workers 2 --depth 7 --workers 2", 7),
    ("copositive a --workers 0", 4),
    ("copositive a --depth 5 --workers 17", 6),
    ("copositive --workers 4 --workers 4 a", 4),
    ("copositive a --workers x", 4),
    ("copositive a b", 3),
    ("copositive", 2),
    ("copositive --", 2),
];

#[test]
fn command_lines_of_solve_are_read(rt: HostRuntime) -> Result<(), Fail> {
    for (line, file, pivots, depth, workers, trace) in SOLVED {
        let words = words_of(rt.alloc(), line)?;
        let command = Command::Solve {
            file,
            limits: Limits { pivots, depth },
            workers,
            trace,
        };
        assert_eq!(rt; read_words(&words), Ok(command), "at {line}");
        assert_eq!(rt; command.workers(), workers, "at {line}");
    }
    Ok(())
}

#[test]
fn command_lines_of_minimum_are_read(rt: HostRuntime) -> Result<(), Fail> {
    for (line, depth, workers) in SEARCHED {
        let words = command_words(rt.alloc(), "minimum", line)?;
        let command = Command::Minimum {
            file: "a",
            depth,
            workers,
        };
        assert_eq!(rt; read_words(&words), Ok(command), "at {line}");
        assert_eq!(rt; command.workers(), workers, "at {line}");
    }
    Ok(())
}

#[test]
fn command_lines_of_copositive_are_read(rt: HostRuntime) -> Result<(), Fail> {
    for (line, depth, workers) in SEARCHED {
        let words = command_words(rt.alloc(), "copositive", line)?;
        let command = Command::Copositive {
            file: "a",
            depth,
            workers,
        };
        assert_eq!(rt; read_words(&words), Ok(command), "at {line}");
        assert_eq!(rt; command.workers(), workers, "at {line}");
    }
    Ok(())
}

#[test]
fn command_lines_of_sample_are_read(rt: HostRuntime) -> Result<(), Fail> {
    for (line, n, k, first, workers) in SAMPLED {
        let words = words_of(rt.alloc(), line)?;
        let command = Command::Sample {
            n,
            k,
            first,
            workers,
        };
        assert_eq!(rt; read_words(&words), Ok(command), "at {line}");
        assert_eq!(rt; command.workers(), workers, "at {line}");
    }
    Ok(())
}

#[test]
fn a_command_line_of_check_is_read(rt: HostRuntime) -> Result<(), Fail> {
    let words = words_of(rt.alloc(), "check a b")?;
    let command = Command::Check {
        file: "a",
        proof: "b",
    };
    assert_eq!(rt; read_words(&words), Ok(command));
    assert_eq!(rt; command.workers(), 1);
    Ok(())
}

#[test]
fn faulty_lines_are_read_to_their_first_fault(rt: HostRuntime) -> Result<(), Fail> {
    for (line, position) in FAULTY {
        let words = words_of(rt.alloc(), line)?;
        assert_eq!(rt; read_words(&words), Err(Usage { position }), "at {line}");
    }
    Ok(())
}
