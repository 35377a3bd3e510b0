//! Command lines and files that are refused, whichever the command.

ghost use Rattle.std.specs.Prelude.{None};

use cp_outside::{Files, MemSink, ReadEnd};
use row_runs::{status_after, status_over};
use std::test::Fail;

/// A matrix in the start cone.
const TWO_BY_TWO: &str = "cpmatrix 1 2\n2 1\n1 2\n";

#[test]
fn faulty_words_are_refused_at_their_position(rt: HostRuntime) -> Result<(), Fail> {
    let cases = [
        ("", "refused usage 1\n"),
        ("minimum a --depth 201", "refused usage 4\n"),
        ("solve", "refused usage 2\n"),
        ("solve a b", "refused usage 3\n"),
        ("solve a --depth 201", "refused usage 4\n"),
        ("solve a --pivots 01", "refused usage 4\n"),
        ("solve a --workers 0", "refused usage 4\n"),
        ("solve a --workers 17", "refused usage 4\n"),
        ("check a b --workers 1", "refused usage 4\n"),
        ("solve a --pivots 100001", "refused usage 4\n"),
        ("solve a --trace --trace", "refused usage 4\n"),
    ];
    for (line, expected) in cases {
        let mut sink = MemSink::with_room(rt.alloc(), 200)?;
        let status = status_after(&rt, line, TWO_BY_TWO.as_bytes(), &mut sink)?;
        assert_eq!(rt; status, 2, "at {line}");
        assert_eq!(rt; sink.bytes(), expected.as_bytes(), "at {line}");
    }
    Ok(())
}

#[test]
fn a_file_over_the_limit_is_refused(rt: HostRuntime) -> Result<(), Fail> {
    let mut sink = MemSink::with_room(rt.alloc(), 200)?;
    let bytes = vec![in rt.alloc(); 48u8; 1_048_577]?;
    let status = status_after(&rt, "solve a", &bytes, &mut sink)?;
    assert_eq!(rt; status, 3);
    assert_eq!(rt; sink.bytes(), b"refused text TooLong\n".as_slice());
    Ok(())
}

#[test]
fn an_unknown_file_is_a_read_fault(rt: HostRuntime) -> Result<(), Fail> {
    let mut sink = MemSink::with_room(rt.alloc(), 200)?;
    let status = status_after(&rt, "solve b", TWO_BY_TWO.as_bytes(), &mut sink)?;
    assert_eq!(rt; status, 7);
    assert_eq!(rt; sink.bytes(), b"refused read\n".as_slice());
    Ok(())
}

/// Files of which no read finds memory.
#[derive(Drop)]
struct NoMemory;

impl Files for NoMemory {
    ghost told = { λ _ _. None };

    ghost faults = { λ _ _. 0 };

    fn read_file(&mut self, _name: &str, into: &mut Vec<u8>, _limit: usize) -> ReadEnd {
        into.clear();
        ReadEnd::OutOfMemory
    }
}

#[test]
fn want_of_memory_in_reading_is_refused(rt: HostRuntime) -> Result<(), Fail> {
    let mut sink = MemSink::with_room(rt.alloc(), 200)?;
    let ended = status_over(&rt, "solve a", &mut NoMemory, &mut sink)?;
    assert_eq!(rt; ended, 9);
    assert_eq!(rt; sink.bytes(), b"refused memory\n".as_slice());
    Ok(())
}
