use cp_outside::{Files, MemFiles, MemSink, PutEnd, ReadEnd, RealFiles, RealSink, Sink};
use std::alloc::AllocError;
use std::{fs, io};

#[test]
fn memory_tells_the_bytes_added_last_and_fails_at_an_unknown_name(
    rt: HostRuntime,
) -> Result<(), AllocError> {
    let mut files = MemFiles::new(rt.alloc());
    files.add("a", b"first")?;
    files.add("b", b"other")?;
    files.add("a", b"second")?;
    let mut into = Vec::from_slice(rt.alloc(), b"old")?;
    let rows: [(&str, usize, ReadEnd, &[u8]); 5] = [
        ("a", 6, ReadEnd::Whole, b"second"),
        ("a", 5, ReadEnd::TooLong, b""),
        ("b", 6, ReadEnd::Whole, b"other"),
        ("c", 6, ReadEnd::Failed, b""),
        ("c", 6, ReadEnd::Failed, b""),
    ];
    for (name, limit, end, bytes) in rows {
        assert_eq!(rt; files.read_file(name, &mut into, limit), end, "{name}");
        assert_eq!(rt; into.as_slice(), bytes, "{name}");
    }
    Ok(())
}

#[test]
fn a_put_that_is_planned_to_fail_keeps_three_bytes(rt: HostRuntime) -> Result<(), AllocError> {
    let mut sink = MemSink::with_room(rt.alloc(), 32)?;
    sink.fail_at(2, 3)?;
    sink.fail_at(4, 9)?;
    let rows: [(&[u8], PutEnd, &[u8]); 5] = [
        (b"factored 2 3\n", PutEnd::Done, b"factored 2 3\n"),
        (b"1/1 0 1\n", PutEnd::Failed, b"factored 2 3\n1/1"),
        (b"", PutEnd::Done, b"factored 2 3\n1/1"),
        (b"ab", PutEnd::Failed, b"factored 2 3\n1/1ab"),
        (b"c", PutEnd::Done, b"factored 2 3\n1/1abc"),
    ];
    for (piece, end, written) in rows {
        assert_eq!(rt; sink.put(piece), end);
        assert_eq!(rt; sink.bytes(), written);
    }
    Ok(())
}

// Copies a file into a sink, by the traits alone.
fn copy<F: Files, K: Sink>(files: &mut F, sink: &mut K, buffer: &mut Vec<u8>, name: &str) -> bool {
    match files.read_file(name, buffer, 16) {
        ReadEnd::Whole => sink.put(buffer.as_slice()) == PutEnd::Done,
        _ => false,
    }
}

#[test]
fn a_file_is_copied_through_the_traits(rt: HostRuntime) -> Result<(), AllocError> {
    let mut files = MemFiles::new(rt.alloc());
    let mut sink = MemSink::with_room(rt.alloc(), 8)?;
    files.add("a", b"text")?;
    let mut buffer = Vec::new(rt.alloc());
    assert!(rt; copy(&mut files, &mut sink, &mut buffer, "a"));
    assert!(rt; !copy(&mut files, &mut sink, &mut buffer, "b"));
    assert_eq!(rt; sink.bytes(), b"text".as_slice());
    Ok(())
}

#[test]
fn real_files_are_read(rt: HostRuntime) -> io::Result<()> {
    let name = "cp_outside_test_file";
    fs::write(&rt, name, "text")?;
    let mut files = RealFiles::new(&rt, rt.alloc());
    let mut into = Vec::new(rt.alloc());
    let rows: [(&str, usize, ReadEnd, &[u8]); 4] = [
        (name, 4, ReadEnd::Whole, b"text"),
        (name, 3, ReadEnd::TooLong, b""),
        ("cp_outside_no_such_file", 4, ReadEnd::Failed, b""),
        (name, 5, ReadEnd::Whole, b"text"),
    ];
    for (name, limit, end, bytes) in rows {
        assert_eq!(rt; files.read_file(name, &mut into, limit), end, "{name}");
        assert_eq!(rt; into.as_slice(), bytes, "{name}");
    }
    fs::remove_file(&rt, name)
}

#[test]
fn a_real_file_of_two_pieces_is_read_to_its_end(rt: HostRuntime) -> Result<(), AllocError> {
    let name = "cp_outside_long_test_file";
    let mut long = vec![in rt.alloc(); b'x'; 20000]?;
    long.push(b'y')?;
    assert!(rt; fs::write(&rt, name, &long).is_ok());
    let mut files = RealFiles::new(&rt, rt.alloc());
    let mut into = Vec::new(rt.alloc());
    assert_eq!(rt; files.read_file(name, &mut into, 20000), ReadEnd::TooLong);
    assert_eq!(rt; into.len(), 0);
    assert_eq!(rt; files.read_file(name, &mut into, 20001), ReadEnd::Whole);
    assert_eq!(rt; into.as_slice(), long.as_slice());
    assert!(rt; fs::remove_file(&rt, name).is_ok());
    Ok(())
}

#[test]
fn the_standard_output_takes_all_bytes(rt: HostRuntime) {
    let mut sink = RealSink::new(&rt);
    assert_eq!(rt; sink.put(b"a line of a test\n"), PutEnd::Done);
    assert_eq!(rt; sink.put(b""), PutEnd::Done);
}
