use matrix_text::{TextFail, TextFault, TextKind, read_matrix};
use std::alloc::Global;
use std::test::Fail;

fn first_fault(alloc: Global, text: &[u8]) -> Option<TextFault> {
    if text.len() > 1_048_576 {
        return None;
    }
    match read_matrix(alloc, text) {
        Err(TextFail::Fault(fault)) => Some(fault),
        _ => None,
    }
}

#[test]
fn faults_are_at_their_lines(rt: HostRuntime) {
    let texts: [(&[u8], TextKind, u32); 11] = [
        (b"cpmatrix 1 1\xff\n1\n", TextKind::NotAscii, 1),
        (b"\r\t\n \ncpmatrix 2 1\n5\n", TextKind::BadVersion, 3),
        (b"cpmatrix 1 1\n", TextKind::MissingRow, 2),
        (b"cpmatrix 1 2\n1 2\n2\n", TextKind::ShortRow, 3),
        (b"cpmatrix 1 2\n1 2\n2 1 x\n", TextKind::LongRow, 3),
        (b"cpmatrix 1 2\n1 2\n2 1/00\n", TextKind::ZeroDenominator, 3),
        (
            b"cpmatrix 1 2\n1 2\n2 -1/9223372036854775808\n",
            TextKind::NumberTooLarge,
            3,
        ),
        (
            b"cpmatrix 1 2\n1 2\n2 1\n#\xfe\n0\n",
            TextKind::ExtraLine,
            5,
        ),
        (b"cpmatrix 1 2\n1 2\n3 1\n", TextKind::NotSymmetric, 3),
        (b"cpmatrix 1 2\n1 x\n2\n", TextKind::BadNumber, 2),
        (b"cpmatrix 1 2\n1 2\n3 1\n1\n", TextKind::ExtraLine, 4),
    ];
    for (text, kind, line) in texts {
        let fault = first_fault(rt.alloc(), text);
        assert_eq!(rt; fault, Some(TextFault { kind, line }));
    }
}

#[test]
fn numbers_of_thousands_of_digits_are_too_large(rt: HostRuntime) -> Result<(), Fail> {
    let mut text = Vec::from_slice(rt.alloc(), b"cpmatrix 1 1\n1/")?;
    for _ in 0..5000 {
        text.push(b'9')?;
    }
    assert_eq!(rt;
        first_fault(rt.alloc(), &text),
        Some(TextFault {
            kind: TextKind::NumberTooLarge,
            line: 2
        })
    );
    Ok(())
}
