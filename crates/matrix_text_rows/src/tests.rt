use fraction128::Fraction;
use matrix_text::{
    ClearFail, RatMatrix, TextFail, TextFault, TextKind, cleared, read_matrix, write_matrix,
};
use std::alloc::Global;
use std::test::Fail;
use symmetric_matrix::{IntKind, IntOp};

fn first_fault(alloc: Global, text: &[u8]) -> Option<TextFault> {
    if text.len() > 1_048_576 {
        return None;
    }
    match read_matrix(alloc, text) {
        Err(TextFail::Fault(fault)) => Some(fault),
        _ => None,
    }
}

#[test]
fn first_faults_have_lines(rt: HostRuntime) {
    let texts: [(&[u8], TextKind, u32); 28] = [
        (b"", TextKind::NoHeader, 1),
        (b"# a comment\n\n", TextKind::NoHeader, 3),
        (b"cpmatrix 1\n", TextKind::NoHeader, 1),
        (b"cpmatrix 1 1 1\n1\n", TextKind::NoHeader, 1),
        (b"matrix 2 9\n", TextKind::NoHeader, 1),
        (b"cpmatrix 2 1\n5\n", TextKind::BadVersion, 1),
        (b"cpmatrix 01 1\n5\n", TextKind::BadVersion, 1),
        (b"cpmatrix 1 7\n", TextKind::BadDimension, 1),
        (b"cpmatrix 1 0\n", TextKind::BadDimension, 1),
        (b"\ncpmatrix 1 -1\n", TextKind::BadDimension, 2),
        (b"cpmatrix 1 2\n2 1\n", TextKind::MissingRow, 3),
        (b"cpmatrix 1 2\n2 1", TextKind::MissingRow, 3),
        (b"cpmatrix 1 2\n2\n1 2\n", TextKind::ShortRow, 2),
        (b"cpmatrix 1 2\n2 1 0\n1 2\n", TextKind::LongRow, 2),
        (b"cpmatrix 1 2\n2 1 x\n1 2\n", TextKind::LongRow, 2),
        (b"cpmatrix 1 2\n2 x 1\n1 2\n", TextKind::BadNumber, 2),
        (b"cpmatrix 1 1\n+2\n", TextKind::BadNumber, 2),
        (b"cpmatrix 1 1\n1/-2\n", TextKind::BadNumber, 2),
        (b"cpmatrix 1 1\n1/2/3\n", TextKind::BadNumber, 2),
        (b"cpmatrix 1 1\n-\n", TextKind::BadNumber, 2),
        (b"cpmatrix 1 1\n1/0\n", TextKind::ZeroDenominator, 2),
        (
            b"cpmatrix 1 1\n9223372036854775808/0\n",
            TextKind::NumberTooLarge,
            2,
        ),
        (
            b"cpmatrix 1 1\n99999999999999999999999999999999999999999999999999/1\n",
            TextKind::NumberTooLarge,
            2,
        ),
        (b"cpmatrix 1 1\n1\n2\n", TextKind::ExtraLine, 3),
        (b"cpmatrix 1 1\n1\nx\xff\n", TextKind::NotAscii, 3),
        (b"cpmatrix 1 2\n2 1\n0 x\n", TextKind::BadNumber, 3),
        (
            b"cpmatrix 1 3\n1 2 3\n\n2 1 4\n3 5 1\n",
            TextKind::NotSymmetric,
            5,
        ),
        (b"cpmatrix 1 1\n\xb2\n", TextKind::NotAscii, 2),
    ];
    for (text, kind, line) in texts {
        let fault = first_fault(rt.alloc(), text);
        assert_eq!(rt; fault, Some(TextFault { kind, line }));
    }
}

fn entry_at(a: &RatMatrix, row: u8, column: u8) -> Option<Fraction> {
    if row == 0 || column == 0 || row > a.n() || column > a.n() {
        return None;
    }
    Some(a.entry(row, column))
}

#[test]
fn texts_are_read(rt: HostRuntime) -> Result<(), Fail> {
    let spaced = read_matrix(
        rt.alloc(),
        b"# a comment\xff\n\ncpmatrix 1 2\r\n\t2  01\n1 4/2",
    )?;
    assert_eq!(rt; spaced.n(), 2);
    assert_eq!(rt; entry_at(&spaced, 1, 2), Some(Fraction::whole(1)));
    assert_eq!(rt; entry_at(&spaced, 2, 2), Some(Fraction::whole(2)));
    let reduced = read_matrix(
        rt.alloc(),
        b"cpmatrix 1 2\n-6/4 -0\n0/5 9223372036854775807\n",
    )?;
    assert_eq!(rt; entry_at(&reduced, 1, 1), Some(Fraction::new(-3, 2)));
    assert_eq!(rt; entry_at(&reduced, 2, 1), Some(Fraction::whole(0)));
    assert_eq!(rt;
        entry_at(&reduced, 2, 2),
        Some(Fraction::whole(9223372036854775807))
    );
    Ok(())
}

#[test]
fn a_matrix_is_written_in_lowest_terms(rt: HostRuntime) -> Result<(), Fail> {
    let text = b"cpmatrix 1 3\n3/2 1 1/2\n1 2 1\n1/2 1 3/2\n".as_slice();
    let a = read_matrix(rt.alloc(), b"cpmatrix 1 3\n6/4 1 1/2\n3/3 2 1\n2/4 1 3/2\n")?;
    let mut into = Vec::from_slice(rt.alloc(), b"before\n")?;
    write_matrix(&a, &mut into)?;
    assert!(rt;
        into.as_slice()
            == [b"before\n".as_slice(), text]
                .concat(rt.alloc())?
                .as_slice()
    );
    Ok(())
}

#[tactic(auto, unfolding(exact_forms::specs::Triangles::triangle))]
#[test]
fn matrices_are_cleared(rt: HostRuntime) -> Result<(), Fail> {
    let third = read_matrix(rt.alloc(), b"cpmatrix 1 1\n5/3\n")?;
    let (whole, denominator) = cleared(rt.alloc(), &third)?;
    assert_eq!(rt; whole.get(1, 1), 5);
    assert_eq!(rt; denominator, 3);
    let lower = [
        Fraction::new(1, 4),
        Fraction::new(-1, 6),
        Fraction::whole(2),
    ];
    let twelfths = RatMatrix::from_lower(rt.alloc(), 2, &lower)?;
    let (whole, denominator) = cleared(rt.alloc(), &twelfths)?;
    assert_eq!(rt; denominator, 12);
    assert_eq!(rt; whole.get(1, 1), 3);
    assert_eq!(rt; whole.get(1, 2), -2);
    assert_eq!(rt; whole.get(2, 2), 24);
    Ok(())
}

#[test]
fn a_wide_denominator_is_refused_at_its_entry(rt: HostRuntime) -> Result<(), Fail> {
    let a = read_matrix(
        rt.alloc(),
        b"cpmatrix 1 2\n1/9223372036854775807 1/9223372036854775806\n1/9223372036854775806 1/9223372036854775805\n",
    )?;
    let op = IntOp {
        kind: IntKind::Mul,
        left: 85070591730234615838173535747377725442,
        right: 9223372036854775805,
    };
    let refused = cleared(rt.alloc(), &a).err();
    assert_eq!(rt;
        refused,
        Some(ClearFail::Wide {
            row: 2,
            column: 2,
            op
        })
    );
    Ok(())
}

#[test]
fn refusals_have_messages(rt: HostRuntime) -> Result<(), Fail> {
    let fault = TextFail::Fault(TextFault {
        kind: TextKind::NoHeader,
        line: 1,
    });
    assert_eq!(rt;
        format!(in rt.alloc(); "{fault}")?.as_str(),
        "fault in the text"
    );
    let memory = TextFail::OutOfMemory;
    assert_eq!(rt;
        format!(in rt.alloc(); "{memory}")?.as_str(),
        "want of memory"
    );
    Ok(())
}
