//! Texts of verdicts, read and written.

use cone_tree_certificate::{
    ConeTree, TermLines, TreeLine, Verdict, VerdictFail, VerdictFault, VerdictKind, read_verdict,
    write_verdict,
};
use std::alloc::Global;
use std::test::Fail;

fn first_fault(alloc: Global, text: &[u8]) -> Option<VerdictFault> {
    if text.len() > 67_108_864 {
        return None;
    }
    match read_verdict(alloc, text) {
        Err(VerdictFail::Fault(fault)) => Some(fault),
        _ => None,
    }
}

#[test]
fn first_faults_have_lines(rt: HostRuntime) {
    let texts: [(&[u8], VerdictKind, u32); 35] = [
        (b"", VerdictKind::NoHeader, 1),
        (b"# a comment\n\n", VerdictKind::NoHeader, 3),
        (b"factored 1\n", VerdictKind::NoHeader, 1),
        (b"factored 1 1 1\n1/1 1\n", VerdictKind::NoHeader, 1),
        (b"separated 1 1\n", VerdictKind::NoHeader, 1),
        (b"verdict 9\n", VerdictKind::NoHeader, 1),
        (b"\nfactored 0 x\n", VerdictKind::BadDimension, 2),
        (b"separated 7\n", VerdictKind::BadDimension, 1),
        (b"factored 1 -1\n", VerdictKind::BadNumber, 1),
        (
            b"factored 1 18446744073709551616\n",
            VerdictKind::NumberTooLarge,
            1,
        ),
        (
            b"factored 1 18446744073709551615\n",
            VerdictKind::MissingLine,
            2,
        ),
        (b"factored 1 2\n1/1 1\n", VerdictKind::MissingLine, 3),
        (b"factored 1 1\n1/1 1\n1/1 2\n", VerdictKind::ExtraLine, 3),
        (b"factored 1 0\nx\xff\n", VerdictKind::NotAscii, 2),
        (b"factored 1 1\n1/0 1\n", VerdictKind::ZeroDenominator, 2),
        (b"factored 1 1\n1/0 x\n", VerdictKind::ZeroDenominator, 2),
        (b"factored 1 1\n1/1 -1\n", VerdictKind::BadNumber, 2),
        (
            b"factored 1 1\n1/1 4611686018427387905\n",
            VerdictKind::NumberTooLarge,
            2,
        ),
        (
            b"factored 1 1\n170141183460469231731687303715884105728/1 1\n",
            VerdictKind::NumberTooLarge,
            2,
        ),
        (b"factored 2 1\n1/1 1\n", VerdictKind::ShortLine, 2),
        (b"factored 2 1\n1/1 1 1 x\n", VerdictKind::LongLine, 2),
        (
            b"separated 2\n0 1\n2 0\nvalue -2/1\ntree 1\nleaf\n",
            VerdictKind::NotSymmetric,
            3,
        ),
        (b"separated 2\n0 1\n1/1 0\n", VerdictKind::BadNumber, 3),
        (b"separated 1\n1\nvalues 1\n", VerdictKind::BadWord, 3),
        (b"separated 1\n1\nvalue\n", VerdictKind::ShortLine, 3),
        (b"separated 1\n1\nvalue 1 1\n", VerdictKind::LongLine, 3),
        (
            b"separated 1\n1\nvalue 1\ncount 1\n",
            VerdictKind::BadWord,
            4,
        ),
        (
            b"separated 1\n1\nvalue 1\ntree 1\nleaves\n",
            VerdictKind::BadWord,
            5,
        ),
        (
            b"separated 1\n1\nvalue 1\ntree 1\nleaf x\n",
            VerdictKind::LongLine,
            5,
        ),
        (
            b"separated 2\n0 1\n1 0\nvalue -2/1\ntree 1\nsplit 2 2\n",
            VerdictKind::BadSplit,
            6,
        ),
        (
            b"separated 2\n0 1\n1 0\nvalue -2/1\ntree 1\nsplit 1 3\n",
            VerdictKind::BadSplit,
            6,
        ),
        (
            b"separated 2\n0 1\n1 0\nvalue -2/1\ntree 1\nsplit 2 2 3\n",
            VerdictKind::LongLine,
            6,
        ),
        (
            b"separated 2\n0 1\n1 0\nvalue -2/1\ntree 1\nsplit 0 4294967296\n",
            VerdictKind::NumberTooLarge,
            6,
        ),
        (
            b"separated 2\n0 1\n1 0\nvalue -2/1\ntree 1\nsplit 1\n",
            VerdictKind::ShortLine,
            6,
        ),
        (
            b"separated 2\n6 -3\n-3 2\nvalue -2/1\ntree 3\nsplit 1 2\nleaf\n",
            VerdictKind::MissingLine,
            8,
        ),
    ];
    for (text, kind, line) in texts {
        assert!(&rt; first_fault(rt.alloc(), text) == Some(VerdictFault { kind, line }));
    }
}

#[test]
fn a_separation_is_read_and_written(rt: HostRuntime) -> Result<(), Fail> {
    let alloc = rt.alloc();
    let text: &[u8] =
        b"# W\nseparated 2\r\n6 -3\n-03 2\nvalue -4/2\ntree 3\nsplit 1 2\nleaf\n\nleaf";
    let written: &[u8] = b"separated 2\n6 -3\n-3 2\nvalue -2/1\ntree 3\nsplit 1 2\nleaf\nleaf\n";
    let verdict = read_verdict(alloc, text)?;
    let mut bytes = Vec::new(alloc);
    write_verdict(&verdict, &mut bytes)?;
    assert!(&rt; bytes.as_slice() == written);
    let Verdict::Separator { w, value, tree } = &verdict else {
        return Err(Fail::from("a separation"));
    };
    assert!(&rt; w.n() == 2);
    assert!(&rt; value.num() == -2);
    assert!(&rt; tree.len() == 3);
    assert!(&rt; *tree.at(0) == TreeLine::Split { i: 1, j: 2 });
    assert!(&rt; *tree.at(1) == TreeLine::Leaf);
    Ok(())
}

#[test]
fn a_factorization_is_read_and_written(rt: HostRuntime) -> Result<(), Fail> {
    let alloc = rt.alloc();
    let text: &[u8] =
        b"factored 2 2\n-1/3 4611686018427387904 0\n170141183460469231731687303715884105727/1 0 1\n";
    let verdict = read_verdict(alloc, text)?;
    let mut bytes = Vec::new(alloc);
    write_verdict(&verdict, &mut bytes)?;
    assert!(&rt; bytes.as_slice() == text);
    let Verdict::Factors { n, terms } = &verdict else {
        return Err(Fail::from("a factorization"));
    };
    assert!(&rt; *n == 2);
    assert!(&rt; terms.len() == 2);
    assert!(&rt; 0 < terms.len());
    assert!(&rt; terms.at(0).weight.den() == 3);
    Ok(())
}

#[test]
fn lists_grow(rt: HostRuntime) -> Result<(), Fail> {
    let alloc = rt.alloc();
    let mut tree = ConeTree::new(alloc);
    tree.push(TreeLine::Leaf)?;
    assert!(&rt; tree.len() == 1);
    let terms = TermLines::new(alloc);
    assert!(&rt; terms.len() == 0);
    Ok(())
}

#[test]
fn failures_have_fixed_messages(rt: HostRuntime) -> Result<(), Fail> {
    let fault = VerdictFail::Fault(VerdictFault {
        kind: VerdictKind::NoHeader,
        line: 1,
    });
    assert!(&rt; fault.to_string(rt.alloc())?.as_str() == "fault in the text");
    assert!(&rt; VerdictFail::OutOfMemory.to_string(rt.alloc())?.as_str() == "want of memory");
    Ok(())
}
