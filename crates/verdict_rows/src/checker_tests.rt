//! Verdicts on small matrices.

ghost use Rattle.std.specs.Prelude.{◌≡◌, length, IfOk, OnOk};
ghost use Rattle.std.specs.List.{All};
ghost use Rattle.cone_tree_certificate.specs.VerdictText.{HasSplit, IsCheckable};

use certificate_checker::{Checked, check_verdict};
use cone_tree_certificate::{ConeTree, TermLines, TreeLine, Verdict};
use fraction128::{Fraction, Term};
use matrix_text::{RatMatrix, read_matrix};
use std::alloc::{AllocError, Global};
use std::test::Fail;
use symmetric_matrix::{IntKind, IntOp, IntVector, SymInt};

fn matrix(alloc: Global, text: &[u8]) -> Option<RatMatrix> {
    if text.len() > 1_048_576 {
        return None;
    }
    read_matrix(alloc, text).ok()
}

/// A term with two coordinates.
fn term(alloc: Global, weight: u8, x: u8, y: u8) -> Term
    ensures { length result.vector ≡ 2 }
{
    Term {
        weight: Fraction::whole(i128::from(weight)),
        vector: IntVector::from_slice(alloc, &[u64::from(x), u64::from(y)]),
    }
}

/// A weight and two coordinates for each term.
fn terms(alloc: Global, rows: &[(u8, u8, u8)]) -> Result<TermLines, AllocError>
    ensures { IfOk result (All (λ term. length term.vector ≡ 2)) }
{
    let mut terms = TermLines::new(alloc);
    for row in rows {
        terms.push(term(alloc, row.0, row.1, row.2))?;
    }
    Ok(terms)
}

#[test]
fn factorizations(rt: HostRuntime) -> Result<(), Fail> {
    let rows: [(&[u8], &[(u8, u8, u8)], Checked); 7] = [
        (
            b"cpmatrix 1 2\n6 3\n3 2\n",
            &[(1, 1, 0), (1, 1, 1), (1, 2, 1)],
            Checked::Accepted,
        ),
        (
            b"cpmatrix 1 2\n6 3\n3 2\n",
            &[(2, 1, 0), (1, 1, 1), (1, 2, 1)],
            Checked::SumDiffers { row: 1, column: 1 },
        ),
        (
            b"cpmatrix 1 1\n5/3\n",
            &[(1, 0, 1), (1, 1, 0), (1, 1, 1)],
            Checked::Dimension,
        ),
        (
            b"cpmatrix 1 2\n2 1\n1 2\n",
            &[(1, 1, 0), (1, 0, 1), (1, 1, 1)],
            Checked::BadTerm { index: 2 },
        ),
        (
            b"cpmatrix 1 2\n2 0\n0 0\n",
            &[(1, 1, 0), (1, 1, 0)],
            Checked::BadTerm { index: 2 },
        ),
        (
            b"cpmatrix 1 2\n0 0\n0 0\n",
            &[(1, 0, 0)],
            Checked::BadTerm { index: 1 },
        ),
        (b"cpmatrix 1 2\n0 0\n0 0\n", &[], Checked::Accepted),
    ];
    for (text, weighted, expected) in rows {
        let a = matrix(rt.alloc(), text).expect(&rt, "a matrix");
        let verdict = Verdict::Factors {
            n: 2,
            terms: terms(rt.alloc(), weighted)?,
        };
        assert_eq!(rt; check_verdict(&a, &verdict), expected);
    }
    Ok(())
}

#[test]
fn a_product_that_does_not_fit(rt: HostRuntime) -> Result<(), Fail> {
    let a = matrix(rt.alloc(), b"cpmatrix 1 1\n5/3\n").expect(&rt, "a matrix");
    let mut terms = TermLines::new(rt.alloc());
    terms.push(Term {
        weight: Fraction::whole(i128::MAX),
        vector: IntVector::from_slice(rt.alloc(), &[2]),
    })?;
    let expected = Checked::Wide {
        op: IntOp {
            kind: IntKind::Mul,
            left: i128::MAX,
            right: 4,
        },
    };
    let verdict = Verdict::Factors { n: 1, terms };
    assert_eq!(rt; check_verdict(&a, &verdict), expected);
    Ok(())
}

/// Splits of 1 and 2, and then leaves.
fn lines(alloc: Global, splits: u8, leaves: u8) -> Result<ConeTree, AllocError>
    ensures { IfOk result (All (HasSplit 2)) }
{
    let mut tree = ConeTree::new(alloc);
    for _split in 0..splits {
        tree.push(TreeLine::Split { i: 1, j: 2 })?;
    }
    push_leaves(&mut tree, leaves)?;
    Ok(tree)
}

fn push_leaves(tree: &mut ConeTree, leaves: u8) -> Result<(), AllocError>
    requires { All (HasSplit 2) tree.old }
    ensures { OnOk result (All (HasSplit 2) tree.new) }
{
    for _leaf in 0..leaves {
        tree.push(TreeLine::Leaf)?;
    }
    Ok(())
}

/// The matrix `6 -3 / -3 2`, or `0 1 / 1 0`.
fn two(alloc: Global, first: bool) -> Result<SymInt, AllocError>
    ensures { IfOk result (λ w. w.size ≡ 2) }
{
    if first {
        SymInt::from_lower(alloc, 2, &[6, -3, 2])
    } else {
        SymInt::from_lower(alloc, 2, &[0, 1, 0])
    }
}

/// One of the two matrices as a separator, with this value, and the tree of so many splits and leaves.
fn separator(alloc: Global, first: bool, value: i16, tree: (u8, u8)) -> Result<Verdict, AllocError>
    ensures { IfOk result IsCheckable }
{
    Ok(Verdict::Separator {
        w: two(alloc, first)?,
        value: Fraction::whole(i128::from(value)),
        tree: lines(alloc, tree.0, tree.1)?,
    })
}

#[test]
fn separations(rt: HostRuntime) -> Result<(), Fail> {
    let one: &[u8] = b"cpmatrix 1 2\n1 2\n2 2\n";
    let other: &[u8] = b"cpmatrix 1 2\n1 -1\n-1 1\n";
    let zero: &[u8] = b"cpmatrix 1 2\n0 0\n0 0\n";
    let rows = [
        (one, true, -2, (1, 2), Checked::Accepted),
        (one, true, -2, (1, 1), Checked::TreeShape { index: 2 }),
        (one, true, -2, (1, 3), Checked::TreeShape { index: 4 }),
        (one, true, -2, (0, 1), Checked::OpenLeaf { index: 1 }),
        (one, true, -2, (0, 0), Checked::TreeShape { index: 0 }),
        (one, true, -2, (201, 0), Checked::TreeShape { index: 201 }),
        (zero, false, -2, (0, 1), Checked::NotNegative),
        (other, false, -2, (0, 1), Checked::Accepted),
        (other, false, -3, (0, 1), Checked::ValueDiffers),
    ];
    for (text, first, value, tree, expected) in rows {
        let a = matrix(rt.alloc(), text).expect(&rt, "a matrix");
        let verdict = separator(rt.alloc(), first, value, tree)?;
        assert_eq!(rt; check_verdict(&a, &verdict), expected);
    }
    Ok(())
}
