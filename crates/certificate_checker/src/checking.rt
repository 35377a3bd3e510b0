//! Checking a verdict.

ghost use Rattle.std.specs.Prelude.{◌≡◌, ◌≢◌, length, OnOk, IfErr, Some, None};
ghost use Rattle.std.specs.List.{All};
ghost use Rattle.certificate_checker.specs.Checks.{first_refusal, answer_of};
ghost use Rattle.certificate_checker.specs.Verdicts.{factors_checks, separator_checks, checks, IsRight};
ghost use Rattle.cone_tree_certificate.specs.VerdictText.{HasSplit, IsCheckable};
ghost use Rattle.certificate_checker.specs.declared.checked.Checked.TheVariants.{Accepted, OutOfMemory};

use crate::checked::Checked;
use crate::pairing::check_value;
use crate::terms::check_terms;
use crate::tree::check_tree;
use cone_tree_certificate::{ConeTree, TermLines, Verdict};
use fraction128::Fraction;
use matrix_text::RatMatrix;
use symmetric_matrix::SymInt;

/// Tests a factorization.
fn check_factors(a: &RatMatrix, n: u8, terms: &TermLines) -> Result<(), Checked>
    requires { All (λ term. length term.vector ≡ n) terms.now }
    ensures passes { OnOk result (first_refusal (factors_checks a.now n terms.now) ≡ None) }
    ensures refused { IfErr result (λ refusal. first_refusal (factors_checks a.now n terms.now) ≡ Some refusal) }
{
    if n != a.n() {
        return Err(Checked::Dimension);
    }
    check_terms(a, terms)
}

/// Tests a separation.
fn check_separator(
    a: &RatMatrix,
    w: &SymInt,
    value: Fraction,
    tree: &ConeTree,
) -> Result<(), Checked>
    requires { All (HasSplit w.now.size) tree.now }
    ensures passes { OnOk result (first_refusal (separator_checks a.now w.now value tree.now) ≡ None) }
    ensures refused { IfErr result (λ refusal. first_refusal (separator_checks a.now w.now value tree.now)
        ≡ Some refusal) }
{
    if w.n() != a.n() {
        return Err(Checked::Dimension);
    }
    check_value(w, value, a)?;
    check_tree(w, tree)
}

/// Tests a verdict.
fn checked(a: &RatMatrix, v: &Verdict) -> Result<(), Checked>
    requires { IsCheckable v.now }
    ensures passes { OnOk result (first_refusal (checks a.now v.now) ≡ None) }
    ensures refused { IfErr result (λ refusal. first_refusal (checks a.now v.now) ≡ Some refusal) }
{
    match v {
        Verdict::Factors { n, terms } => check_factors(a, *n, terms),
        Verdict::Separator { w, value, tree } => check_separator(a, w, *value, tree),
    }
}

/// Accepts a verdict on A that is right, or gives the refusal of the first test that fails. It takes no memory.
///
/// Each vector of the verdict has the verdict's n coordinates, and each split has 1 ≤ i < j ≤ n, n being W's number of rows.
pub fn check_verdict(a: &RatMatrix, v: &Verdict) -> Checked
    requires { IsCheckable v.now }
    ensures exact { result ≡ answer_of (first_refusal (checks a.now v.now)) }
    ensures right { result ≡ Accepted → IsRight a.now v.now }
    ensures memory { result ≢ OutOfMemory }
{
    match checked(a, v) {
        Ok(()) => Checked::Accepted,
        Err(refusal) => refusal,
    }
}
