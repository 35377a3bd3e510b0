//! The terms of a factorization.

ghost use Rattle.std.specs.Prelude.{◌≡◌, ◌≤◌, ◌<◌, ◌+◌, ◌-◌, ◌++◌, int_lt, pos, length, take, IsTrue, OnOk, IfOk, IfErr, Some, None};
ghost use Rattle.std.specs.List.{All};
ghost use Rattle.exact_forms.specs.Rational.{◌+ℚ◌, ◌*ℚ◌};
ghost use Rattle.exact_forms.specs.Factors.{weighted_sum};
ghost use Rattle.symmetric_matrix.specs.Owed.{answer, first_owed};
ghost use Rattle.symmetric_matrix.specs.Operations.{is_owed};
ghost use Rattle.fraction128.specs.Recipes.{mul_ops, add_ops};
ghost use Rattle.certificate_checker.specs.Checks.{first_refusal};
ghost use Rattle.certificate_checker.specs.Loops.{steps, by_places};
ghost use Rattle.certificate_checker.specs.Terms.{comes_before, has_place, is_good_term, order_checks, outer_entry, weighted_step, sum_checks, factor_checks};

use crate::checked::Checked;
use cone_tree_certificate::TermLines;
use fraction128::{Fraction, Term};
use matrix_text::RatMatrix;
use std::cmp::Ordering;
use symmetric_matrix::{IntOp, IntVector};

fn is_positive(weight: Fraction) -> bool
    ensures { result ≡ int_lt (pos 0) weight.num }
{
    0 < weight.num()
}

/// Whether some coordinate is not 0.
fn has_place(x: &IntVector) -> bool
    ensures { result ≡ has_place x.now }
{
    x.as_slice().iter().any(|c| *c != 0)
}

/// Whether a vector comes before another of the same length.
fn comes_before(x: &IntVector, y: &IntVector) -> bool
    requires { length x.now ≡ length y.now }
    ensures { result ≡ comes_before x.now y.now }
{
    match x.cmp(y) {
        Ordering::Less => true,
        _ => false,
    }
}

/// Whether the weight of a term is positive, and its vector not zero and greater than the one before.
fn is_good_term(n: u8, terms: &TermLines, k: usize) -> bool
    requires sized { All (λ term. length term.vector ≡ n) terms.now }
    requires range { k < length terms.now }
    ensures { result ≡ is_good_term terms.now k }
{
    let term = terms.at(k);
    let _n = term.vector.len();
    if !is_positive(term.weight) {
        return false;
    }
    if !has_place(&term.vector) {
        return false;
    }
    if k == 0 {
        return true;
    }
    comes_before(&terms.at(k - 1).vector, &term.vector)
}

/// Tests each term by itself and with the one before.
fn check_order(n: u8, terms: &TermLines) -> Result<(), Checked>
    requires { All (λ term. length term.vector ≡ n) terms.now }
    ensures passes { OnOk result (first_refusal (order_checks terms.now) ≡ None) }
    ensures refused { IfErr result (λ refusal. first_refusal (order_checks terms.now) ≡ Some refusal) }
{
    for k in 0..terms.len() {
        if !is_good_term(n, terms, k) {
            return Err(Checked::BadTerm {
                index: k as u64 + 1,
            });
        }
    }
    Ok(())
}

/// The product of two coordinates, at places that count from 0.
fn square(term: &Term, i: u8, j: u8) -> Fraction
    requires first { i < length term.now.vector }
    requires second { j < length term.now.vector }
    ensures { result ≡ outer_entry term.now i j }
{
    let _n = term.vector.len();
    let x = term.vector.at(i + 1) as u128;
    let y = term.vector.at(j + 1) as u128;
    Fraction::whole((x * y) as i128)
}

/// A sum with a term added to it, at places that count from 0, or the first operation that does not fit.
fn add_term(sum: Fraction, term: &Term, i: u8, j: u8) -> Result<Fraction, IntOp>
    requires first { i < length term.now.vector }
    requires second { j < length term.now.vector }
    ensures { result
        ≡ answer is_owed (mul_ops term.now.weight (outer_entry term.now i j)
        ++ add_ops sum (term.now.weight *ℚ outer_entry term.now i j))
        (sum +ℚ term.now.weight *ℚ outer_entry term.now i j) }
{
    let product = term.weight.mul(square(term, i, j))?;
    sum.add(product)
}

/// The sum of the terms at a row and a column that count from 0, or the first operation that does not fit.
fn sum_at(n: u8, terms: &TermLines, i: u8, j: u8) -> Result<Fraction, IntOp>
    requires sized { All (λ term. length term.vector ≡ n) terms.now }
    requires row { i < n }
    requires column { j < n }
    ensures fits { OnOk result (first_owed is_owed (steps (weighted_step terms.now i j) (length terms.now)) ≡ None) }
    ensures value { IfOk result (λ sum. sum ≡ weighted_sum terms.now i j) }
    ensures wide { IfErr result (λ op. first_owed is_owed (steps (weighted_step terms.now i j) (length terms.now))
        ≡ Some op) }
{
    let mut sum = Fraction::whole(0);
    for k in 0..terms.len() {
        sum = add_term(sum, terms.at(k), i, j)?;
    }
    Ok(sum)
}

/// Tests the sum at a row and a column, which count from 0.
fn check_sum(a: &RatMatrix, terms: &TermLines, i: u8, j: u8) -> Result<(), Checked>
    requires sized { All (λ term. length term.vector ≡ a.now.size) terms.now }
    requires row { i < a.now.size }
    requires column { j < a.now.size }
    ensures passes { OnOk result (first_refusal (sum_checks a.now terms.now i j) ≡ None) }
    ensures refused { IfErr result (λ refusal. first_refusal (sum_checks a.now terms.now i j) ≡ Some refusal) }
{
    let n = a.n();
    match sum_at(n, terms, i, j) {
        Ok(sum) => {
            if sum != a.entry(i + 1, j + 1) {
                return Err(Checked::SumDiffers {
                    row: i + 1,
                    column: j + 1,
                });
            }
            Ok(())
        }
        Err(op) => Err(Checked::Wide { op }),
    }
}

/// Tests the sums of a row up to the diagonal.
fn check_row(a: &RatMatrix, terms: &TermLines, i: u8) -> Result<(), Checked>
    requires sized { All (λ term. length term.vector ≡ a.now.size) terms.now }
    requires row { i < a.now.size }
    ensures passes { OnOk result (first_refusal (steps (sum_checks a.now terms.now i) (i + 1)) ≡ None) }
    ensures refused { IfErr result (λ refusal. first_refusal (steps (sum_checks a.now terms.now i) (i + 1))
        ≡ Some refusal) }
{
    let _n = a.n();
    for j in 0..i + 1 {
        check_sum(a, terms, i, j)?;
    }
    Ok(())
}

/// Tests the sums, row after row.
fn check_sums(a: &RatMatrix, terms: &TermLines) -> Result<(), Checked>
    requires { All (λ term. length term.vector ≡ a.now.size) terms.now }
    ensures passes { OnOk result (first_refusal (by_places a.now.size (sum_checks a.now terms.now)) ≡ None) }
    ensures refused { IfErr result (λ refusal. first_refusal (by_places a.now.size (sum_checks a.now terms.now))
        ≡ Some refusal) }
{
    let n = a.n();
    for i in 0..n {
        check_row(a, terms, i)?;
    }
    Ok(())
}

/// Tests the terms of a factorization of A.
pub fn check_terms(a: &RatMatrix, terms: &TermLines) -> Result<(), Checked>
    requires { All (λ term. length term.vector ≡ a.now.size) terms.now }
    ensures passes { OnOk result (first_refusal (factor_checks a.now terms.now) ≡ None) }
    ensures refused { IfErr result (λ refusal. first_refusal (factor_checks a.now terms.now) ≡ Some refusal) }
{
    check_order(a.n(), terms)?;
    check_sums(a, terms)
}
