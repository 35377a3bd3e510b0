//! The value ⟨W,A⟩.

ghost use Rattle.std.specs.Prelude.{◌≡◌, ◌≤◌, ◌<◌, ◌+◌, ◌*ℤ◌, [], ◌∷◌, int_lt, pos, OnOk, IfOk, IfErr, Some, None};
ghost use Rattle.exact_forms.specs.Rational.{◌+ℚ◌};
ghost use Rattle.exact_forms.specs.Factors.{inner_ℚ};
ghost use Rattle.symmetric_matrix.specs.Symmetric.{entry};
ghost use Rattle.symmetric_matrix.specs.Owed.{answer, first_owed};
ghost use Rattle.symmetric_matrix.specs.Operations.{is_owed, mul_op};
ghost use Rattle.matrix_text.specs.RationalMatrix.{rational_entry};
ghost use Rattle.certificate_checker.specs.Checks.{first_refusal};
ghost use Rattle.certificate_checker.specs.Loops.{steps};
ghost use Rattle.certificate_checker.specs.Pairing.{often, multiple_entry, pair_at, sum_before, pair_step_from, pair_step, pair_ops, is_below_zero, value_checks};

use crate::checked::Checked;
use fraction128::Fraction;
use matrix_text::RatMatrix;
use symmetric_matrix::{IntOp, SymInt, int_mul};

/// How often the entry at a place of the lower triangle stands in the matrix.
fn often(i: u8, j: u8) -> i128
    ensures { result ≡ often i j }
{
    if i == j { 1 } else { 2 }
}

/// An entry of W, as often as it stands in the matrix, or the operation where that does not fit. Rows and columns count from 0.
fn multiple(w: &SymInt, i: u8, j: u8) -> Result<i128, IntOp>
    requires row { i < w.now.size }
    requires column { j < w.now.size }
    ensures { result ≡ answer is_owed (mul_op (often i j) (entry w.now i j) ∷ []) (multiple_entry w.now i j) }
{
    let _n = w.n();
    int_mul(often(i, j), w.get(i + 1, j + 1))
}

/// A sum with the entries at a place added to it, or the first operation that does not fit.
fn add_pair(sum: Fraction, w: &SymInt, a: &RatMatrix, i: u8, j: u8) -> Result<Fraction, IntOp>
    requires size { w.now.size ≡ a.now.size }
    requires row { i < a.now.size }
    requires column { j < a.now.size }
    ensures { result ≡ answer is_owed (pair_step_from sum w.now a.now i j) (sum +ℚ pair_at w.now a.now i j) }
{
    let _n = a.n();
    let multiple = multiple(w, i, j)?;
    let product = a.entry(i + 1, j + 1).mul(Fraction::whole(multiple))?;
    sum.add(product)
}

/// The sum after a row, up to the diagonal.
fn add_row(sum: Fraction, w: &SymInt, a: &RatMatrix, i: u8) -> Result<Fraction, IntOp>
    requires size { w.now.size ≡ a.now.size }
    requires row { i < a.now.size }
    requires sum { sum ≡ sum_before w.now a.now i 0 }
    ensures fits { OnOk result (first_owed is_owed (steps (pair_step w.now a.now i) (i + 1)) ≡ None) }
    ensures value { IfOk result (λ s. s ≡ sum_before w.now a.now (i + 1) 0) }
    ensures wide { IfErr result (λ op. first_owed is_owed (steps (pair_step w.now a.now i) (i + 1)) ≡ Some op) }
{
    let _n = a.n();
    let mut sum = sum;
    for j in 0..i + 1 {
        sum = add_pair(sum, w, a, i, j)?;
    }
    Ok(sum)
}

/// ⟨W,A⟩, or the first operation that does not fit.
fn pairing(w: &SymInt, a: &RatMatrix) -> Result<Fraction, IntOp>
    requires { w.now.size ≡ a.now.size }
    ensures fits { OnOk result (first_owed is_owed (pair_ops w.now a.now) ≡ None) }
    ensures value { IfOk result (λ s. s ≡ inner_ℚ a.now.size (entry w.now) (rational_entry a.now)) }
    ensures wide { IfErr result (λ op. first_owed is_owed (pair_ops w.now a.now) ≡ Some op) }
{
    let n = a.n();
    let mut sum = Fraction::whole(0);
    for i in 0..n {
        sum = add_row(sum, w, a, i)?;
    }
    Ok(sum)
}

fn is_negative(q: Fraction) -> bool
    ensures { result ≡ is_below_zero q }
{
    q.num() < 0
}

/// Tests that ⟨W,A⟩ is negative, and the value.
pub fn check_value(w: &SymInt, value: Fraction, a: &RatMatrix) -> Result<(), Checked>
    requires { w.now.size ≡ a.now.size }
    ensures passes { OnOk result (first_refusal (value_checks w.now value a.now) ≡ None) }
    ensures refused { IfErr result (λ refusal. first_refusal (value_checks w.now value a.now) ≡ Some refusal) }
{
    match pairing(w, a) {
        Ok(sum) => {
            if !is_negative(sum) {
                return Err(Checked::NotNegative);
            }
            if sum != value {
                return Err(Checked::ValueDiffers);
            }
            Ok(())
        }
        Err(op) => Err(Checked::Wide { op }),
    }
}
