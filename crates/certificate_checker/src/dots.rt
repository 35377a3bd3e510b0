//! Sums of products.

ghost use Rattle.std.specs.Prelude.{◌≡◌, ◌≤◌, [], ◌∷◌, ◌+ℤ◌, ◌*ℤ◌, length, Some, None, OnOk, IfOk, IfErr};
ghost use Rattle.symmetric_matrix.specs.Owed.{answer, first_owed};
ghost use Rattle.symmetric_matrix.specs.Operations.{is_owed, mul_op, add_op};
ghost use Rattle.certificate_checker.specs.Rows.{numbers, at, AreFirst};
ghost use Rattle.certificate_checker.specs.Dots.{dot, dot_ops, rows_times, times_ops};

use symmetric_matrix::{IntOp, int_add, int_mul};

// sum + left * right
fn add_product(sum: i128, left: i128, right: i128) -> Result<i128, IntOp>
    ensures { result ≡ answer is_owed (mul_op left right ∷ add_op sum (left *ℤ right) ∷ []) (sum +ℤ left *ℤ right) }
{
    let product = int_mul(left, right)?;
    int_add(sum, product)
}

/// The sum of the products of the first n numbers, or the first operation that does not fit.
fn dot(n: usize, x: &[i128; 8], y: &[i128; 8]) -> Result<i128, IntOp>
    requires { n ≤ 8 }
    ensures fits { OnOk result (first_owed is_owed (dot_ops n (numbers x.now) (numbers y.now)) ≡ None) }
    ensures value { IfOk result (λ z. z ≡ dot n (numbers x.now) (numbers y.now)) }
    ensures wide { IfErr result (λ op. first_owed is_owed (dot_ops n (numbers x.now) (numbers y.now)) ≡ Some op) }
{
    let mut sum = 0;
    for k in 0..n {
        sum = add_product(sum, x[k], y[k])?;
    }
    Ok(sum)
}

/// The sums of the products of the first n rows with x, or the first operation that does not fit.
pub fn times(n: usize, rows: &[[i128; 8]; 8], x: &[i128; 8]) -> Result<[i128; 8], IntOp>
    requires { n ≤ 8 }
    ensures fits { OnOk result (first_owed is_owed (times_ops n (at rows.now) (numbers x.now)) ≡ None) }
    ensures value { IfOk result (λ sums. AreFirst n sums (rows_times n (at rows.now) (numbers x.now))) }
    ensures wide { IfErr result (λ op. first_owed is_owed (times_ops n (at rows.now) (numbers x.now)) ≡ Some op) }
{
    let mut sums = [0; 8];
    for i in 0..n {
        sums[i] = dot(n, &rows[i], x)?;
    }
    Ok(sums)
}
