//! Sums of products over a lower triangle: the value of a form, and inner products.

ghost use Rattle.std.specs.Prelude.{◌≡◌, ◌*◌, ◌<◌, [], ◌∷◌, pos, ◌+ℤ◌, ◌*ℤ◌, length, slice_index, IfOk};
ghost use Rattle.exact_forms.specs.Forms.{form, inner};
ghost use Rattle.exact_forms.specs.Vectors.{coordinate};
ghost use Rattle.symmetric_matrix.specs.Lists.{IsVector};
ghost use Rattle.symmetric_matrix.specs.Owed.{answer};
ghost use Rattle.symmetric_matrix.specs.Operations.{is_owed, mul_op, add_op};
ghost use Rattle.symmetric_matrix.specs.Recipes.{multiplicity, form_ops, inner_ops};
ghost use Rattle.symmetric_matrix.specs.Symmetric.{Symmetric, FitsInt, IsLower, entry};

use crate::operation::{IntOp, int_add, int_mul};

// The form of a lower triangle of n rows at a vector of n coordinates.
pub(crate) fn form_of(lower: &[i128], x: &[u64]) -> Result<i128, IntOp>
    requires vector { IsVector x.now }
    requires lower { IsLower (length x.now) lower.now }
    ensures value { let q : Symmetric = record { size = length x.now; lower = lower.now } in
        result ≡ answer is_owed (form_ops q x.now) (form (length x.now) (entry q) (coordinate x.now)) }
    ensures fits { IfOk result FitsInt }
{
    let mut sum = 0;
    let mut row = 0;
    let mut column = 0;
    for entry in lower {
        sum = add_product(sum, *entry, weight_at(x, row, column))?;
        if column < row {
            column += 1;
        } else {
            row += 1;
            column = 0;
        }
    }
    Ok(sum)
}

// The inner product of two matrices of `n` rows, by their lower triangles.
pub(crate) fn inner_of(n: u8, lower: &[i128], other: &[i128]) -> Result<i128, IntOp>
    requires lower { IsLower n lower.now }
    requires other { IsLower n other.now }
    ensures value { let q : Symmetric = record { size = n; lower = lower.now } in
        let s : Symmetric = record { size = n; lower = other.now } in
        result ≡ answer is_owed (inner_ops q s) (inner n (entry q) (entry s)) }
    ensures fits { IfOk result FitsInt }
{
    let mut sum = 0;
    let mut row: usize = 0;
    let mut column: usize = 0;
    for k in 0..lower.len() {
        sum = add_multiple(sum, lower[k], times_at(row, column), other[k])?;
        if column < row {
            column += 1;
        } else {
            row += 1;
            column = 0;
        }
    }
    Ok(sum)
}

// How often the entry at a place of the lower triangle stands in the matrix.
fn times_at(row: usize, column: usize) -> i128
    ensures { result ≡ pos (multiplicity (record { row = row; column = column })) }
{
    if row == column { 1 } else { 2 }
}

// The product of two coordinates, doubled beside the diagonal. It is at most 2^125.
fn weight_at(x: &[u64], row: usize, column: usize) -> i128
    requires vector { IsVector x.now }
    requires row { row < length x.now }
    requires column { column < length x.now }
    ensures { result
        ≡ pos (multiplicity (record { row = row; column = column })
        * (slice_index x.now row * slice_index x.now column)) }
{
    let product = u128::from(x[row]) * u128::from(x[column]);
    let times: u128 = if row == column { 1 } else { 2 };
    (times * product) as i128
}

/// `sum` plus the product of `left` and `right`, or the first of the two operations that does not fit: the product, then the
/// sum.
pub fn add_product(sum: i128, left: i128, right: i128) -> Result<i128, IntOp>
    ensures { result ≡ answer is_owed (mul_op left right ∷ add_op sum (left *ℤ right) ∷ []) (sum +ℤ left *ℤ right) }
{
    let product = int_mul(left, right)?;
    int_add(sum, product)
}

// sum + left * (times * right), where the product in brackets is made first
fn add_multiple(sum: i128, left: i128, times: i128, right: i128) -> Result<i128, IntOp>
    ensures { result
        ≡ answer is_owed (mul_op times right ∷ mul_op left (times *ℤ right) ∷ add_op sum (left *ℤ (times *ℤ right))
        ∷ []) (sum +ℤ left *ℤ (times *ℤ right)) }
{
    let multiple = int_mul(times, right)?;
    add_product(sum, left, multiple)
}
