//! Multiplications and additions of whole numbers: the exact result, or the operation that does not fit.

ghost use Rattle.std.specs.Prelude.{◌≡◌, ◌+ℤ◌, ◌*ℤ◌, [], ◌∷◌};
ghost use Rattle.symmetric_matrix.specs.Owed.{answer};
ghost use Rattle.symmetric_matrix.specs.Operations.{is_owed, mul_op, add_op};

/// Which operation.
#[derive(Clone, Copy, Debug, PartialEq, Eq)]
pub enum IntKind {
    Mul,
    Add,
}

/// An operation on whole numbers, with its operands in the order written.
#[derive(Clone, Copy, Debug, PartialEq, Eq)]
pub struct IntOp {
    pub kind: IntKind,
    pub left: i128,
    pub right: i128,
}

/// The product, or the operation where the magnitude of the product is over 2^127 - 1.
#[tactic(auto, unfolding(crate::specs::Owed::answer))]
pub fn int_mul(left: i128, right: i128) -> Result<i128, IntOp>
    ensures { result ≡ answer is_owed (mul_op left right ∷ []) (left *ℤ right) }
{
    if let (Ok(left), Ok(right)) = (i64::try_from(left), i64::try_from(right)) {
        // The common case, by one plain multiplication: at most 2^126.
        return Ok(i128::from(left) * i128::from(right));
    }
    match left.checked_mul(right) {
        // -2^127 has an i128, and does not fit.
        Some(product) if product != i128::MIN => Ok(product),
        _ => Err(IntOp {
            kind: IntKind::Mul,
            left,
            right,
        }),
    }
}

/// The sum, or the operation where the magnitude of the sum is over 2^127 - 1.
#[tactic(auto, unfolding(crate::specs::Owed::answer))]
pub fn int_add(left: i128, right: i128) -> Result<i128, IntOp>
    ensures { result ≡ answer is_owed (add_op left right ∷ []) (left +ℤ right) }
{
    match left.checked_add(right) {
        Some(sum) if sum != i128::MIN => Ok(sum),
        _ => Err(IntOp {
            kind: IntKind::Add,
            left,
            right,
        }),
    }
}
