//! What holds of factorizations and of what separates. The call does nothing: its contract is the law.

ghost use Rattle.exact_forms.specs.Theorems.{SeparatedIsNotFactored};

/// A matrix that is separated has no factorization.
pub fn separated_is_not_factored()
    ensures { SeparatedIsNotFactored }
{}
