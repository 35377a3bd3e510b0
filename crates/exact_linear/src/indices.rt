//! Lists of indices.

ghost use Rattle.std.specs.Prelude.{◌≡◌};
ghost use Rattle.exact_linear.specs.Tables.{contains as the_contains};

/// Whether a number is in a list, as a column or an index among others.
pub fn contains(numbers: &[usize], number: usize) -> bool
    ensures { result ≡ the_contains numbers.now number }
{
    for listed in numbers {
        if *listed == number {
            return true;
        }
    }
    false
}
