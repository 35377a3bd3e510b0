//! The fraction that a word writes.

ghost use Rattle.std.specs.Prelude.{◌≡◌};
ghost use Rattle.matrix_text.specs.Matrix.{number_kind, entry_of_word};

use crate::fault::TextKind;
use fraction128::Fraction;
use text_lines::fractions::{NumberFault, fraction_in};

/// The largest numerator's magnitude and the largest denominator.
const LARGEST: u128 = 9223372036854775807;

/// The kind of a number's fault.
fn kind_of(fault: NumberFault) -> TextKind
    ensures { result ≡ number_kind fault }
{
    match fault {
        NumberFault::NotNumber => TextKind::BadNumber,
        NumberFault::TooLarge => TextKind::NumberTooLarge,
        NumberFault::ZeroDenominator => TextKind::ZeroDenominator,
    }
}

/// The fraction that a word writes, in lowest terms, or what is wrong with it.
#[tactic(auto, unfolding(crate::specs::Matrix::entry_of_word))]
pub fn entry_in(word: &[u8]) -> Result<Fraction, TextKind>
    ensures { result ≡ entry_of_word word.now }
{
    match fraction_in(word, LARGEST) {
        Ok(fraction) => Ok(fraction),
        Err(fault) => Err(kind_of(fault)),
    }
}
