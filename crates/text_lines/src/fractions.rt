//! The numbers that words stand for, up to a limit.

ghost use Rattle.std.specs.Prelude.{◌≡◌, ◌<◌, ◌≤◌, ◌-◌, ◌^◌, position, if◌then◌else◌, pos, neg_ℤ, IfOk};
ghost use Rattle.text_lines.specs.Fractions.{whole_up_to, signed_up_to, is_slash, ratio_up_to, fraction_up_to};

use crate::numbers::{Signed, signed_number, whole_number};
use fraction128::Fraction;

/// What is wrong with a word, where a number is asked for.
#[derive(Clone, Copy, Debug, PartialEq, Eq)]
pub enum NumberFault {
    /// It is not of the kind that is asked for.
    NotNumber,
    /// A number is over the limit.
    TooLarge,
    /// A denominator is 0.
    ZeroDenominator,
}

/// The number that a whole word writes, one or more digits, up to a limit.
#[tactic(auto, unfolding(crate::specs::Fractions::whole_up_to))]
pub fn whole_in(word: &[u8], limit: u128) -> Result<u128, NumberFault>
    requires { limit < 2 ^ 128 - 1 }
    ensures value { result ≡ whole_up_to limit word.now }
    ensures small { IfOk result (λ n. n ≤ limit) }
{
    let Some(number) = whole_number(word) else {
        return Err(NumberFault::NotNumber);
    };
    if number > limit {
        return Err(NumberFault::TooLarge);
    }
    Ok(number)
}

/// A number with its sign.
fn value(number: Signed) -> i128
    requires { number.magnitude < 2 ^ 127 }
    ensures { result ≡ (if number.negative then neg_ℤ (pos number.magnitude) else pos number.magnitude) }
{
    let magnitude = number.magnitude as i128;
    if number.negative {
        -magnitude
    } else {
        magnitude
    }
}

/// The number that a signed word writes, a whole word with or without one `-` before it, of a magnitude up to a limit.
#[tactic(auto, unfolding(crate::specs::Fractions::signed_up_to))]
pub fn signed_in(word: &[u8], limit: u128) -> Result<i128, NumberFault>
    requires { limit < 2 ^ 127 }
    ensures { result ≡ signed_up_to limit word.now }
{
    let Some(number) = signed_number(word) else {
        return Err(NumberFault::NotNumber);
    };
    if number.magnitude > limit {
        return Err(NumberFault::TooLarge);
    }
    Ok(value(number))
}

/// The fraction of two words, or what is wrong with them.
#[tactic(auto, unfolding(crate::specs::Fractions::ratio_up_to))]
fn ratio(top: &[u8], bottom: &[u8], limit: u128) -> Result<Fraction, NumberFault>
    requires { limit < 2 ^ 127 }
    ensures { result ≡ ratio_up_to limit top.now bottom.now }
{
    let Some(num) = signed_number(top) else {
        return Err(NumberFault::NotNumber);
    };
    let Some(den) = whole_number(bottom) else {
        return Err(NumberFault::NotNumber);
    };
    if num.magnitude > limit || den > limit {
        return Err(NumberFault::TooLarge);
    }
    if den == 0 {
        return Err(NumberFault::ZeroDenominator);
    }
    Ok(Fraction::new(value(num), den as i128))
}

fn slash(word: &[u8]) -> Option<usize>
    ensures { result ≡ position is_slash word.now }
{
    word.iter().position(|b| *b == b'/')
}

/// The fraction that a word writes, in lowest terms, or what is wrong with it: a signed word, or a signed word, `/` and a whole
/// word, both numbers of a magnitude up to a limit.
#[tactic(auto, unfolding(crate::specs::Fractions::fraction_up_to))]
pub fn fraction_in(word: &[u8], limit: u128) -> Result<Fraction, NumberFault>
    requires { limit < 2 ^ 127 }
    ensures { result ≡ fraction_up_to limit word.now }
{
    match slash(word) {
        None => ratio(word, b"1", limit),
        Some(at) => ratio(&word[..at], &word[at + 1..], limit),
    }
}
