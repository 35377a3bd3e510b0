//! The numbers that the words of a verdict stand for.

ghost use Rattle.std.specs.Prelude.{◌≡◌, ◌<◌, ◌≤◌, ◌-◌, ◌^◌, IfOk};
ghost use Rattle.cone_tree_certificate.specs.Words.{word_kind, whole_word, signed_word, ratio_word, widest, largest_count};

use crate::fault::VerdictKind;
use fraction128::Fraction;
use text_lines::fractions::{NumberFault, fraction_in, signed_in, whole_in};

/// The largest magnitude of a number of W and of a fraction.
const WIDEST: u128 = 170141183460469231731687303715884105727;

/// The kind of a number's fault.
fn kind_of(fault: NumberFault) -> VerdictKind
    ensures { result ≡ word_kind fault }
{
    match fault {
        NumberFault::NotNumber => VerdictKind::BadNumber,
        NumberFault::TooLarge => VerdictKind::NumberTooLarge,
        NumberFault::ZeroDenominator => VerdictKind::ZeroDenominator,
    }
}

/// The number that a whole word writes, up to a limit.
#[tactic(auto, unfolding(crate::specs::Words::whole_word))]
pub fn whole(word: &[u8], limit: u128) -> Result<u128, VerdictKind>
    requires { limit < 2 ^ 128 - 1 }
    ensures value { result ≡ whole_word limit word.now }
    ensures small { IfOk result (λ n. n ≤ limit) }
{
    match whole_in(word, limit) {
        Ok(number) => Ok(number),
        Err(fault) => Err(kind_of(fault)),
    }
}

/// The number that a signed word writes, of a magnitude of at most 2^127 - 1.
#[tactic(auto, unfolding(crate::specs::Words::signed_word))]
pub fn signed(word: &[u8]) -> Result<i128, VerdictKind>
    ensures { result ≡ signed_word widest word.now }
{
    match signed_in(word, WIDEST) {
        Ok(number) => Ok(number),
        Err(fault) => Err(kind_of(fault)),
    }
}

/// The fraction that a word writes, of two numbers of at most 2^127 - 1.
#[tactic(auto, unfolding(crate::specs::Words::ratio_word))]
pub fn ratio(word: &[u8]) -> Result<Fraction, VerdictKind>
    ensures { result ≡ ratio_word widest word.now }
{
    match fraction_in(word, WIDEST) {
        Ok(fraction) => Ok(fraction),
        Err(fault) => Err(kind_of(fault)),
    }
}

/// The number of at most 2^64 - 1 that a whole word writes.
pub fn count(word: &[u8]) -> Result<u64, VerdictKind>
    ensures { result ≡ whole_word largest_count word.now }
{
    match whole(word, u128::from(u64::MAX)) {
        Ok(count) => Ok(count as u64),
        Err(kind) => Err(kind),
    }
}
