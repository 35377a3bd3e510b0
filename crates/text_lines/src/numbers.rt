//! Words that stand for numbers. A number over the largest `u128` is read as that.

ghost use Rattle.std.specs.Prelude.{◌≡◌, ◌-◌, ◌^◌, true, false, min, MatchOption};
ghost use Rattle.text_lines.specs.Numbers.{is_whole, whole_value, is_signed, magnitude, begins_with_minus, without_minus};

/// The number that a whole word writes, one or more digits, or 2^128 - 1 where it is larger; `None` for any other word.
#[tactic(auto, using(crate::proofs::NumberLemmas::digit_steps))]
pub fn whole_number(word: &[u8]) -> Option<u128>
    ensures { MatchOption result (is_whole word.now ≡ false) (λ n. (is_whole word.now ≡ true)
        × (n ≡ min (whole_value word.now) (2 ^ 128 - 1))) }
{
    if word.is_empty() {
        return None;
    }
    let mut value: u128 = 0;
    for byte in word {
        if !byte.is_ascii_digit() {
            return None;
        }
        let digit = u128::from(*byte - b'0');
        value = value.saturating_mul(10).saturating_add(digit);
    }
    Some(value)
}

/// A number's sign and its magnitude.
#[derive(Clone, Copy)]
pub struct Signed {
    pub negative: bool,
    pub magnitude: u128,
}

/// Whether a word begins with a minus sign, and the word without it.
fn split_minus(word: &[u8]) -> (bool, &[u8])
    ensures { (result.0 ≡ begins_with_minus word.now) × (result.1.now ≡ without_minus word.now) }
{
    match word {
        [b'-', digits @ ..] => (true, digits),
        digits => (false, digits),
    }
}

/// The number that a signed word writes, a whole word with or without one `-` before it; `None` for any other word. Its
/// magnitude is 2^128 - 1 where it is larger.
#[tactic(auto, unfolding(crate::specs::Numbers::is_signed, crate::specs::Numbers::magnitude))]
pub fn signed_number(word: &[u8]) -> Option<Signed>
    ensures { MatchOption result (is_signed word.now ≡ false) (λ n. (is_signed word.now ≡ true)
        × (n.negative ≡ begins_with_minus word.now) × (n.magnitude ≡ min (magnitude word.now) (2 ^ 128 - 1))) }
{
    let (negative, digits) = split_minus(word);
    let magnitude = whole_number(digits)?;
    Some(Signed {
        negative,
        magnitude,
    })
}
