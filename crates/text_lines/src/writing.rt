//! Numbers as they are written. A call that is refused for want of memory may have written a part.

ghost use Rattle.std.specs.Prelude.{◌≡◌, ◌++◌, pos, OnOk};
ghost use Rattle.std.specs.Fmt.{signed_decimal};
ghost use Rattle.symmetric_matrix.specs.Symmetric.{FitsInt};
ghost use Rattle.text_lines.specs.Spelling.{Extends, quotient_word, fraction_word};

use fraction128::Fraction;
use itoa::Buffer;
use std::alloc::AllocError;

/// Appends a number as a plain decimal.
pub fn push_number(into: &mut Vec<u8>, number: i128) -> Result<(), AllocError>
    ensures ok { OnOk result (into.new.items ≡ into.old.items ++ signed_decimal number) }
    ensures kept { Extends into.old.items into.new.items }
{
    let mut digits = Buffer::new();
    into.extend_from_slice(digits.format(number).as_bytes())
}

/// Appends a fraction as `p/q` in lowest terms, also where q is 1.
pub fn push_quotient(into: &mut Vec<u8>, fraction: Fraction) -> Result<(), AllocError>
    ensures ok { OnOk result (into.new.items ≡ into.old.items ++ quotient_word fraction) }
    ensures kept { Extends into.old.items into.new.items }
    ensures num { OnOk result (FitsInt fraction.num) }
    ensures den { OnOk result (FitsInt (pos fraction.den)) }
{
    push_number(into, fraction.num())?;
    into.push(b'/')?;
    push_number(into, fraction.den())
}

/// Appends a fraction: its numerator, with `/` and the denominator where that is not 1.
#[tactic(auto, unfolding(crate::specs::Spelling::fraction_word))]
pub fn push_fraction(into: &mut Vec<u8>, fraction: Fraction) -> Result<(), AllocError>
    ensures ok { OnOk result (into.new.items ≡ into.old.items ++ fraction_word fraction) }
    ensures kept { Extends into.old.items into.new.items }
{
    if fraction.den() == 1 {
        push_number(into, fraction.num())
    } else {
        push_quotient(into, fraction)
    }
}
