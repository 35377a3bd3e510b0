//! The fate of a cone under a falling word, in a search depth first.
//!
//! A generator of a cone that is not new is one of a cone that was judged before, so the word is at most 256 and its value. While
//! the word is over 256, only a new generator can lower it or be low.

ghost use Rattle.std.specs.Prelude.{◌≡◌, ◌≤◌, ◌↔◌, length, min, IsTrue, MatchOption};
ghost use Rattle.search_core.specs.Judging.{shown_code, IsLowShown, IsShownFate};
ghost use Rattle.search_core.specs.Noting.{NamesNew};
ghost use Rattle.search_core.specs.Lowering.{HasOthersOver, IsOver, ServesAsLeast};

use crate::fate::Fate;
use crate::judging::fate_of;
use crate::noting::NewGenerators;
use crate::words::{code_at, is_low_value};
use unimodular_cone::{ConeTests, Mode};

/// A value that decides how far a word falls and whether the cone is low. None where the word stays, and the cone is not low.
#[inline(always)]
fn deciding_value<C: ConeTests>(mode: Mode, c: &C, fresh: NewGenerators, word: u64) -> Option<i128>
    requires named { NamesNew (C.cone c.now).size fresh }
    requires others { HasOthersOver mode (C.cone c.now) fresh word }
    ensures { MatchOption result (IsOver mode (C.cone c.now) word) (ServesAsLeast mode (C.cone c.now) word) }
{
    let _n = c.n();
    match fresh {
        NewGenerators::NoOne if word > 256 => None,
        NewGenerators::One { which } if word > 256 => Some(c.gram(which, which)),
        _ => Some(c.least_value()),
    }
}

/// What a word falls to at a cone, and whether the cone is low.
#[inline(always)]
fn lowered<C: ConeTests>(mode: Mode, c: &C, fresh: NewGenerators, word: u64) -> (u64, bool)
    requires named { NamesNew (C.cone c.now).size fresh }
    requires others { HasOthersOver mode (C.cone c.now) fresh word }
    ensures word { result.0 ≡ min word (shown_code mode (C.cone c.now)) }
    ensures low { IsTrue result.1 ↔ IsLowShown mode (C.cone c.now) }
{
    match deciding_value(mode, c, fresh, word) {
        Some(least) => (
            word.min(code_at(mode, c.path().len(), least)),
            is_low_value(mode, least),
        ),
        None => (word, false),
    }
}

/// The fate of a cone, with a limit of depth, under a word that first falls to the cone's code if that is less. Its generators
/// but the new ones are those of cones that were judged before it.
#[inline(always)]
pub fn lowering_fate<C: ConeTests>(
    mode: Mode,
    c: &C,
    limit: u8,
    fresh: NewGenerators,
    word: &mut u64,
) -> Fate
    requires limited { limit ≤ 200 }
    requires within { length (C.cone c.now).path ≤ limit }
    requires named { NamesNew (C.cone c.now).size fresh }
    requires others { HasOthersOver mode (C.cone c.now) fresh word.old }
    ensures word { word.new ≡ min word.old (shown_code mode (C.cone c.now)) }
    ensures fate { IsShownFate mode (C.cone c.now) limit word.new result }
{
    let (lower, low) = lowered(mode, c, fresh, *word);
    *word = lower;
    fate_of(mode, c, limit, lower, low)
}
