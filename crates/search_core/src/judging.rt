//! The fate of a cone under a word.

ghost use Rattle.std.specs.Prelude.{◌≡◌, ◌≤◌, ◌<◌, ◌-◌, ◌↔◌, ℕ, suc, length, IsTrue, Some, MatchOption};
ghost use Rattle.unimodular_cone.specs.Answer.{IsLeastDiagonal};
ghost use Rattle.unimodular_cone.specs.Shown.{shown_gram, IsWithinLimits};
ghost use Rattle.search_core.specs.Judging.{shown_code, shown_least, IsLowShown, IsFirstLowShown, IsUndecidedShown, IsShownFate, IsJudgementOf};

use crate::fate::{Fate, Judged};
use crate::words::{bound_under, is_low_value};
use unimodular_cone::{ByReading, ConeRead, ConeTests, Mode, least_value};

/// The first low generator of a cone, counted from 1.
fn first_low<C: ConeRead>(mode: Mode, c: &C) -> Option<u8>
    ensures fits { IsWithinLimits (C.cone c.now) }
    ensures low { MatchOption result (¬ IsLowShown mode (C.cone c.now)) (λ which. (k : ℕ) × (which ≡ suc k)
        × IsFirstLowShown mode (C.cone c.now) k) }
{
    let n = c.n();
    for k in 0..n {
        if is_low_value(mode, c.gram(k + 1, k + 1)) {
            return Some(k + 1);
        }
    }
    None
}

/// The fate of a cone that is neither low nor closed nor dropped: it is at the limit, a child does not fit, or it is split.
#[inline(always)]
fn undecided_fate<C: ConeTests>(mode: Mode, c: &C, limit: u8, word: u64) -> Fate
    requires fits { IsWithinLimits (C.cone c.now) }
    requires below_code { word ≤ shown_code mode (C.cone c.now) }
    requires limited { limit ≤ 200 }
    requires within { length (C.cone c.now).path ≤ limit }
    requires undecided { IsUndecidedShown mode (C.cone c.now) word }
    ensures { IsShownFate mode (C.cone c.now) limit word result }
{
    if c.path().len() == limit {
        return Fate::AtLimit { word };
    }
    let Some((i, j)) = c.pair() else {
        unreachable!()
    };
    match c.children_fit(i, j) {
        Some(at) => Fate::Wide { word, at },
        None => Fate::Split { i, j, word },
    }
}

/// The first low generator of a cone whose least value is low.
fn which_low<C: ConeRead>(mode: Mode, c: &C) -> u8
    requires { IsLowShown mode (C.cone c.now) }
    ensures { (k : ℕ) × (result ≡ suc k) × IsFirstLowShown mode (C.cone c.now) k }
{
    match first_low(mode, c) {
        Some(which) => which,
        None => unreachable!(),
    }
}

/// The fate of a cone, of which it is told whether a generator is low.
#[inline(always)]
pub(crate) fn fate_of<C: ConeTests>(mode: Mode, c: &C, limit: u8, word: u64, low: bool) -> Fate
    requires below_code { word ≤ shown_code mode (C.cone c.now) }
    requires limited { limit ≤ 200 }
    requires within { length (C.cone c.now).path ≤ limit }
    requires low { IsTrue low ↔ IsLowShown mode (C.cone c.now) }
    ensures { IsShownFate mode (C.cone c.now) limit word result }
{
    let _n = c.n();
    let depth = c.path().len();
    if word < u64::from(depth) {
        return Fate::Dropped { word };
    }
    if low {
        return Fate::Low {
            which: which_low(mode, c),
        };
    }
    if c.closed(i128::from(bound_under(mode, word))) {
        return Fate::Closed { word };
    }
    if word == u64::from(depth) {
        return Fate::Dropped { word };
    }
    undecided_fate(mode, c, limit, word)
}

/// The fate of a cone under a word, with a limit of depth: the first that applies of these. The word is a depth that is
/// less than the cone's: Dropped. A generator is low: Low. The cone is closed at the word's bound: Closed. The word is the
/// cone's depth: Dropped. The depth is the limit: AtLimit. A child does not fit: Wide. Else Split, at the cone's pair.
pub fn judge<C: ConeRead>(mode: Mode, c: &C, limit: u8, word: u64) -> Fate
    requires below_code { word ≤ shown_code mode (C.cone c.now) }
    requires limited { limit ≤ 200 }
    requires within { length (C.cone c.now).path ≤ limit }
    ensures { IsShownFate mode (C.cone c.now) limit word result }
{
    let low = is_low_value(mode, least_value(c));
    fate_of(mode, &ByReading::of(c), limit, word, low)
}

/// The judgement of a cone whose least value is this.
fn judgement_of<C: ConeRead>(mode: Mode, c: &C, limit: u8, word: u64, least: i128) -> Judged
    requires below_code { word ≤ shown_code mode (C.cone c.now) }
    requires limited { limit ≤ 200 }
    requires within { length (C.cone c.now).path ≤ limit }
    requires least { IsLeastDiagonal (C.cone c.now).size (shown_gram (C.cone c.now)) least }
    ensures { IsJudgementOf mode (C.cone c.now) limit word result }
{
    let low = is_low_value(mode, least);
    Judged {
        path: c.path(),
        fate: fate_of(mode, &ByReading::of(c), limit, word, low),
        least,
    }
}

/// The judgement of a cone under a word, with a limit of depth.
pub fn judgement<C: ConeRead>(mode: Mode, c: &C, limit: u8, word: u64) -> Judged
    requires below_code { word ≤ shown_code mode (C.cone c.now) }
    requires limited { limit ≤ 200 }
    requires within { length (C.cone c.now).path ≤ limit }
    ensures { IsJudgementOf mode (C.cone c.now) limit word result }
{
    judgement_of(mode, c, limit, word, least_value(c))
}
