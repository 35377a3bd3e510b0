//! Which judgements a search depth first keeps: those of low cones, and the ends of the tree. The generators that attain the bound
//! are noted apart.

ghost use Rattle.std.specs.Prelude.{◌≡◌, ◌≤◌, length, OnOk, OnErr};
ghost use Rattle.std.specs.Bool.{MatchBool};
ghost use Rattle.search_core.specs.Kept.{IsNeededFate, IsUnneededFate, HasOneMore, IsConeKept};
ghost use Rattle.search_core.specs.Judging.{shown_code};

use crate::fate::{Fate, Judged};
use crate::judging::judgement;
use std::alloc::AllocError;
use unimodular_cone::{ConeTests, Mode};

/// Whether the judgement of a cone of this fate is to be kept: it is low, or an end of the tree.
#[inline(always)]
fn is_needed(fate: &Fate) -> bool
    ensures { MatchBool result (IsNeededFate fate.now) (IsUnneededFate fate.now) }
{
    match fate {
        Fate::Low { .. } | Fate::AtLimit { .. } | Fate::Wide { .. } => true,
        Fate::Closed { .. } | Fate::Split { .. } | Fate::Dropped { .. } => false,
    }
}

/// Keeps the judgement of a cone, made under this word. After a refusal the list is as before. A call of its own, so that a loop which
/// keeps few doesn't hold it.
#[inline(never)]
pub(crate) fn keep_judgement<C: ConeTests>(
    judged: &mut Vec<Judged>,
    mode: Mode,
    c: &C,
    limit: u8,
    word: u64,
) -> Result<(), AllocError>
    requires below_code { word ≤ shown_code mode (C.cone c.now) }
    requires limited { limit ≤ 200 }
    requires within { length (C.cone c.now).path ≤ limit }
    ensures kept { OnOk result (HasOneMore mode limit word (C.cone c.now) judged.old.items judged.new.items) }
    ensures err { OnErr result (judged.new.items ≡ judged.old.items) }
{
    judged.push(judgement(mode, c, limit, word))?;
    Ok(())
}

/// Keeps the judgement of a cone of this fate, made under this word, if it is low or an end of the tree. After a refusal the list
/// is as before.
///
/// The judgement is made only where it is kept, and there once more: a fate that isn't copied costs nothing at the other cones.
#[inline(always)]
pub fn keep_fate<C: ConeTests>(
    judged: &mut Vec<Judged>,
    mode: Mode,
    c: &C,
    limit: u8,
    fate: &Fate,
    word: u64,
) -> Result<(), AllocError>
    requires below_code { word ≤ shown_code mode (C.cone c.now) }
    requires limited { limit ≤ 200 }
    requires within { length (C.cone c.now).path ≤ limit }
    ensures kept { OnOk result
        (IsConeKept mode limit word (C.cone c.now) fate.now judged.old.items judged.new.items) }
    ensures few { OnOk result ((¬ IsNeededFate fate.now) → judged.new.items ≡ judged.old.items) }
    ensures err { OnErr result (judged.new.items ≡ judged.old.items) }
{
    if is_needed(fate) {
        keep_judgement(judged, mode, c, limit, word)?;
    }
    Ok(())
}
