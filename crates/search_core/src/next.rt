//! What a search depth first does at a cone: its fate in short. A fate is large, and most cones are closed or split: a search that
//! asks for no more copies no fate at those.

ghost use Rattle.std.specs.Prelude.{◌≡◌, ◌≤◌, length, min, OnOk, OnErr};
ghost use Rattle.search_core.specs.Judging.{shown_code, IsShownFate};
ghost use Rattle.search_core.specs.Lowering.{HasOthersOver};
ghost use Rattle.search_core.specs.Next.{IsNextOf, IsShownNext, IsNextKept};
ghost use Rattle.search_core.specs.Noting.{NamesNew};

use crate::fate::{Fate, Judged};
use crate::keeping::keep_judgement;
use crate::lowering::lowering_fate;
use crate::noting::NewGenerators;
use std::alloc::AllocError;
use unimodular_cone::{ConeTests, Mode};

/// What a search depth first does at a cone: its fate in short. Generators count from 1.
#[derive(Clone, Copy)]
pub enum Next {
    /// The children of its pair are to be judged.
    Split { i: u8, j: u8 },
    /// It is closed or dropped.
    Gone,
    /// It is low, or an end of the tree: its judgement is to be kept.
    Kept,
}

/// A fate in short.
#[inline(always)]
fn in_short(fate: &Fate) -> Next
    ensures { IsNextOf fate.now result }
{
    match *fate {
        Fate::Split { i, j, .. } => Next::Split { i, j },
        Fate::Closed { .. } | Fate::Dropped { .. } => Next::Gone,
        Fate::Low { .. } | Fate::AtLimit { .. } | Fate::Wide { .. } => Next::Kept,
    }
}

/// The fate of a cone in short, with a limit of depth, under a word that first falls to the cone's code if that is less. Its
/// generators but the new ones are those of cones that were judged before it.
#[inline(always)]
pub fn lowering_next<C: ConeTests>(
    mode: Mode,
    c: &C,
    limit: u8,
    fresh: NewGenerators,
    word: &mut u64,
) -> Next
    requires limited { limit ≤ 200 }
    requires within { length (C.cone c.now).path ≤ limit }
    requires named { NamesNew (C.cone c.now).size fresh }
    requires others { HasOthersOver mode (C.cone c.now) fresh word.old }
    ensures word { word.new ≡ min word.old (shown_code mode (C.cone c.now)) }
    ensures next { IsShownNext mode (C.cone c.now) limit word.new result }
{
    in_short(&lowering_fate(mode, c, limit, fresh, word))
}

/// Keeps the judgement of a cone of which this is done, made under this word, if it is to be kept. After a refusal the list is as
/// before.
///
/// The judgement is made only where it is kept, and its fate there once more: a fate that isn't copied costs nothing at the other
/// cones.
#[inline(always)]
pub fn keep_next<C: ConeTests>(
    judged: &mut Vec<Judged>,
    mode: Mode,
    c: &C,
    limit: u8,
    next: Next,
    word: u64,
) -> Result<(), AllocError>
    requires below_code { word ≤ shown_code mode (C.cone c.now) }
    requires limited { limit ≤ 200 }
    requires within { length (C.cone c.now).path ≤ limit }
    ensures kept { OnOk result (IsNextKept mode limit word (C.cone c.now) next judged.old.items judged.new.items) }
    ensures err { OnErr result (judged.new.items ≡ judged.old.items) }
{
    if let Next::Kept = next {
        keep_judgement(judged, mode, c, limit, word)?;
    }
    Ok(())
}
