//! The generators that attain the bound of a search's word, noted while a search depth first goes on.
//!
//! A generator is new in the root, and where a split makes a mediant, which both children have; child 0 is judged directly after
//! its parent. So who looks at the new generators of each cone sees each generator of a judged cone. Where the word falls, none of
//! those that were seen before attains its bound.

ghost use Rattle.std.specs.Prelude.{◌≡◌, pos, OnOk};
ghost use Rattle.search_core.specs.Noting.{NamesNew, new_after, AddsNew, AreRemembered, AddsToNoted};

use crate::attaining::{add_attaining, key_of};
use crate::fate::Fate;
use crate::key_set::KeySet;
use std::alloc::AllocError;
use unimodular_cone::{ConeRead, ConeTests};

/// Which generators of a cone no cone that was judged before it has.
#[derive(Clone, Copy)]
pub enum NewGenerators {
    /// Each of them: the cone is the root.
    Each,
    /// The one of this number, from 1: the cone is child 0 of the cone judged before it.
    One { which: u8 },
    /// None of them.
    NoOne,
}

impl NewGenerators {
    /// Those of the cone that is judged directly after a cone of this fate, depth first with child 0 on top.
    #[inline(always)]
    pub fn after(fate: &Fate) -> NewGenerators
        ensures { result ≡ new_after fate.now }
    {
        match *fate {
            Fate::Split { i, .. } => NewGenerators::One { which: i },
            _ => NewGenerators::NoOne,
        }
    }
}

/// Puts the keys of a cone's new generators of this value into a set.
#[inline(always)]
fn add_new<C: ConeRead>(
    c: &C,
    fresh: NewGenerators,
    value: u64,
    found: &mut KeySet,
) -> Result<(), AllocError>
    requires { NamesNew (C.cone c.now).size fresh }
    ensures { OnOk result (AddsNew (C.cone c.now) fresh (pos value) found.old.keys found.new.keys) }
{
    match fresh {
        NewGenerators::Each => add_attaining(c, value, found),
        NewGenerators::One { which } if c.gram(which, which) == i128::from(value) => {
            found.insert(&key_of(c, which))
        }
        NewGenerators::One { .. } | NewGenerators::NoOne => Ok(()),
    }
}

/// Forgets the keys that were noted under the word before, where the word has fallen.
#[inline(always)]
fn forget_fallen(found: &mut KeySet, before: u64, word: u64)
    ensures { AreRemembered before word found.old.keys found.new.keys }
{
    if word < before {
        found.clear();
    }
}

/// Notes the keys of a cone's new generators that attain the bound of this word, if it is over 256. Where the word has fallen at
/// this cone, those that were noted under the word before are forgotten first.
#[inline(always)]
pub fn note_new<C: ConeTests>(
    found: &mut KeySet,
    c: &C,
    fresh: NewGenerators,
    before: u64,
    word: u64,
) -> Result<(), AllocError>
    requires { NamesNew (C.cone c.now).size fresh }
    ensures { OnOk result (AddsToNoted (C.cone c.now) fresh before word found.old.keys found.new.keys) }
{
    forget_fallen(found, before, word);
    if word > 256 {
        return add_new(c, fresh, word - 256, found);
    }
    Ok(())
}
