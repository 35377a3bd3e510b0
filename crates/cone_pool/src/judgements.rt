//! What a worker judged, and what it keeps of that.

ghost use Rattle.std.specs.Prelude.{◌≡◌, OnOk};
ghost use Rattle.std.specs.Bool.{MatchBool};
ghost use Rattle.search_core.specs.Fair.{IsRelevantFate, IsIrrelevant};
ghost use Rattle.cone_pool.specs.Keeping.{HasRoom, AreNone, IsSameList, IsNoted, IsAppended};

use crate::history::History;
use search_core::{Fate, Judged, Mode};
use std::alloc::{AllocError, Global};
use std::marker::Model;

/// The judgements of a worker. It keeps the whole list, or those alone that an answer may look at; contracts see all of
/// them beside those that are kept.
#[derive(Drop)]
pub(crate) struct Judgements {
    kept: Vec<Judged>,
    whole: bool,
    all: History,
}

impl Model for Judgements {
    ghost use Rattle.std.specs.Prelude.{vec_capacity};
    ghost use Rattle.cone_pool.specs.Keeping.{Judgements};

    ghost Value = { Judgements };

    ghost view = { λ j. record {
      items = j.all.items;
      kept = j.kept.items;
      whole = j.whole;
      capacity = vec_capacity j.kept;
    } };
}

/// Whether an answer may look at a judgement that was made under this word: it is low, it is an end of the tree, or its
/// least value is at most the word's bound.
fn is_relevant(mode: Mode, j: &Judged, word: u64) -> bool
    ensures { MatchBool result (IsRelevantFate mode word j.now.fate j.now.least) (IsIrrelevant mode word j.now) }
{
    match j.fate {
        Fate::Low { .. } | Fate::AtLimit { .. } | Fate::Wide { .. } => true,
        Fate::Closed { .. } | Fate::Split { .. } | Fate::Dropped { .. } => match mode {
            Mode::Sign => false,
            Mode::Least => word >= 256 && j.least <= i128::from((word - 256).max(1)),
        },
    }
}

impl Judgements {
    /// None yet, of which the whole list is to be kept, or what an answer may look at.
    pub(crate) fn new(alloc: Global, whole: bool) -> Judgements
        ensures none { AreNone result }
        ensures whole { result.whole ≡ whole }
    {
        Judgements {
            kept: Vec::new(alloc),
            whole,
            all: History::new(),
        }
    }

    /// Makes room for one more.
    pub(crate) fn reserve(&mut self) -> Result<(), AllocError>
        ensures same { IsSameList self.old self.new }
        ensures room { OnOk result (HasRoom self.new) }
    {
        self.kept.reserve(1)
    }

    /// Notes a judgement that was made under this word.
    pub(crate) fn note(&mut self, mode: Mode, j: Judged, word: u64)
        requires { HasRoom self.old }
        ensures { IsNoted mode word j self.old self.new }
    {
        self.all = History::with(&self.all, &j);
        if self.whole || is_relevant(mode, &j, word) {
            // Field by field, since the prover makes no proof of a push of the whole.
            self.kept.push_reserved(Judged {
                path: j.path,
                fate: j.fate,
                least: j.least,
            });
        }
    }

    /// Takes over the judgements of another.
    pub(crate) fn append(&mut self, more: Judgements) -> Result<(), AllocError>
        ensures { OnOk result (IsAppended more self.old self.new) }
    {
        let Judgements {
            mut kept,
            whole: _,
            all,
        } = more;
        self.all = History::joined(&self.all, &all);
        self.kept.append(&mut kept)
    }

    /// Those that were kept.
    pub(crate) fn into_kept(self) -> Vec<Judged>
        ensures { result.items ≡ self.kept }
    {
        self.kept
    }
}
