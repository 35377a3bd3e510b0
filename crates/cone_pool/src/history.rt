//! What proofs know of all judgements.

ghost use Rattle.std.specs.Prelude.{◌≡◌, List, [], ◌∷◌, ◌++◌};
ghost use Rattle.std.specs.Borrow.{ftrue};
ghost use Rattle.search_core.specs.declared.Judged.{Judged};

use search_core::Judged;
use std::marker::Model;

/// A list of judgements for proofs alone: it takes no memory, and nothing reads it when the program runs.
#[derive(Drop)]
pub(crate) struct History {
    pub(crate) ghost items: { List Judged },
}

impl Model for History {
    ghost also_owns = { λ _. ftrue };
}

// A struct with `also_owns` is not `Send` by itself. This one owns nothing.
unsafe impl Send for History {}

impl History {
    /// No judgement.
    pub(crate) fn new() -> History
        ensures { result.items ≡ [] }
    {
        History {}
    }

    /// One more.
    pub(crate) fn with(_before: &History, _judged: &Judged) -> History
        ensures { result.items ≡ _before.now.items ++ _judged.now ∷ [] }
    {
        History {}
    }

    /// Those of another after those of the first.
    pub(crate) fn joined(_before: &History, _after: &History) -> History
        ensures { result.items ≡ _before.now.items ++ _after.now.items }
    {
        History {}
    }
}
