//! What holds of all walks. The calls do nothing: their contracts are the laws.

ghost use Rattle.perfect_walk.specs.Theorems.{AtMostOneNext, AtMostOneChain, AtMostOneWalk};
ghost use Rattle.perfect_walk.specs.Theorems.{OwedIsFirstDue, FirstDueIsOwed};

/// At a state at most one thing comes next, so a chain is fixed by S, d, the depth and its number of steps.
pub fn at_most_one_chain()
    ensures next { AtMostOneNext }
    ensures chain { AtMostOneChain }
{}

/// Want of memory aside, at most one walk fits a task and a limit of steps.
pub fn at_most_one_walk()
    ensures { AtMostOneWalk }
{}

/// An operation that is owed at the end of a walk is the first one that is, of all that are due there, and the other
/// way round.
pub fn owed_is_first_due()
    ensures first { OwedIsFirstDue }
    ensures owed { FirstDueIsOwed }
{}
