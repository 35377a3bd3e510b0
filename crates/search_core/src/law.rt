//! What holds of fates and codes. Each call does nothing: its contract is the law.

ghost use Rattle.search_core.specs.Theorems.{AtMostOneFate, FateIsOfThePath, CodeIsOfThePath, RunsAreFair, EveryRunIsFair};

/// A cone has at most one fate under a word, with a limit.
pub fn at_most_one_fate()
    ensures { AtMostOneFate }
{}

/// The fate that `judge` gives of a cone as it is shown is that of the cone at its path.
pub fn fate_is_of_the_path()
    ensures { FateIsOfThePath }
{}

/// The code that `code` gives of a cone as it is shown is that of the cone at its path.
pub fn code_is_of_the_path()
    ensures { CodeIsOfThePath }
{}

/// A run of the machine from its start to its end, by workers that take paths, offer their cones' codes and judge, in
/// whatever order, ends with a fair list of judgements and its final word.
pub fn runs_are_fair()
    ensures { RunsAreFair }
{}

/// Whatever list of events a new machine of any number of workers is told: once nothing waits and nothing is in hand, its
/// judgements are fair, and its word is their final word.
pub fn every_run_is_fair()
    ensures { EveryRunIsFair }
{}
