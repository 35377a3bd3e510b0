//! What holds of the answers of two commands together. The call does nothing: its contract is the law.

ghost use Rattle.cpfactor_top.specs.Theorems.{CheckAcceptsWhatSolveWrote};

/// `check` accepts the text of a verdict that `solve` wrote of the same matrix text, with or without the trace, or
/// refuses an operation of its tests that is owed.
///
/// By the clause `due` of `run` and of `check_run` that is its answer, but for want of memory and faults of the files and
/// the sink.
pub fn check_accepts_what_solve_wrote()
    ensures { CheckAcceptsWhatSolveWrote }
{}
