//! What holds of all answers of the linear program. Each call does nothing: its contract is the law.

ghost use Rattle.exact_lp.specs.Theorems.{AtMostOnePlaceAnswer, LeavingIsUnique, EnteringHasLeaving, SettledAtOnce, SettledWhereNonnegative, OneRun, FrontIsRun, TablesHaveCoordinates};

/// Want of memory aside, at most one answer fits a linear program and a budget of steps.
pub fn at_most_one_answer()
    ensures { AtMostOnePlaceAnswer }
{}

/// Where the coordinates of S over the first basis are at least 0, no step is due, and S is a nonnegative combination.
///
/// They are so exactly where the table of the first basis has no negative entry of S.
pub fn settled_at_once()
    ensures once { SettledAtOnce }
    ensures table { SettledWhereNonnegative }
{}

/// Vectors and S have one run: two of them have the same steps as far as both go, and the first steps of a run are a run.
pub fn one_run()
    ensures same { OneRun }
    ensures front { FrontIsRun }
{}

/// The table after any number of steps that were due holds the coordinates of all columns over the basic ones.
pub fn tables_have_coordinates()
    ensures { TablesHaveCoordinates }
{}

/// At a state of the linear program exactly one vector leaves, where any can: one list of ratios is lexicographically less than
/// each other one. Where no entry is negative, each entering vector has one that leaves.
pub fn leaving_is_unique()
    ensures unique { LeavingIsUnique }
    ensures entering { EnteringHasLeaving }
{}
