//! What holds of all walks of a matrix. The calls do nothing: their contracts are the laws.

ghost use Rattle.walk_verdict.specs.Verdicts.{VerdictIsRight, OneWalkOfAMatrix, FirstConeIsFactored};

/// Terms that a walk of A ends with factor A, and a matrix that it ends with separates A and is found copositive by a
/// search within the walk's depth.
pub fn verdict_is_right()
    ensures { VerdictIsRight }
{}

/// Want of memory aside, a matrix has one walk under given limits.
pub fn one_walk_of_a_matrix()
    ensures { OneWalkOfAMatrix }
{}

/// A matrix in the cone of the first visit is factored there, without a step, where no operation is owed.
pub fn first_cone_is_factored()
    ensures { FirstConeIsFactored }
{}
