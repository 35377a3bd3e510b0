//! What holds of all answers of the way along a ray. The call does nothing: its contract is the law.

ghost use Rattle.contiguous.specs.Theorems.{AtMostOneNeighbour};

/// Want of memory aside, at most one answer fits a matrix, a ray, a first vector, a depth and a budget.
pub fn at_most_one_neighbour()
    ensures { AtMostOneNeighbour }
{}
