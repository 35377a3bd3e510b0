//! What holds of all cones and of every search's answer. Each call does nothing: its contract is the law.

ghost use Rattle.unimodular_cone.specs.Theorems.{ChildrenCover, ClosedBounds, AtMostOneFinalBound, AtMostOneFirstLow, AtMostOneFirstOpen, AtMostOneSearchAnswer, FoundIsMinimum, CopositiveHolds, LowHasItsValue, PairIsFirstLeast};

/// A nonnegative integer combination of a cone's generators lies in a child, again with nonnegative integer
/// coefficients: in child 0 of (i, j) where its j-th coefficient is at least the i-th, in child 1 where the i-th is at
/// least the j-th.
pub fn children_cover()
    ensures { ChildrenCover }
{}

/// In a cone that is closed at b, each nonzero nonnegative integer combination has a value of at least b, with equality
/// at generators alone, where b is at least 1. Where b is 0, no value is negative.
pub fn closed_bounds()
    ensures { ClosedBounds }
{}

/// A search has at most one final bound.
pub fn at_most_one_final_bound()
    ensures { AtMostOneFinalBound }
{}

/// A search has at most one first low path.
pub fn at_most_one_first_low()
    ensures { AtMostOneFirstLow }
{}

/// A search has at most one first open path.
pub fn at_most_one_first_open()
    ensures { AtMostOneFirstOpen }
{}

/// A search has at most one answer.
pub fn at_most_one_answer()
    ensures { AtMostOneSearchAnswer }
{}

/// The answer Found carries the copositive minimum and exactly its minimal vectors.
pub fn found_is_minimum()
    ensures { FoundIsMinimum }
{}

/// The answer Copositive is given of copositive matrices alone.
pub fn copositive_holds()
    ensures { CopositiveHolds }
{}

/// The answer Low carries a nonzero vector with the value that it carries, which is below 0, or at most 0 where the least
/// value is looked for.
pub fn low_has_its_value()
    ensures { LowHasItsValue }
{}

/// The pair of a cone is its least negative Gram entry beside the diagonal, the first one among equals by row and then by
/// column; it has none where no such entry is negative.
pub fn pair_is_first_least()
    ensures { PairIsFirstLeast }
{}
