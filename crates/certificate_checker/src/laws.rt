//! What an accepted verdict proves, and which verdicts are accepted. Each call does nothing: its contract is the law.

ghost use Rattle.certificate_checker.specs.Theorems.{AcceptedIsRight, SeparationsExclude, RightIsNotRefused};

/// A verdict none of whose checks fails is right: its terms factor A, or its W separates A with that value, and the tree
/// proves W copositive.
pub fn accepted_is_right()
    ensures { AcceptedIsRight }
{}

/// Where a separation of A is right, W is copositive, and A is no sum of positive multiples of xxᵗ with nonnegative whole x.
pub fn separations_exclude()
    ensures { SeparationsExclude }
{}

/// Of the checks of a right verdict whose vectors increase none fails, or the first that does is an operation whose
/// result does not fit. So the checker accepts it, or names that operation.
pub fn right_is_not_refused()
    ensures { RightIsNotRefused }
{}
