//! What holds of rays. The calls do nothing: their contracts are the laws.

ghost use Rattle.extreme_ray.specs.Theorems.{AtMostOneRay, OutsideHasARay};

/// At most one primitive matrix is zero at the zeros and positive at the leaving vector, so `ray_of` makes the only one.
pub fn at_most_one_ray()
    ensures { AtMostOneRay }
{}

/// The vectors that the linear program names where it answers Outside are a basis for `ray_of`, and the ray that it makes of them
/// is an extreme ray of the dual of the cone of all vectors, with a negative inner product with S.
pub fn outside_has_a_ray()
    ensures { OutsideHasARay }
{}
