//! The extreme ray beside a basis of vectors.
#![tactic(auto)]

mod clearing;
mod law;
mod ray;
mod row;
mod start;

pub use law::{at_most_one_ray, outside_has_a_ray};
pub use ray::{RayFail, ray_of};
