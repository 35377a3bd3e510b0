//! The perfect matrix next to a perfect matrix along an extreme ray.
#![tactic(auto)]

mod law;
mod neighbour;
mod tightening;
mod walking;

pub use law::at_most_one_neighbour;
pub use neighbour::{Neighbour, NeighbourOp, Tighten, Tightens};
pub use walking::{last_candidate, next_perfect};
