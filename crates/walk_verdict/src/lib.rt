//! What the end of a walk says of the matrix that it was made for.
#![tactic(auto)]

mod law;

pub use law::{first_cone_is_factored, one_walk_of_a_matrix, verdict_is_right};
