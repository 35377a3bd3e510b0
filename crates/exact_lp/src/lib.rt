//! Membership of a matrix in the cone of the matrices v·vᵗ of a list of vectors, by an exact linear program.
#![tactic(auto)]

mod ends;
mod law;
mod lists;
mod placed;
mod rule;
mod simplex;
mod squares;

pub use law::{
    at_most_one_answer, leaving_is_unique, one_run, settled_at_once, tables_have_coordinates,
};
pub use lists::{Exchanges, Indices, Listed, Weights};
pub use placed::{Exchange, PlaceOp, Placed};
pub use simplex::place;
