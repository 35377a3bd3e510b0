//! The checker of verdicts. It knows no cone and no search: every Gram matrix is made anew from its generators.
#![tactic(auto)]

mod checked;
mod checking;
mod closing;
mod dots;
/// What an accepted verdict proves.
pub mod laws;
mod node;
mod pairing;
mod rows;
mod slacks;
mod small;
mod small_node;
mod terms;
mod tree;

pub use checked::Checked;
pub use checking::check_verdict;
