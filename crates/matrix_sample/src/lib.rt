//! A matrix that a number decides: the sum of v·vᵗ over vectors that a recurrence draws.
#![tactic(auto)]

mod drawing;
mod sample;
#[cfg(test)]
mod tests;

pub use drawing::{coordinate_of, next_number};
pub use sample::{one_sample_of_a_number, sample_matrix};
