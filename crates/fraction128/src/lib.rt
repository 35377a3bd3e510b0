//! Fractions of 128 bits in lowest terms, with exact answers.
#![tactic(auto)]

mod divisor;
mod fraction;
mod order;
mod small;
mod weighted;

pub use fraction::Fraction;
pub use weighted::{Term, Terms};
