//! Rational numbers, forms and inner products, coordinates, and the definitions of copositive optimization.
//! Definitions and laws alone: the one call does nothing, and its contract is a law.
#![tactic(auto)]

mod law;

pub use law::separated_is_not_factored;
