//! The whole numbers as a commutative ring, finite sums over any commutative ring, greatest common divisors.
//! Definitions and laws alone: there is nothing to run.
#![tactic(auto)]
