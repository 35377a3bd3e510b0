//! Worked examples of the linear program and of the extreme ray beside a basis.
#![tactic(auto)]

#[cfg(test)]
mod place_tests;
#[cfg(test)]
mod ray_tests;
