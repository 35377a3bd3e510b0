//! Worked values of matrices and vectors, and of cones: whole, narrow and in one block of memory.
#![tactic(auto)]

#[cfg(test)]
mod arena_tests;
#[cfg(test)]
mod cone_tests;
#[cfg(test)]
mod matrix_tests;
#[cfg(test)]
mod narrow_arena_tests;
#[cfg(test)]
mod narrow_tests;
