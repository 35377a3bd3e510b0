//! Trees that prove a matrix copositive, once a search on one thread has found that it is.
#![tactic(auto)]

#[cfg(test)]
mod tests;
