//! Whole runs of `minimum` and `copositive`, and of matrix texts that are refused.
#![tactic(auto)]

#[cfg(test)]
mod tests;
