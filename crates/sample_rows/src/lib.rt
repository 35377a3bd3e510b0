//! Whole runs of `sample`.
#![tactic(auto)]

#[cfg(test)]
mod tests;
