//! Whole runs of `solve`.
#![tactic(auto)]

#[cfg(test)]
mod tests;
