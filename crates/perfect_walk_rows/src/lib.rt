//! Walks of small matrices, searched on one thread.
#![tactic(auto)]

#[cfg(test)]
mod tests;
