//! Ways along a ray to the neighbouring perfect matrix, searched on one thread.
#![tactic(auto)]

#[cfg(test)]
mod tests;
