//! Files and sinks, in memory and real.
#![tactic(auto)]

#[cfg(test)]
mod tests;
