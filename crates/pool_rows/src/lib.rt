//! Searches by one to sixteen workers, in the pool and as searchers.
#![tactic(auto)]

#[cfg(test)]
mod pool_tests;
#[cfg(test)]
mod searcher_tests;
