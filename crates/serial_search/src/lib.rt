//! The search on one thread.
#![tactic(auto)]

mod law;
mod mixed_search;
mod narrow_search;
#[cfg(test)]
mod plain;
mod search;
mod searcher;
mod short;
#[cfg(test)]
mod tests;
#[cfg(test)]
mod value_tests;
mod values;

pub use law::value_is_of_least;
pub use searcher::{SerialSearcher, bound_wide};
pub use short::{least_in_turns, sign_in_turns};
pub use values::{ValueOnly, least_value_in};
