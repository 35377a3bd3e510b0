//! The search by several workers, and the search by one or by several.
#![tactic(auto)]

mod any;
mod any_gate;
mod leave;
mod pooled;

pub use any::AnySearcher;
pub use any_gate::AnyGate;
pub use pooled::PooledSearcher;
