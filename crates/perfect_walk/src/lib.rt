//! The walk along perfect matrices.
#![tactic(auto)]

mod journal;
mod law;
mod start;
mod walking;

pub use fraction128::{Term, Terms};
pub use journal::{End, Journal, Limits, Owed, Step, Steps, Visit, Visits, Walked};
pub use law::{at_most_one_chain, at_most_one_walk, owed_is_first_due};
pub use walking::walk;
