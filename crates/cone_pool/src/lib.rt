//! Workers that share a search: each has a deque of paths, and takes from the others' where its own is empty.
#![tactic(auto)]

mod cone_stack;
mod counted;
mod crew;
mod gate;
mod gathering;
mod hiring;
mod history;
mod judgements;
mod kept;
mod lending;
mod lot;
mod member;
mod opening;
mod pool;
mod pooled;
mod rule;
mod stack;
mod token;

pub use gate::{Gate, OpenGate};
pub use pool::{run_pool, run_pool_part};
pub use pooled::Pooled;
