//! Tableaus of fractions over the unit matrices, with exact exchanges.
#![tactic(auto)]

mod entry;
mod indices;
mod kept;
mod pivot;
mod squares;
mod tableau;
mod whole;

pub use entry::{EntryOp, EntryPart, divided_entry};
pub use indices::contains;
pub use squares::square;
pub use tableau::Tableau;
