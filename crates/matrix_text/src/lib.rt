//! The text of a symmetric matrix of fractions.
#![tactic(auto)]

mod clearing;
mod entry;
mod fault;
mod header;
/// Laws of the texts: each has one reading, and what is written is read.
pub mod laws;
mod matrix;
mod reading;
mod rows;
mod symmetry;
mod table;
mod writing;

pub use clearing::{ClearFail, cleared};
pub use fault::{TextFail, TextFault, TextKind};
pub use matrix::RatMatrix;
pub use reading::read_matrix;
pub use writing::write_matrix;
