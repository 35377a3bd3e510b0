//! Cone trees that prove a matrix copositive, and the text of a verdict.
#![tactic(auto)]

mod build;
mod fault;
mod header;
/// Laws of cone trees and of the texts of verdicts.
pub mod laws;
mod line;
mod lines;
mod reading;
mod separator;
mod symmetry;
mod table;
mod term_lines;
mod tree;
mod tree_line;
mod verdict;
mod word;
mod writing;

pub use build::build_tree;
pub use fault::{VerdictFail, VerdictFault, VerdictKind};
pub use reading::read_verdict;
pub use term_lines::TermLines;
pub use tree::{ConeTree, TreeLine};
pub use verdict::Verdict;
pub use writing::write_verdict;
