//! Runs of command lines over files in memory, for the crates of rows, which stand above `cpfactor_top` so that a row more
//! proves none of it again.
#![tactic(auto)]

mod files;
mod runs;

pub use files::{one_file, two_files};
pub use runs::{WORKERS, ended_over, status_after, status_over, words_of};
