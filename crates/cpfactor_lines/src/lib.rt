//! The words of the command line and the lines of the answers: how a command is read, and how a text is written.
#![tactic(auto)]

mod answers;
mod arguments;
mod checks;
mod command;
mod factorization;
mod line;
mod listing;
mod names;
mod refusals;
mod row;
mod summary;
mod text;
mod trace;
mod vectors;
mod words;

pub use answers::{copositive_line, low_line, minimum_line};
pub use checks::{
    checked_line, factorizations_are_verdicts, proof_fault_line, proof_too_long_line,
    right_verdicts_are_acceptable,
};
pub use command::{Command, Usage};
pub use factorization::push_factorization;
pub use line::{Word, words_line};
pub use perfect_walk::{Limits, Owed};
pub use refusals::{depth_line, fault_line, owed_line, pivots_line, usage_line};
pub use summary::sample_lines;
pub use text::put_lines;
pub use trace::trace_lines;
pub use vectors::put_with_vectors;
pub use words::{read_words, usual_limits, words_are_read_one_way};
