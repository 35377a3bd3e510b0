//! Texts of verdicts as they are read and written, and verdicts as they are checked.
#![tactic(auto)]

#[cfg(test)]
mod checker_tests;
#[cfg(test)]
mod text_tests;
