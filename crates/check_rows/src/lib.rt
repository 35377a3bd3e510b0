//! Whole runs of `check`, and of command lines and files that are refused.
#![tactic(auto)]

#[cfg(test)]
mod tests;
#[cfg(test)]
mod word_and_file_tests;
