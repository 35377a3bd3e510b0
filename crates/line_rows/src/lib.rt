//! Lines and texts as `cpfactor_lines` writes them, and command lines as it reads them.
#![tactic(auto)]

#[cfg(test)]
mod line_tests;
#[cfg(test)]
mod word_tests;
