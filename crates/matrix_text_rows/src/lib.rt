//! Texts as `matrix_text` reads, writes and clears them.
#![tactic(auto)]

#[cfg(test)]
mod line_tests;
#[cfg(test)]
mod tests;
