//! Texts of lines and words, and the numbers that words stand for.
//!
//! A text is cut at line feeds, and a line into the runs of bytes other than space, tab and carriage return. Lines
//! without words, and those whose first word begins with `#`, are skipped but counted.
#![tactic(auto)]

/// The content lines of a text: those that are not skipped, each with its number.
pub mod content;
/// The whole, signed and fraction words, up to a limit.
pub mod fractions;
/// The numbers that words write, however many digits they have.
pub mod numbers;
/// The words of a line.
pub mod words;
/// Numbers as they are written.
pub mod writing;
