//! What is said of one cone.

use unimodular_cone::{Path, WideAt};

/// What is said of one cone under a word. Generators count from 1.
#[derive(Clone, Copy, Debug, PartialEq, Eq)]
pub enum Fate {
    /// Each slack is at least the word's bound, so nothing below that bound lies in the cone.
    Closed { word: u64 },
    /// The cone's children are to be judged: those of its pair.
    Split { i: u8, j: u8, word: u64 },
    /// The first low generator.
    Low { which: u8 },
    /// A low cone is known that is no deeper.
    Dropped { word: u64 },
    /// The cone is as deep as the limit.
    AtLimit { word: u64 },
    /// A child does not fit: its first entry over the limit.
    Wide { word: u64, at: WideAt },
}

/// A judgement of one cone.
#[derive(Clone, Copy, Debug, PartialEq, Eq)]
pub struct Judged {
    /// The cone's path.
    pub path: Path,
    /// What is said of it.
    pub fate: Fate,
    /// The least value of a generator.
    pub least: i128,
}
