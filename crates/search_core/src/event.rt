//! The events that the machine is told, and its answers.

use unimodular_cone::Path;

/// An event of the machine. The workers count from 1.
#[derive(Clone, Copy, Debug, PartialEq, Eq)]
pub enum Event {
    /// The worker takes a path that waits into its empty hand.
    Take { worker: u8, path: Path },
    /// The worker lowers the word to the code of the cone in its hand, and notes the new word.
    Offer { worker: u8 },
    /// The worker judges the offered cone in its hand under the noted word. The children of a split cone then wait.
    Judge { worker: u8 },
}

/// What the machine answers to an event.
#[derive(Clone, Copy, Debug, PartialEq, Eq)]
pub enum Stepped {
    /// It was done.
    Applied,
    /// The path isn't waiting, the worker isn't one of them, its hand isn't empty (Take), holds no cone that hasn't been
    /// offered (Offer), or holds no cone that has been offered (Judge).
    Ignored,
    /// Memory ran out.
    OutOfMemory,
}
