//! What a search looks for.

/// What a search looks for in the values of a matrix at nonnegative vectors.
#[derive(Clone, Copy, Debug, PartialEq, Eq)]
pub enum Mode {
    /// Whether some value is below 0.
    Sign,
    /// The least value at nonzero integer vectors, and where it is attained.
    Least,
}
