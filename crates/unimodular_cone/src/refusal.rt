//! The entries of a cone that are over their limits.

use crate::path::Path;

/// An entry of a cone. Generators, places, rows and columns count from 1.
#[derive(Clone, Copy, Debug, PartialEq, Eq)]
pub enum WideEntry {
    /// A generator's coordinate, of which 2^62 is the limit.
    Coordinate { generator: u8, place: u8 },
    /// An entry of the lower triangle of the Gram matrix, of which the magnitude 2^100 is the limit.
    Gram { row: u8, column: u8 },
}

/// An entry over its limit, and the path of its cone.
#[derive(Clone, Copy, Debug, PartialEq, Eq)]
pub struct WideAt {
    pub path: Path,
    pub entry: WideEntry,
}

/// Why a cone is not made.
#[derive(Clone, Copy, Debug, PartialEq, Eq)]
pub enum ConeFail {
    /// The cone's first entry that is over its limit.
    Wide(WideAt),
    /// Memory ran out. Cones keep their numbers inline, so no call of this crate gives it.
    OutOfMemory,
}
