//! The rows of W.

ghost use Rattle.std.specs.Prelude.{◌≡◌, ◌≤◌, length};

/// The largest size.
pub const MOST: usize = 6;

/// A row, and the line where it stands.
#[derive(Clone, Copy)]
pub struct SignedRow {
    pub line: u32,
    pub entries: [i128; MOST],
    ghost room: { length entries ≡ 6 },
}

/// The rows of a text, of which the first `size` count, and of each as many entries.
#[derive(Clone, Copy)]
pub struct SignedTable {
    pub size: u8,
    pub rows: [SignedRow; MOST],
    ghost some: { 1 ≤ size },
    ghost few: { size ≤ 6 },
    ghost room: { length rows ≡ 6 },
}
