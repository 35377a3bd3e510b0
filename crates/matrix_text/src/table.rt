//! A square table of entries.

ghost use Rattle.std.specs.Prelude.{◌≡◌, ◌≤◌, length};

use fraction128::Fraction;

/// The largest size.
pub const MOST: usize = 6;

/// A row, and the line where it stands.
#[derive(Clone, Copy)]
pub struct Row {
    pub line: u32,
    pub entries: [Fraction; MOST],
    ghost room: { length entries ≡ 6 },
}

/// The rows of a text, of which the first `size` count, and of each as many entries.
#[derive(Clone, Copy)]
pub struct Table {
    pub size: u8,
    pub rows: [Row; MOST],
    ghost some: { 1 ≤ size },
    ghost few: { size ≤ 6 },
    ghost room: { length rows ≡ 6 },
}
