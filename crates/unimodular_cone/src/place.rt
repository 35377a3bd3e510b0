//! Where the entries of a lower triangle stand.

ghost use Rattle.std.specs.Prelude.{◌≡◌, ◌<◌, ◌+◌, max, min};
ghost use Rattle.exact_forms.specs.Triangles.{triangle};

/// The places of the entries, by row and column, in either triangle: to read one is faster than to work it out.
static PLACES: [[u8; 8]; 8] = [
    [0, 1, 3, 6, 10, 15, 21, 28],
    [1, 2, 4, 7, 11, 16, 22, 29],
    [3, 4, 5, 8, 12, 17, 23, 30],
    [6, 7, 8, 9, 13, 18, 24, 31],
    [10, 11, 12, 13, 14, 19, 25, 32],
    [15, 16, 17, 18, 19, 20, 26, 33],
    [21, 22, 23, 24, 25, 26, 27, 34],
    [28, 29, 30, 31, 32, 33, 34, 35],
];

/// Where the entry at a row and a column, which count from 0 and come in either order, stands in the lower triangle.
#[inline(always)]
pub fn place_of(row: u8, column: u8) -> usize
    requires row { row < 8 }
    requires column { column < 8 }
    ensures place { result ≡ triangle (max row column) + min row column }
    ensures inside { result < 36 }
{
    usize::from(PLACES[usize::from(row)][usize::from(column)])
}
