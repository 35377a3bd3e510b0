//! What a cone shows to those that read it.

ghost use Rattle.std.specs.Prelude.{◌≡◌, ◌≤◌, ◌<◌, ◌-◌};
ghost use Rattle.unimodular_cone.specs.Shown.{ShownCone, shown_gram, shown_coordinate, IsWithinLimits};

use crate::path::Path;

/// A cone that can be read: its path, its n generators and their Gram matrix.
///
/// Whatever implements it shows a cone that fits: every coordinate and every Gram entry is within its limit.
/// Generators, places, rows and columns count from 1.
pub trait ConeRead {
    ghost cone: { Self → ShownCone };

    /// How many generators there are, from 1 to 8, each of as many coordinates.
    fn n(&self) -> u8
        ensures size { result ≡ (cone self.now).size }
        ensures fits { IsWithinLimits (cone self.now) };

    /// The cone's path.
    fn path(&self) -> Path
        ensures { result ≡ (cone self.now).path };

    /// A Gram entry, in either triangle.
    fn gram(&self, row: u8, column: u8) -> i128
        requires first_row { 1 ≤ row }
        requires last_row { row ≤ (cone self.now).size }
        requires first_column { 1 ≤ column }
        requires last_column { column ≤ (cone self.now).size }
        ensures { result ≡ shown_gram (cone self.now) (row - 1) (column - 1) };

    /// The coordinate of a generator at a place.
    fn coordinate(&self, generator: u8, place: u8) -> u64
        requires first_generator { 1 ≤ generator }
        requires last_generator { generator ≤ (cone self.now).size }
        requires first_place { 1 ≤ place }
        requires last_place { place ≤ (cone self.now).size }
        ensures { result ≡ shown_coordinate (cone self.now) (generator - 1) (place - 1) };
}

/// The Gram entry at a row and a column that count from 0.
#[inline(always)]
pub fn entry<C: ConeRead>(c: &C, row: u8, column: u8) -> i128
    requires few { (C.cone c.now).size ≤ 8 }
    requires row_in_range { row < (C.cone c.now).size }
    requires column_in_range { column < (C.cone c.now).size }
    ensures { result ≡ shown_gram (C.cone c.now) row column }
{
    c.gram(row + 1, column + 1)
}
