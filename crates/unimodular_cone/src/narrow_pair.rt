//! The pair rule of a narrow cone, in 64 bits.

ghost use Rattle.std.specs.Prelude.{◌≡◌, ◌≤◌, ◌<◌};
ghost use Rattle.unimodular_cone.specs.BestPair.{best_pair, IsBestOf, better_best};
ghost use Rattle.unimodular_cone.specs.Cones.{best_in_row};
ghost use Rattle.unimodular_cone.specs.Narrow.{as_best};
ghost use Rattle.unimodular_cone.specs.Shown.{shown_gram, NamesPair};

use crate::narrow::NarrowCone;

/// The least negative entry so far and its place, from 0; the value 0 where there is none.
///
/// The place is one number, 8 times the row and the column, so that a better entry moves two words.
#[derive(Clone, Copy)]
struct NarrowBest {
    value: i64,
    place: u64,
}

/// The better of the best so far and one more entry, the earlier one among equals.
#[inline(always)]
fn better_of(best: NarrowBest, value: i64, row: u8, column: u8) -> NarrowBest
    requires { column < 8 }
    ensures { as_best result ≡ better_best (as_best best) value row column }
{
    if value < best.value {
        NarrowBest {
            value,
            place: 8 * u64::from(row) + u64::from(column),
        }
    } else {
        best
    }
}

/// The best of what came before and of the entries of a row beyond the diagonal.
#[inline(always)]
fn best_beyond(c: &NarrowCone, row: u8, n: u8, before: NarrowBest) -> NarrowBest
    requires few { n ≤ 8 }
    requires size { n ≡ c.now.size }
    requires range { row < n }
    requires best { IsBestOf (shown_gram c.now) (as_best before) }
    ensures best { IsBestOf (shown_gram c.now) (as_best result) }
    ensures pair { best_pair (as_best result) ≡ best_in_row (shown_gram c.now) row n (best_pair (as_best before)) }
{
    let mut best = before;
    for column in row + 1..n {
        best = better_of(best, c.entry(row, column), row, column);
    }
    best
}

/// The pair of a cone of n generators.
#[inline(always)]
fn pair_of(c: &NarrowCone, n: u8) -> Option<(u8, u8)>
    requires few { n ≤ 8 }
    requires size { n ≡ c.now.size }
    ensures { NamesPair c.now result }
{
    let mut best = NarrowBest { value: 0, place: 0 };
    for row in 0..n {
        best = best_beyond(c, row, n, best);
    }
    if best.value < 0 {
        Some(((best.place / 8) as u8 + 1, (best.place % 8) as u8 + 1))
    } else {
        None
    }
}

/// The pair of a cone: the least negative Gram entry at (i, j) with i < j; among equals the least i, then the least j.
/// None exactly where no entry beside the diagonal is negative. It counts from 1.
#[inline(always)]
pub fn pair(c: &NarrowCone) -> Option<(u8, u8)>
    ensures { NamesPair c.now result }
{
    match c.count() {
        2 => pair_of(c, 2),
        3 => pair_of(c, 3),
        4 => pair_of(c, 4),
        5 => pair_of(c, 5),
        6 => pair_of(c, 6),
        7 => pair_of(c, 7),
        8 => pair_of(c, 8),
        n => pair_of(c, n),
    }
}
