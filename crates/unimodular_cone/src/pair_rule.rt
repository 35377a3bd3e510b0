//! The pair rule: the least negative Gram entry beside the diagonal.

ghost use Rattle.std.specs.Prelude.{◌≡◌, ◌≤◌, ◌<◌};
ghost use Rattle.unimodular_cone.specs.BestPair.{best_pair, IsBestOf, better_best};
ghost use Rattle.unimodular_cone.specs.Cones.{best_in_row};
ghost use Rattle.unimodular_cone.specs.Shown.{shown_gram, IsWithinLimits, NamesPair};

use crate::cone_read::{ConeRead, entry};

/// The least negative entry so far and its place, from 0; the value 0 where there is none.
///
/// The numbers of the place fill the struct to a whole multiple of its alignment, so that it is copied without gaps.
#[derive(Clone, Copy)]
struct Best {
    value: i128,
    row: u64,
    column: u64,
}

/// The better of the best so far and one more entry, the earlier one among equals.
#[inline(always)]
fn better_of(best: Best, value: i128, row: u8, column: u8) -> Best
    ensures { result ≡ better_best best value row column }
{
    if value < best.value {
        Best {
            value,
            row: u64::from(row),
            column: u64::from(column),
        }
    } else {
        best
    }
}

/// The best of what came before and of the entries of a row beyond the diagonal.
#[inline(always)]
fn best_beyond<C: ConeRead>(c: &C, row: u8, n: u8, before: Best) -> Best
    requires fits { IsWithinLimits (C.cone c.now) }
    requires size { n ≡ (C.cone c.now).size }
    requires range { row < n }
    requires best { IsBestOf (shown_gram (C.cone c.now)) before }
    ensures best { IsBestOf (shown_gram (C.cone c.now)) result }
    ensures pair { best_pair result ≡ best_in_row (shown_gram (C.cone c.now)) row n (best_pair before) }
{
    let mut best = before;
    for column in row + 1..n {
        best = better_of(best, entry(c, row, column), row, column);
    }
    best
}

/// The pair of a cone of n generators. It counts from 1.
#[inline(always)]
fn pair_of<C: ConeRead>(c: &C, n: u8) -> Option<(u8, u8)>
    requires fits { IsWithinLimits (C.cone c.now) }
    requires size { n ≡ (C.cone c.now).size }
    ensures { NamesPair (C.cone c.now) result }
{
    let mut best = Best {
        value: 0,
        row: 0,
        column: 0,
    };
    for row in 0..n {
        best = best_beyond(c, row, n, best);
    }
    if best.value < 0 {
        Some((best.row as u8 + 1, best.column as u8 + 1))
    } else {
        None
    }
}

/// The pair of a cone: the least negative Gram entry at (i, j) with i < j; among equals the least i, then the least j.
/// None exactly where no entry beside the diagonal is negative. It counts from 1.
pub fn pair<C: ConeRead>(c: &C) -> Option<(u8, u8)>
    ensures { NamesPair (C.cone c.now) result }
{
    match c.n() {
        2 => pair_of(c, 2),
        3 => pair_of(c, 3),
        4 => pair_of(c, 4),
        5 => pair_of(c, 5),
        6 => pair_of(c, 6),
        7 => pair_of(c, 7),
        8 => pair_of(c, 8),
        n => pair_of(c, n),
    }
}
