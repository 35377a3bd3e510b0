//! The bound test of a cone: its slacks and its least value.

ghost use Rattle.std.specs.Prelude.{◌≡◌, ◌≢◌, ◌≤◌, ◌<◌, ◌^◌, ◌-◌, ◌↔◌, IsTrue, pos, ◌≤ℤ◌, ℕ};
ghost use Rattle.exact_forms.specs.Slacks.{slack, IsClosed};
ghost use Rattle.unimodular_cone.specs.Shown.{shown_gram, IsWithinLimits};
ghost use Rattle.unimodular_cone.specs.PartSlack.{IsPartSlack};
ghost use Rattle.unimodular_cone.specs.Answer.{IsLeastDiagonal};

use crate::cone_read::{ConeRead, entry};

/// What is left of a slack after some columns, none of them the diagonal's, where this is left before them.
#[inline(always)]
fn left_after<C: ConeRead>(c: &C, i: u8, first: u8, end: u8, before: i128) -> i128
    requires fits { IsWithinLimits (C.cone c.now) }
    requires range { i < (C.cone c.now).size }
    requires columns { end ≤ (C.cone c.now).size }
    requires order { first ≤ end }
    requires beside { (j : ℕ) → first ≤ j → j < end → j ≢ i }
    requires part { IsPartSlack (shown_gram (C.cone c.now)) i first before }
    ensures { IsPartSlack (shown_gram (C.cone c.now)) i end result }
{
    let mut left = before;
    for j in first..end {
        let beside = entry(c, i, j);
        if beside < 0 {
            left += beside;
        }
    }
    left
}

/// The slack of a generator that counts from 0: its value less the shortfalls of the negative entries beside it.
#[inline(always)]
fn slack_of<C: ConeRead>(c: &C, i: u8, n: u8) -> i128
    requires fits { IsWithinLimits (C.cone c.now) }
    requires size { n ≡ (C.cone c.now).size }
    requires range { i < n }
    ensures { result ≡ slack n (shown_gram (C.cone c.now)) i }
{
    let left = left_after(c, i, 0, i, entry(c, i, i));
    left_after(c, i, i + 1, n, left)
}

/// Whether every slack of a cone of n generators is at least b. For an n that the compiler knows it lays out every sum.
#[inline(always)]
fn closed_of<C: ConeRead>(c: &C, n: u8, b: i128) -> bool
    requires fits { IsWithinLimits (C.cone c.now) }
    requires size { n ≡ (C.cone c.now).size }
    requires low { pos 0 ≤ℤ b }
    requires high { b ≤ℤ pos (2 ^ 64 - 1) }
    ensures { IsTrue result ↔ IsClosed (C.cone c.now).size (shown_gram (C.cone c.now)) b }
{
    for i in 0..n {
        if slack_of(c, i, n) < b {
            return false;
        }
    }
    true
}

/// Whether every slack is at least b. Then each nonzero combination of the generators with nonnegative integer
/// coefficients has a value of at least b.
pub fn closed<C: ConeRead>(c: &C, b: i128) -> bool
    requires low { pos 0 ≤ℤ b }
    requires high { b ≤ℤ pos (2 ^ 64 - 1) }
    ensures { IsTrue result ↔ IsClosed (C.cone c.now).size (shown_gram (C.cone c.now)) b }
{
    match c.n() {
        2 => closed_of(c, 2, b),
        3 => closed_of(c, 3, b),
        4 => closed_of(c, 4, b),
        5 => closed_of(c, 5, b),
        6 => closed_of(c, 6, b),
        7 => closed_of(c, 7, b),
        8 => closed_of(c, 8, b),
        n => closed_of(c, n, b),
    }
}

/// The least value of one of n generators.
#[inline(always)]
fn least_of<C: ConeRead>(c: &C, n: u8) -> i128
    requires fits { IsWithinLimits (C.cone c.now) }
    requires size { n ≡ (C.cone c.now).size }
    ensures { IsLeastDiagonal (C.cone c.now).size (shown_gram (C.cone c.now)) result }
{
    let mut least = entry(c, 0, 0);
    for k in 1..n {
        let value = entry(c, k, k);
        if value < least {
            least = value;
        }
    }
    least
}

/// The least value of a generator.
#[inline(always)]
pub fn least_value<C: ConeRead>(c: &C) -> i128
    ensures { IsLeastDiagonal (C.cone c.now).size (shown_gram (C.cone c.now)) result }
{
    match c.n() {
        2 => least_of(c, 2),
        3 => least_of(c, 3),
        4 => least_of(c, 4),
        5 => least_of(c, 5),
        6 => least_of(c, 6),
        7 => least_of(c, 7),
        8 => least_of(c, 8),
        n => least_of(c, n),
    }
}
