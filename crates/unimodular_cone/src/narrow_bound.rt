//! A slack and the least value of a narrow cone, in 64 bits.

ghost use Rattle.std.specs.Prelude.{◌≡◌, ◌≢◌, ◌≤◌, ◌<◌, ◌^◌, ◌-◌, pos, ◌≤ℤ◌, ℕ};
ghost use Rattle.exact_forms.specs.Slacks.{slack};
ghost use Rattle.unimodular_cone.specs.Answer.{IsLeastDiagonal};
ghost use Rattle.unimodular_cone.specs.Narrow.{IsNarrowPart};
ghost use Rattle.unimodular_cone.specs.Shown.{shown_gram};

use crate::narrow::NarrowCone;

/// What is left of a slack after some columns, none of them the diagonal's, where this is left before them.
#[inline(always)]
fn left_after(c: &NarrowCone, i: u8, first: u8, end: u8, before: i64) -> i64
    requires few { c.now.size ≤ 8 }
    requires range { i < c.now.size }
    requires columns { end ≤ c.now.size }
    requires order { first ≤ end }
    requires beside { (j : ℕ) → first ≤ j → j < end → j ≢ i }
    requires part { IsNarrowPart (shown_gram c.now) i first before }
    ensures { IsNarrowPart (shown_gram c.now) i end result }
{
    let mut left = before;
    for j in first..end {
        let beside = c.entry(i, j);
        if beside < 0 {
            left += beside;
        }
    }
    left
}

/// The slack of a generator that counts from 0.
#[inline(always)]
pub fn slack_of(c: &NarrowCone, i: u8, n: u8) -> i64
    requires few { n ≤ 8 }
    requires size { n ≡ c.now.size }
    requires range { i < n }
    ensures value { result ≡ slack n (shown_gram c.now) i }
    ensures high { result ≤ℤ pos (2 ^ 59) }
{
    let left = left_after(c, i, 0, i, c.entry(i, i));
    left_after(c, i, i + 1, n, left)
}

/// The least value of one of n generators.
#[inline(always)]
fn least_of(c: &NarrowCone, n: u8) -> i64
    requires some { 1 ≤ n }
    requires size { n ≡ c.now.size }
    ensures { IsLeastDiagonal c.now.size (shown_gram c.now) result }
{
    let mut least = c.entry(0, 0);
    for k in 1..n {
        let value = c.entry(k, k);
        if value < least {
            least = value;
        }
    }
    least
}

/// The least value of a generator.
#[inline(always)]
pub fn least_value(c: &NarrowCone) -> i64
    ensures { IsLeastDiagonal c.now.size (shown_gram c.now) result }
{
    match c.count() {
        2 => least_of(c, 2),
        3 => least_of(c, 3),
        4 => least_of(c, 4),
        5 => least_of(c, 5),
        6 => least_of(c, 6),
        7 => least_of(c, 7),
        8 => least_of(c, 8),
        n => least_of(c, n),
    }
}
