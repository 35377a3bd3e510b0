//! The order of fractions, with no product that could overflow.

ghost use Rattle.std.specs.Prelude.{◌≡◌, ◌<◌, ◌*◌, pos, ◌≤ℤ◌, ◌*ℤ◌};
ghost use Rattle.std.specs.Ordering.{nat_cmp, int_cmp};

use crate::small::{is_small, small_product};
use std::cmp::Ordering;

/// a/b against c/d. In small numbers it multiplies crosswise.
pub fn order_of_ratios(a: i128, b: i128, c: i128, d: i128) -> Ordering
    requires left { pos 1 ≤ℤ b }
    requires right { pos 1 ≤ℤ d }
    ensures { result ≡ int_cmp (a *ℤ d) (c *ℤ b) }
{
    if b == d {
        a.cmp(&c)
    } else if is_small(a) && is_small(b) && is_small(c) && is_small(d) {
        small_product(a, d).cmp(&small_product(c, b))
    } else {
        order_of_wide_ratios(a, b, c, d)
    }
}

fn order_of_wide_ratios(a: i128, b: i128, c: i128, d: i128) -> Ordering
    requires left { pos 1 ≤ℤ b }
    requires right { pos 1 ≤ℤ d }
    ensures { result ≡ int_cmp (a *ℤ d) (c *ℤ b) }
{
    let left = a.unsigned_abs();
    let right = c.unsigned_abs();
    match (a < 0, c < 0) {
        (false, false) => order_by_division(left, b as u128, right, d as u128),
        (false, true) => Ordering::Greater,
        (true, false) => Ordering::Less,
        (true, true) => order_by_division(right, d as u128, left, b as u128),
    }
}

// a/b against c/d by continued division: the whole parts, then the rests the other way up.
fn order_by_division(mut a: u128, mut b: u128, mut c: u128, mut d: u128) -> Ordering
    requires left { 0 < b }
    requires right { 0 < d }
    ensures { result ≡ nat_cmp (a * d) (c * b) }
{
    loop {
        let whole = a / b;
        let other_whole = c / d;
        if whole != other_whole {
            return whole.cmp(&other_whole);
        }
        let rest = a % b;
        let other_rest = c % d;
        if rest == 0 || other_rest == 0 {
            return rest.cmp(&other_rest);
        }
        a = d;
        c = b;
        b = other_rest;
        d = rest;
    }
}
