//! The numbers of the mediant of two generators of a narrow cone, and whether they are within their limits.

ghost use Rattle.std.specs.Prelude.{◌≡◌, ◌≢◌, ◌≤◌, ◌<◌, ◌^◌, ◌↔◌, ℕ, IsTrue, pos, nat_abs, slice_index_or};
ghost use Rattle.unimodular_cone.specs.Mediant.{AreProducts, FitsWith};
ghost use Rattle.unimodular_cone.specs.Narrow.{HasNarrowGram, HasNarrowMediant};
ghost use Rattle.unimodular_cone.specs.Shown.{IsWithinLimits, FitsOnBothSides};

use crate::cone_read::ConeRead;
use crate::mediant::{first_wide_coordinate, mediant_coordinates};
use crate::narrow::NarrowCone;

/// The mediant's products with the generators, before it takes the place of one of them.
#[inline(always)]
pub fn products(c: &NarrowCone, r: u8, s: u8, n: u8) -> [i64; 8]
    requires few { n ≤ 8 }
    requires size { n ≡ c.now.size }
    requires first { r < n }
    requires second { s < n }
    ensures { AreProducts c.now r s result }
{
    let mut sums = [0; 8];
    for k in 0..n {
        sums[usize::from(k)] = c.entry(r, k) + c.entry(s, k);
    }
    sums
}

/// Whether a number is over the narrow limit.
#[inline(always)]
fn is_too_wide(x: i64) -> bool
    ensures { IsTrue result ↔ (2 ^ 59 < nat_abs x) }
{
    x < -(1 << 59) || x > 1 << 59
}

/// Whether the first n numbers are narrow.
#[inline(always)]
fn all_narrow(numbers: &[i64; 8], n: u8) -> bool
    requires { n ≤ 8 }
    ensures { IsTrue result ↔ ((k : ℕ) → k < n → nat_abs (slice_index_or numbers.now k (pos 0)) ≤ 2 ^ 59) }
{
    for k in 0..n {
        if is_too_wide(numbers[usize::from(k)]) {
            return false;
        }
    }
    true
}

/// Whether the mediant's products with the generators, and with itself, are narrow.
#[inline(always)]
pub fn are_narrow(c: &NarrowCone, products: &[i64; 8], r: u8, s: u8, n: u8) -> bool
    requires few { n ≤ 8 }
    requires size { n ≡ c.now.size }
    requires first { r < n }
    requires second { s < n }
    requires products { AreProducts c.now r s products.now }
    ensures { IsTrue result ↔ HasNarrowMediant c.now r s }
{
    all_narrow(products, n) && !is_too_wide(products[usize::from(r)] + products[usize::from(s)])
}

/// Whether no coordinate of the mediant is over its limit, and so no entry of either child.
#[inline(always)]
fn coordinates_fit_of(c: &NarrowCone, n: u8, r: u8, s: u8) -> bool
    requires fits { IsWithinLimits c.now }
    requires narrow { HasNarrowGram c.now }
    requires size { n ≡ c.now.size }
    requires first { r < n }
    requires second { s < n }
    requires apart { r ≢ s }
    ensures first { IsTrue result → FitsWith c.now r s }
    ensures second { IsTrue result → FitsWith c.now s r }
{
    let coordinates = mediant_coordinates(c, r, s, n);
    match first_wide_coordinate(&coordinates, n) {
        Some(_) => false,
        None => true,
    }
}

/// The same. A coordinate is at most two to the depth, so that few cones are looked at.
#[inline(always)]
pub fn coordinates_fit(c: &NarrowCone, r: u8, s: u8) -> bool
    requires first { r < c.now.size }
    requires second { s < c.now.size }
    requires order { r < s }
    ensures { IsTrue result → FitsOnBothSides c.now r s }
{
    let n = c.count();
    if c.path().len() < 62 {
        return true;
    }
    match n {
        2 => coordinates_fit_of(c, 2, r, s),
        3 => coordinates_fit_of(c, 3, r, s),
        4 => coordinates_fit_of(c, 4, r, s),
        5 => coordinates_fit_of(c, 5, r, s),
        6 => coordinates_fit_of(c, 6, r, s),
        7 => coordinates_fit_of(c, 7, r, s),
        8 => coordinates_fit_of(c, 8, r, s),
        n => coordinates_fit_of(c, n, r, s),
    }
}
