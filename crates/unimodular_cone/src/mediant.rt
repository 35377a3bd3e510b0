//! The mediant of two generators, which takes the place of one of them in a child, and what of it is over its limit.

ghost use Rattle.std.specs.Prelude.{◌≡◌, ◌≢◌, ◌≤◌, ◌<◌, ◌-◌, ◌^◌, IsTrue, pos, nat_abs, MatchOption, length, slice_index_or};
ghost use Rattle.unimodular_cone.specs.Shown.{shown_coordinate, IsWithinLimits, FitsOnBothSides, IsFirstWideBelow};
ghost use Rattle.unimodular_cone.specs.Mediant.{IsMediantOf, AreProducts, IsRowOf, IsFirstBelow, wide_gram, FitsWith, IsFirstOverWith};

use crate::cone_read::{ConeRead, entry};
use crate::refusal::{WideAt, WideEntry};

/// The coordinate of a generator at a place, which count from 0.
#[inline(always)]
fn coordinate_at<C: ConeRead>(c: &C, generator: u8, place: u8) -> u64
    requires few { (C.cone c.now).size ≤ 8 }
    requires generator_in_range { generator < (C.cone c.now).size }
    requires place_in_range { place < (C.cone c.now).size }
    ensures { result ≡ shown_coordinate (C.cone c.now) generator place }
{
    c.coordinate(generator + 1, place + 1)
}

/// The coordinates of the mediant of two generators, which count from 0.
#[inline(always)]
pub fn mediant_coordinates<C: ConeRead>(c: &C, r: u8, s: u8, n: u8) -> [u64; 8]
    requires fits { IsWithinLimits (C.cone c.now) }
    requires size { n ≡ (C.cone c.now).size }
    requires first { r < n }
    requires second { s < n }
    ensures { IsMediantOf (C.cone c.now) r s result }
{
    let mut sums = [0; 8];
    for p in 0..n {
        sums[usize::from(p)] = coordinate_at(c, r, p) + coordinate_at(c, s, p);
    }
    sums
}

/// The mediant's products with the generators, before it takes the place of one of them.
#[inline(always)]
pub fn products<C: ConeRead>(c: &C, r: u8, s: u8, n: u8) -> [i128; 8]
    requires fits { IsWithinLimits (C.cone c.now) }
    requires size { n ≡ (C.cone c.now).size }
    requires first { r < n }
    requires second { s < n }
    ensures { AreProducts (C.cone c.now) r s result }
{
    let mut sums = [0; 8];
    for k in 0..n {
        sums[usize::from(k)] = entry(c, r, k) + entry(c, s, k);
    }
    sums
}

/// The Gram entries of the child in which the mediant takes the place of generator r, in its row, from the mediant's products.
fn row_of<C: ConeRead>(c: &C, products: &[i128; 8], r: u8, s: u8) -> [i128; 8]
    requires first { r < (C.cone c.now).size }
    requires second { s < (C.cone c.now).size }
    requires apart { r ≢ s }
    requires products { AreProducts (C.cone c.now) r s products.now }
    ensures { IsRowOf (C.cone c.now) r s result }
{
    let _n = c.n();
    let mut row = *products;
    row[usize::from(r)] += row[usize::from(s)];
    row
}

/// The Gram entries of the child in which the mediant takes the place of generator r, in its row.
pub fn mediant_row<C: ConeRead>(c: &C, r: u8, s: u8) -> [i128; 8]
    requires first { r < (C.cone c.now).size }
    requires second { s < (C.cone c.now).size }
    requires apart { r ≢ s }
    ensures { IsRowOf (C.cone c.now) r s result }
{
    row_of(c, &products(c, r, s, c.n()), r, s)
}

/// The first of n coordinates that is over its limit.
#[inline(always)]
pub fn first_wide_coordinate(coordinates: &[u64; 8], n: u8) -> Option<u8>
    requires { n ≤ 8 }
    ensures { IsFirstBelow n (λ p. 2 ^ 62 < slice_index_or coordinates.now p 0) result }
{
    for p in 0..n {
        if coordinates[usize::from(p)] > 1 << 62 {
            return Some(p);
        }
    }
    None
}

/// The first of n Gram entries that is over its limit.
#[inline(always)]
fn first_wide_product(row: &[i128; 8], n: u8) -> Option<u8>
    requires { n ≤ 8 }
    ensures { IsFirstBelow n (λ k. 2 ^ 100 < nat_abs (slice_index_or row.now k (pos 0))) result }
{
    for k in 0..n {
        if row[usize::from(k)].unsigned_abs() > 1 << 100 {
            return Some(k);
        }
    }
    None
}

/// The entry of the lower triangle at r and k, which count from 0.
pub fn gram_entry(r: u8, k: u8) -> WideEntry
    requires first { r < 8 }
    requires second { k < 8 }
    ensures { result ≡ wide_gram r k }
{
    WideEntry::Gram {
        row: r.max(k) + 1,
        column: r.min(k) + 1,
    }
}

/// The first entry over its limit in the child in which the mediant takes the place of generator r.
pub fn first_wide<C: ConeRead>(
    c: &C,
    coordinates: &[u64; 8],
    row: &[i128; 8],
    r: u8,
    s: u8,
) -> Option<WideEntry>
    requires first { r < (C.cone c.now).size }
    requires second { s < (C.cone c.now).size }
    requires coordinates { IsMediantOf (C.cone c.now) r s coordinates.now }
    requires row { IsRowOf (C.cone c.now) r s row.now }
    ensures { MatchOption result (FitsWith (C.cone c.now) r s) (IsFirstOverWith (C.cone c.now) r s) }
{
    let n = c.n();
    if let Some(p) = first_wide_coordinate(coordinates, n) {
        return Some(WideEntry::Coordinate {
            generator: r + 1,
            place: p + 1,
        });
    }
    match first_wide_product(row, n) {
        Some(k) => Some(gram_entry(r, k)),
        None => None,
    }
}

/// The first entry over its limit in child 0 of the generators i and j, which count from 1, and if there is none in child
/// 1, with the child's path. None where both children fit.
pub fn children_fit<C: ConeRead>(c: &C, i: u8, j: u8) -> Option<WideAt>
    requires first { 1 ≤ i }
    requires order { i < j }
    requires last { j ≤ (C.cone c.now).size }
    requires room { length (C.cone c.now).path < 200 }
    ensures { MatchOption result (FitsOnBothSides (C.cone c.now) (i - 1) (j - 1))
        (IsFirstWideBelow (C.cone c.now) (i - 1) (j - 1)) }
{
    let (first, second) = (i - 1, j - 1);
    if both_fit(c, first, second) {
        return None;
    }
    let coordinates = mediant_coordinates(c, first, second, c.n());
    let products = products(c, first, second, c.n());
    if let Some(entry) = wide_on(c, &coordinates, &products, first, second) {
        return Some(WideAt {
            path: c.path().child(0),
            entry,
        });
    }
    match wide_on(c, &coordinates, &products, second, first) {
        Some(entry) => Some(WideAt {
            path: c.path().child(1),
            entry,
        }),
        None => None,
    }
}

/// Whether no entry of either child of a cone of n generators is over its limit, with what the two share looked at once.
#[inline(always)]
fn both_fit_of<C: ConeRead>(c: &C, n: u8, r: u8, s: u8) -> bool
    requires fits { IsWithinLimits (C.cone c.now) }
    requires size { n ≡ (C.cone c.now).size }
    requires first { r < n }
    requires second { s < n }
    requires apart { r ≢ s }
    ensures first { IsTrue result → FitsWith (C.cone c.now) r s }
    ensures second { IsTrue result → FitsWith (C.cone c.now) s r }
{
    both_are_within(
        c,
        &mediant_coordinates(c, r, s, n),
        &products(c, r, s, n),
        n,
        r,
        s,
    )
}

/// The same, with the mediant's coordinates and its products with the generators.
#[inline(always)]
fn both_are_within<C: ConeRead>(
    c: &C,
    coordinates: &[u64; 8],
    products: &[i128; 8],
    n: u8,
    r: u8,
    s: u8,
) -> bool
    requires fits { IsWithinLimits (C.cone c.now) }
    requires size { n ≡ (C.cone c.now).size }
    requires first { r < (C.cone c.now).size }
    requires second { s < (C.cone c.now).size }
    requires apart { r ≢ s }
    requires coordinates { IsMediantOf (C.cone c.now) r s coordinates.now }
    requires products { AreProducts (C.cone c.now) r s products.now }
    ensures first { IsTrue result → FitsWith (C.cone c.now) r s }
    ensures second { IsTrue result → FitsWith (C.cone c.now) s r }
{
    let None = first_wide_coordinate(coordinates, n) else {
        return false;
    };
    let None = first_wide_product(products, n) else {
        return false;
    };
    (products[usize::from(r)] + products[usize::from(s)]).unsigned_abs() <= 1 << 100
}

/// Whether no entry of either child is over its limit.
fn both_fit<C: ConeRead>(c: &C, r: u8, s: u8) -> bool
    requires first { r < (C.cone c.now).size }
    requires second { s < (C.cone c.now).size }
    requires apart { r ≢ s }
    ensures first { IsTrue result → FitsWith (C.cone c.now) r s }
    ensures second { IsTrue result → FitsWith (C.cone c.now) s r }
{
    match c.n() {
        2 => both_fit_of(c, 2, r, s),
        3 => both_fit_of(c, 3, r, s),
        4 => both_fit_of(c, 4, r, s),
        5 => both_fit_of(c, 5, r, s),
        6 => both_fit_of(c, 6, r, s),
        7 => both_fit_of(c, 7, r, s),
        8 => both_fit_of(c, 8, r, s),
        n => both_fit_of(c, n, r, s),
    }
}

/// The first entry over its limit in the child in which the mediant of r and s takes the place of r.
fn wide_on<C: ConeRead>(
    c: &C,
    coordinates: &[u64; 8],
    products: &[i128; 8],
    r: u8,
    s: u8,
) -> Option<WideEntry>
    requires first { r < (C.cone c.now).size }
    requires second { s < (C.cone c.now).size }
    requires apart { r ≢ s }
    requires coordinates { IsMediantOf (C.cone c.now) r s coordinates.now }
    requires products { AreProducts (C.cone c.now) r s products.now }
    ensures { MatchOption result (FitsWith (C.cone c.now) r s) (IsFirstOverWith (C.cone c.now) r s) }
{
    first_wide(c, coordinates, &row_of(c, products, r, s), r, s)
}
