//! Cones whose Gram entries are kept in 64 bits.

ghost use Rattle.std.specs.Prelude.{◌≡◌, ◌≢◌, ◌≤◌, ◌<◌, ◌^◌, [], ◌∷◌, ◌++◌, length, nat_eq, nat_abs, IfSome, MatchOption};
ghost use Rattle.exact_forms.specs.Triangles.{triangle};
ghost use Rattle.symmetric_matrix.specs.Symmetric.{entry};
ghost use Rattle.unimodular_cone.specs.Copies.{IsCopiedTo};
ghost use Rattle.unimodular_cone.specs.Mediant.{FitsWith, IsMediantOf, AreProducts};
ghost use Rattle.unimodular_cone.specs.Narrow.{HasNarrowGram, HasNarrowMediant, HasShallowCoordinates, IsNarrowMatrix};
ghost use Rattle.unimodular_cone.specs.Replacement.{IsChildWith, IsRowSet};
ghost use Rattle.unimodular_cone.specs.Shown.{shown_gram, IsWithinLimits, IsConeAt};

use crate::cone::{Cone, copy_rows};
use crate::cone_read::ConeRead;
use crate::narrow_numbers::{entries_of, is_narrow, narrow_copies, narrow_lower_of};
use crate::path::Path;
use crate::place::place_of;
use crate::root_numbers::unit_rows;
use std::marker::Model;
use symmetric_matrix::SymInt;

/// A cone whose Gram entries are narrow, of a magnitude of at most 2^59, so that sums of four and slacks are made in 64 bits.
///
/// It shows what a `Cone` of the same numbers shows.
#[derive(Drop)]
pub struct NarrowCone {
    n: u8,
    path: Path,
    gram: [i64; 36],
    generators: [[u64; 8]; 8],
}

impl Model for NarrowCone {
    ghost use Rattle.unimodular_cone.specs.Shown.{ShownCone};

    ghost Value = { ShownCone };

    ghost use Rattle.unimodular_cone.specs.NarrowFields.{narrow_shown, IsNarrowCone};

    ghost view = { narrow_shown };

    ghost invariant = { IsNarrowCone };
}

impl NarrowCone {
    /// Becomes the same cone as another, of n generators.
    #[inline(always)]
    pub(crate) fn become_copy(&mut self, other: &NarrowCone, n: u8)
        requires size { n ≡ other.now.size }
        ensures { self.new ≡ other.now }
    {
        self.n = other.n;
        self.path = other.path;
        copy_lower(&mut self.gram, &other.gram, n);
        copy_rows(&mut self.generators, &other.generators, n);
    }

    /// The same cone as one of any Gram entries, whose coordinates are at most two to the depth, as those of each cone of a tree
    /// are. None where a Gram entry is not narrow.
    pub fn of(c: &Cone) -> Option<NarrowCone>
        requires { HasShallowCoordinates c.now }
        ensures { IfSome result (λ r. r ≡ c.now) }
    {
        let n = c.n();
        let gram = narrow_copies(c.lower(), entries_of(n))?;
        Some(NarrowCone {
            n,
            path: c.path(),
            gram,
            generators: *c.rows(),
        })
    }

    /// A Gram entry, in either triangle, at a row and a column that count from 0.
    #[inline(always)]
    pub(crate) fn entry(&self, row: u8, column: u8) -> i64
        requires row_in_range { row < self.now.size }
        requires column_in_range { column < self.now.size }
        ensures value { result ≡ shown_gram self.now row column }
        ensures narrow { nat_abs result ≤ 2 ^ 59 }
    {
        let _n = self.n;
        self.gram[place_of(row, column)]
    }

    /// How many generators there are.
    #[inline(always)]
    pub(crate) fn count(&self) -> u8
        ensures size { result ≡ self.now.size }
        ensures fits { IsWithinLimits self.now }
        ensures narrow { HasNarrowGram self.now }
        ensures shallow { HasShallowCoordinates self.now }
    {
        self.n
    }

    /// The same cone again.
    pub fn copy(&self) -> NarrowCone
        ensures { result ≡ self.now }
    {
        NarrowCone {
            n: self.n,
            path: self.path,
            gram: self.gram,
            generators: self.generators,
        }
    }

    /// Puts the mediant of r and s in the place of r, and a digit at the path's end, with the mediant's coordinates and its
    /// products with the n generators. That child is narrow, and no entry of it is over its limit.
    #[inline(always)]
    pub(crate) fn put(
        &mut self,
        coordinates: &[u64; 8],
        products: &[i64; 8],
        r: u8,
        s: u8,
        side: u8,
        n: u8,
    )
        requires size { n ≡ self.old.size }
        requires first { r < self.old.size }
        requires second { s < self.old.size }
        requires apart { r ≢ s }
        requires digit { side < 2 }
        requires room { length self.old.path < 200 }
        requires coordinates { IsMediantOf self.old r s coordinates.now }
        requires products { AreProducts self.old r s products.now }
        requires narrow { HasNarrowMediant self.old r s }
        requires fits { FitsWith self.old r s }
        ensures { IsChildWith self.old r s (self.old.path ++ nat_eq side 1 ∷ []) self.new }
    {
        self.path.push(side);
        self.generators[usize::from(r)] = *coordinates;
        set_row(&mut self.gram, products, r, n);
        self.gram[place_of(r, r)] += products[usize::from(s)];
    }
}

impl ConeRead for NarrowCone {
    ghost cone = { λ c. c };

    #[inline(always)]
    fn n(&self) -> u8 {
        self.n
    }

    #[inline(always)]
    fn path(&self) -> Path {
        self.path
    }

    #[inline(always)]
    fn gram(&self, row: u8, column: u8) -> i128 {
        i128::from(self.entry(row - 1, column - 1))
    }

    #[inline(always)]
    fn coordinate(&self, generator: u8, place: u8) -> u64 {
        self.generators[usize::from(generator - 1)][usize::from(place - 1)]
    }
}

/// The root's cone: the unit vectors, whose Gram matrix is the matrix itself. None exactly where some entry is not narrow.
///
/// It takes no memory.
pub fn narrow_root(q: &SymInt) -> Option<NarrowCone>
    ensures made { MatchOption result (¬ IsNarrowMatrix q.now) (IsConeAt q.now.size (entry q.now) []) }
    ensures fits { IfSome result IsWithinLimits }
{
    if !is_narrow(q) {
        return None;
    }
    Some(NarrowCone {
        n: q.n(),
        path: Path::root(),
        gram: narrow_lower_of(q),
        generators: unit_rows(),
    })
}

/// Writes row and column r of a lower triangle of n rows, counted from 0.
#[inline(always)]
fn set_row(gram: &mut [i64; 36], row: &[i64; 8], r: u8, n: u8)
    requires range { r < n }
    requires few { n ≤ 8 }
    ensures { IsRowSet n r gram.old row.now gram.new }
{
    for k in 0..n {
        gram[place_of(r, k)] = row[usize::from(k)];
    }
}

/// Copies the entries of a lower triangle of n rows.
#[inline(always)]
fn copy_lower(into: &mut [i64; 36], from: &[i64; 36], n: u8)
    requires few { n ≤ 8 }
    ensures { IsCopiedTo (triangle n) from.now into.new }
{
    match n {
        3 => copy_entries(into, from, 6),
        4 => copy_entries(into, from, 10),
        5 => copy_entries(into, from, 15),
        6 => copy_entries(into, from, 21),
        _ => copy_entries(into, from, 36),
    }
}

/// Copies the first numbers.
#[inline(always)]
fn copy_entries(into: &mut [i64; 36], from: &[i64; 36], count: usize)
    requires few { count ≤ 36 }
    ensures { IsCopiedTo count from.now into.new }
{
    for k in 0..count {
        into[k] = from[k];
    }
}
