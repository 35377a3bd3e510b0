//! Cones that keep their numbers inline.

ghost use Rattle.std.specs.Prelude.{◌≡◌, ◌≢◌, ◌≤◌, ◌<◌, ◌-◌, [], ◌∷◌, ◌++◌, true, false, length, map, take, nat_eq, None, IfOk, IfErr};
ghost use Rattle.exact_forms.specs.Triangles.{triangle};
ghost use Rattle.symmetric_matrix.specs.Symmetric.{entry};
ghost use Rattle.unimodular_cone.specs.Copies.{IsCopiedTo, AreRowsCopied};
ghost use Rattle.unimodular_cone.specs.Mediant.{FitsWith, IsMediantOf, AreProducts};
ghost use Rattle.unimodular_cone.specs.Shown.{FitsOnSide, FitsOnBothSides, shown_gram, IsWithinLimits, IsConeAt, IsChild, IsFirstWide, IsFirstWideAt, IsReachable, IsWideWhere, NamesPair, ReachesChild, IsExactChild, ShowsChild, IsNext, IsFirstWideNext};
ghost use Rattle.unimodular_cone.specs.Replacement.{IsChildWith, IsFirstWideWith, IsRowSet};

use crate::cone_read::ConeRead;
use crate::mediant::{first_wide, mediant_coordinates, mediant_row, products};
use crate::pair_rule::pair;
use crate::path::Path;
use crate::place::place_of;
use crate::refusal::{ConeFail, WideAt};
use crate::root_numbers::{first_wide_of, lower_of, unit_rows};
use std::marker::Model;
use symmetric_matrix::SymInt;

/// A cone: its path, n generators of n coordinates each, and their Gram matrix, all within their limits.
///
/// Its numbers are kept inline: the lower triangle of the Gram matrix row by row, and a row for each generator.
#[derive(Drop)]
pub struct Cone {
    n: u8,
    path: Path,
    gram: [i128; 36],
    generators: [[u64; 8]; 8],
}

impl Model for Cone {
    ghost use Rattle.unimodular_cone.specs.Shown.{ShownCone};

    ghost Value = { ShownCone };

    ghost use Rattle.unimodular_cone.specs.ConeFields.{shown_of, IsCone};

    ghost view = { shown_of };

    ghost invariant = { IsCone };
}

impl Cone {
    /// Splits the cone on the sides of the generators i and j, which count from 1. It becomes its child 1, with v_i + v_j in
    /// the place of v_j, and gives back its child 0, with v_i + v_j in the place of v_i. No entry of either is to be over its
    /// limit.
    ///
    /// The mediant's numbers are made once, by additions, and no memory is taken.
    pub fn split(&mut self, i: u8, j: u8) -> Cone
        requires first { 1 ≤ i }
        requires order { i < j }
        requires last { j ≤ self.old.size }
        requires room { length self.old.path < 200 }
        requires fits { FitsOnBothSides self.old (i - 1) (j - 1) }
        ensures zero { IsChild self.old (i - 1) (j - 1) false result }
        ensures one { IsChild self.old (i - 1) (j - 1) true self.new }
        ensures exact_zero { IsExactChild self.old (i - 1) (j - 1) false result }
        ensures exact_one { IsExactChild self.old (i - 1) (j - 1) true self.new }
    {
        let mut zero = self.copy();
        self.split_into(&mut zero, i, j);
        zero
    }

    /// Splits the cone on the sides of the generators i and j, which count from 1, as `split` does: it becomes its child 1, and
    /// `above` becomes its child 0, whatever it was before.
    ///
    /// Only the numbers that count are written, and no memory is taken.
    pub fn split_into(&mut self, above: &mut Cone, i: u8, j: u8)
        requires first { 1 ≤ i }
        requires order { i < j }
        requires last { j ≤ self.old.size }
        requires room { length self.old.path < 200 }
        requires fits { FitsOnBothSides self.old (i - 1) (j - 1) }
        ensures zero { IsChild self.old (i - 1) (j - 1) false above.new }
        ensures one { IsChild self.old (i - 1) (j - 1) true self.new }
        ensures exact_zero { IsExactChild self.old (i - 1) (j - 1) false above.new }
        ensures exact_one { IsExactChild self.old (i - 1) (j - 1) true self.new }
    {
        let (r, s) = (i - 1, j - 1);
        match self.n {
            3 => self.split_sized(above, r, s, 3),
            4 => self.split_sized(above, r, s, 4),
            5 => self.split_sized(above, r, s, 5),
            6 => self.split_sized(above, r, s, 6),
            n => self.split_sized(above, r, s, n),
        }
    }

    /// The same of a cone of n generators, on the sides of r and s, which count from 0.
    #[inline(always)]
    fn split_sized(&mut self, above: &mut Cone, r: u8, s: u8, n: u8)
        requires within { IsWithinLimits self.old }
        requires size { n ≡ self.old.size }
        requires order { r < s }
        requires last { s < n }
        requires room { length self.old.path < 200 }
        requires fits { FitsOnBothSides self.old r s }
        ensures zero { IsChild self.old r s false above.new }
        ensures one { IsChild self.old r s true self.new }
        ensures exact_zero { IsExactChild self.old r s false above.new }
        ensures exact_one { IsExactChild self.old r s true self.new }
    {
        let coordinates = mediant_coordinates(self, r, s, n);
        let products = products(self, r, s, n);
        above.become_copy(self);
        above.put(&coordinates, &products, r, s, 0);
        self.put(&coordinates, &products, s, r, 1);
    }

    /// Becomes the same cone as another.
    #[inline(always)]
    fn become_copy(&mut self, other: &Cone)
        ensures { self.new ≡ other.now }
    {
        self.n = other.n;
        self.path = other.path;
        copy_lower(&mut self.gram, &other.gram, other.n);
        copy_rows(&mut self.generators, &other.generators, other.n);
    }

    /// Goes down to the child on a side of the generators i and j, which count from 1: child 0 has v_i + v_j in the place of
    /// v_i, and child 1 has it in the place of v_j. No entry of that child is to be over its limit.
    ///
    /// It changes this cone's numbers in place, by additions, and takes no memory.
    pub fn step(&mut self, i: u8, j: u8, side: u8)
        requires first { 1 ≤ i }
        requires order { i < j }
        requires last { j ≤ self.old.size }
        requires digit { side < 2 }
        requires room { length self.old.path < 200 }
        requires fits { FitsOnSide self.old (i - 1) (j - 1) (nat_eq side 1) }
        ensures made { IsChild self.old (i - 1) (j - 1) (nat_eq side 1) self.new }
        ensures exact { IsExactChild self.old (i - 1) (j - 1) (nat_eq side 1) self.new }
    {
        if side == 0 {
            self.replace(i - 1, j - 1, side);
        } else {
            self.replace(j - 1, i - 1, side);
        }
    }

    /// A Gram entry, in either triangle, at a row and a column that count from 0.
    #[inline(always)]
    fn entry(&self, row: u8, column: u8) -> i128
        requires row_in_range { row < self.now.size }
        requires column_in_range { column < self.now.size }
        ensures { result ≡ shown_gram self.now row column }
    {
        let _n = self.n;
        self.gram[place_of(row, column)]
    }

    /// The lower triangle of the Gram matrix row by row, and behind it numbers that don't count.
    pub(crate) fn lower(&self) -> &[i128; 36]
        ensures { take (triangle self.now.size) result.now ≡ self.now.lower }
    {
        &self.gram
    }

    /// A row for each generator, and numbers that don't count behind it and in the rows after them.
    pub(crate) fn rows(&self) -> &[[u64; 8]; 8]
        ensures shown { map (take self.now.size) (take self.now.size result.now) ≡ self.now.generators }
        ensures room { length result.now ≡ 8 }
    {
        &self.generators
    }

    /// The same cone again.
    pub fn copy(&self) -> Cone
        ensures { result ≡ self.now }
    {
        Cone {
            n: self.n,
            path: self.path,
            gram: self.gram,
            generators: self.generators,
        }
    }

    /// Puts the mediant of r and s in the place of r, and a digit at the path's end. No entry of that child is over its limit.
    fn replace(&mut self, r: u8, s: u8, side: u8)
        requires first { r < self.old.size }
        requires second { s < self.old.size }
        requires apart { r ≢ s }
        requires digit { side < 2 }
        requires room { length self.old.path < 200 }
        requires fits { FitsWith self.old r s }
        ensures { IsChildWith self.old r s (self.old.path ++ nat_eq side 1 ∷ []) self.new }
    {
        let coordinates = mediant_coordinates(self, r, s, self.n);
        let products = products(self, r, s, self.n);
        self.put(&coordinates, &products, r, s, side);
    }

    /// The same, with the mediant's coordinates and its products with the generators.
    #[inline(always)]
    fn put(&mut self, coordinates: &[u64; 8], products: &[i128; 8], r: u8, s: u8, side: u8)
        requires first { r < self.old.size }
        requires second { s < self.old.size }
        requires apart { r ≢ s }
        requires digit { side < 2 }
        requires room { length self.old.path < 200 }
        requires coordinates { IsMediantOf self.old r s coordinates.now }
        requires products { AreProducts self.old r s products.now }
        requires fits { FitsWith self.old r s }
        ensures { IsChildWith self.old r s (self.old.path ++ nat_eq side 1 ∷ []) self.new }
    {
        self.path.push(side);
        self.generators[usize::from(r)] = *coordinates;
        set_row(&mut self.gram, products, r, self.n);
        self.gram[place_of(r, r)] += products[usize::from(s)];
    }
}

impl ConeRead for Cone {
    ghost cone = { λ c. c };

    fn n(&self) -> u8 {
        self.n
    }

    fn path(&self) -> Path {
        self.path
    }

    #[inline(always)]
    fn gram(&self, row: u8, column: u8) -> i128 {
        self.entry(row - 1, column - 1)
    }

    #[inline(always)]
    fn coordinate(&self, generator: u8, place: u8) -> u64 {
        self.generators[usize::from(generator - 1)][usize::from(place - 1)]
    }
}

/// The root's cone: the unit vectors, whose Gram matrix is the matrix itself. Refused is exactly a matrix with an entry
/// over the limit of Gram entries, with the first such entry.
///
/// It takes no memory.
pub fn root(q: &SymInt) -> Result<Cone, ConeFail>
    ensures made { IfOk result (IsConeAt q.now.size (entry q.now) []) }
    ensures fits { IfOk result IsWithinLimits }
    ensures wide { IfErr result (IsWideWhere (IsFirstWideAt q.now.size (entry q.now) [])) }
{
    let path = Path::root();
    if let Some(entry) = first_wide_of(q) {
        return Err(ConeFail::Wide(WideAt { path, entry }));
    }
    Ok(Cone {
        n: q.n(),
        path,
        gram: lower_of(q),
        generators: unit_rows(),
    })
}

/// The child of a cone on a side of the generators i and j, which count from 1: child 0 has v_i + v_j in the place of
/// v_i, and child 1 has it in the place of v_j. Refused is exactly a child with an entry over its limit, with the first such
/// entry.
///
/// It is made by additions from its parent's numbers, and takes no memory.
pub fn child(c: &Cone, i: u8, j: u8, side: u8) -> Result<Cone, ConeFail>
    requires first { 1 ≤ i }
    requires order { i < j }
    requires last { j ≤ c.now.size }
    requires digit { side < 2 }
    requires room { length c.now.path < 200 }
    ensures made { IfOk result (IsChild c.now (i - 1) (j - 1) (nat_eq side 1)) }
    ensures fits { IfOk result IsWithinLimits }
    ensures wide { IfErr result (IsWideWhere (IsFirstWide c.now (i - 1) (j - 1) (nat_eq side 1))) }
    ensures exact { ShowsChild c.now (i - 1) (j - 1) (nat_eq side 1) result }
    ensures reached { ReachesChild c.now (i - 1) (j - 1) (nat_eq side 1) result }
{
    child_on(c, i - 1, j - 1, side)
}

/// The child on a side of two generators that count from 0.
fn child_on(c: &Cone, i: u8, j: u8, side: u8) -> Result<Cone, ConeFail>
    requires order { i < j }
    requires last { j < c.now.size }
    requires digit { side < 2 }
    requires room { length c.now.path < 200 }
    ensures made { IfOk result (IsChild c.now i j (nat_eq side 1)) }
    ensures fits { IfOk result IsWithinLimits }
    ensures wide { IfErr result (IsWideWhere (IsFirstWide c.now i j (nat_eq side 1))) }
{
    let path = c.path.child(side);
    if side == 0 {
        child_with(c, i, j, path)
    } else {
        child_with(c, j, i, path)
    }
}

/// The cone that a path reaches from the root, at each cone by its pair. Each cone above it has to have a pair and to fit.
/// Refused is exactly a cone with an entry over its limit, with the first such entry.
pub fn at_path(q: &SymInt, path: &Path) -> Result<Cone, ConeFail>
    requires { IsReachable q.now.size (entry q.now) path.now }
    ensures made { IfOk result (IsConeAt q.now.size (entry q.now) path.now) }
    ensures fits { IfOk result IsWithinLimits }
    ensures wide { IfErr result (IsWideWhere (IsFirstWideAt q.now.size (entry q.now) path.now)) }
{
    let mut cone = root(q)?;
    for k in 0..path.len() {
        cone = next(&cone, path.digit(k))?;
    }
    Ok(cone)
}

/// The child of a cone on a side of its pair, which it has to have.
fn next(c: &Cone, side: u8) -> Result<Cone, ConeFail>
    requires paired { ¬ NamesPair c.now None }
    requires digit { side < 2 }
    requires room { length c.now.path < 200 }
    ensures made { IfOk result (IsNext c.now (nat_eq side 1)) }
    ensures fits { IfOk result IsWithinLimits }
    ensures wide { IfErr result (IsWideWhere (IsFirstWideNext c.now (nat_eq side 1))) }
{
    match pair(c) {
        Some((i, j)) => child(c, i, j, side),
        None => unreachable!(),
    }
}

/// The child in which the mediant of r and s takes the place of r.
fn child_with(c: &Cone, r: u8, s: u8, path: Path) -> Result<Cone, ConeFail>
    requires first { r < c.now.size }
    requires second { s < c.now.size }
    requires apart { r ≢ s }
    requires short { length path ≤ 200 }
    ensures made { IfOk result (IsChildWith c.now r s path) }
    ensures fits { IfOk result IsWithinLimits }
    ensures wide { IfErr result (IsWideWhere (IsFirstWideWith c.now r s path)) }
{
    let coordinates = mediant_coordinates(c, r, s, c.n);
    let row = mediant_row(c, r, s);
    if let Some(entry) = first_wide(c, &coordinates, &row, r, s) {
        return Err(ConeFail::Wide(WideAt { path, entry }));
    }
    let mut made = Cone {
        n: c.n,
        path,
        gram: c.gram,
        generators: c.generators,
    };
    made.generators[usize::from(r)] = coordinates;
    set_row(&mut made.gram, &row, r, c.n);
    Ok(made)
}

/// Writes row and column r of a lower triangle of n rows, counted from 0.
#[inline(always)]
fn set_row(gram: &mut [i128; 36], row: &[i128; 8], r: u8, n: u8)
    requires range { r < n }
    requires few { n ≤ 8 }
    ensures { IsRowSet n r gram.old row.now gram.new }
{
    for k in 0..n {
        gram[place_of(r, k)] = row[usize::from(k)];
    }
}

/// Copies the entries of a lower triangle of n rows.
#[inline(always)]
fn copy_lower(into: &mut [i128; 36], from: &[i128; 36], n: u8)
    requires few { n ≤ 8 }
    ensures { IsCopiedTo (triangle n) from.now into.new }
{
    match n {
        3 => copy_entries(into, from, 6),
        4 => copy_entries(into, from, 10),
        5 => copy_entries(into, from, 15),
        6 => copy_entries(into, from, 21),
        _ => copy_entries(into, from, 36),
    }
}

/// Copies the first numbers.
#[inline(always)]
fn copy_entries(into: &mut [i128; 36], from: &[i128; 36], count: usize)
    requires few { count ≤ 36 }
    ensures { IsCopiedTo count from.now into.new }
{
    for k in 0..count {
        into[k] = from[k];
    }
}

/// Copies the first n rows of generators.
#[inline(always)]
pub(crate) fn copy_rows(into: &mut [[u64; 8]; 8], from: &[[u64; 8]; 8], n: u8)
    requires few { n ≤ 8 }
    ensures { AreRowsCopied n from.now into.new }
{
    for k in 0..n {
        into[usize::from(k)] = from[usize::from(k)];
    }
}
