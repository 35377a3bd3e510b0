//! Narrow cones with their slacks, of whose children only those are made that a search has to see.

ghost use Rattle.std.specs.Prelude.{◌≡◌, ◌≢◌, ◌≤◌, ◌<◌, ◌-◌, ◌^◌, [], ◌∷◌, ◌++◌, length, nat_eq, pos, ◌≤ℤ◌, None, IfSome, IsTrue, MatchOption};
ghost use Rattle.unimodular_cone.specs.Cones.{child_gram};
ghost use Rattle.unimodular_cone.specs.Mediant.{AreProducts, FitsWith, IsMediantOf};
ghost use Rattle.unimodular_cone.specs.Narrow.{HasNarrowMediant};
ghost use Rattle.unimodular_cone.specs.OpenChildren.{AreSlacks, IsOpening, AreOpenMade};
ghost use Rattle.unimodular_cone.specs.Replacement.{IsChildWith};
ghost use Rattle.unimodular_cone.specs.Shown.{shown_gram, IsWithinLimits, FitsOnBothSides};

use crate::cone_read::ConeRead;
use crate::cone_tests::ConeTests;
use crate::mediant::{children_fit, mediant_coordinates};
use crate::narrow::NarrowCone;
use crate::narrow_bound::least_value;
use crate::narrow_pair::pair;
use crate::narrow_sums::{are_narrow, coordinates_fit, products};
use crate::open_children::{OpenChildren, Opened, are_at_least, is_at, open_of};
use crate::path::Path;
use crate::refusal::WideAt;
use crate::slack_numbers::{child_slacks, mediant_value, put_slacks, slacks_of};
use std::marker::Model;

/// A narrow cone with its slacks, from which those of its children are made by a few additions.
///
/// It shows what the narrow cone shows.
#[derive(Drop)]
pub struct SlackCone {
    cone: NarrowCone,
    // Those of its generators; what is past them is of no account.
    slacks: [i64; 8],
}

impl Model for SlackCone {
    ghost use Rattle.unimodular_cone.specs.Shown.{ShownCone};

    ghost Value = { ShownCone };

    ghost use Rattle.unimodular_cone.specs.SlackFields.{slack_shown, IsSlackCone};

    ghost view = { slack_shown };

    ghost invariant = { IsSlackCone };
}

impl SlackCone {
    /// The same cone with its slacks.
    pub fn of(cone: NarrowCone) -> SlackCone
        ensures { result ≡ cone }
    {
        let slacks = slacks_of(&cone, cone.count());
        SlackCone { cone, slacks }
    }

    /// The same cone again.
    pub fn copy(&self) -> SlackCone
        ensures { result ≡ self.now }
    {
        SlackCone {
            cone: self.cone.copy(),
            slacks: self.slacks,
        }
    }

    /// Splits the cone on the sides of the generators i and j, which count from 1, where both children are narrow. Both are made
    /// where the mediant's value is below the bound, else each that is not closed at the bound: child 1, with v_i + v_j in the
    /// place of v_j, here and child 0, with v_i + v_j in the place of v_i, in `above`, or one alone here. Answers which are made,
    /// and whether the mediant's value is the bound: there `mediant` gets its coordinates, with zeros past them. None where a
    /// child is not narrow, and the cone is as before. No entry of either is to be over its limit.
    ///
    /// Only the numbers that count are written, and no memory is taken.
    #[inline(always)]
    pub fn split_open(
        &mut self,
        above: &mut SlackCone,
        i: u8,
        j: u8,
        bound: u64,
        mediant: &mut [u64; 8],
    ) -> Option<Opened>
        requires first { 1 ≤ i }
        requires order { i < j }
        requires last { j ≤ self.old.size }
        requires room { length self.old.path < 200 }
        requires fits { FitsOnBothSides self.old (i - 1) (j - 1) }
        ensures narrow { MatchOption result (¬ HasNarrowMediant self.old (i - 1) (j - 1))
            (λ _. HasNarrowMediant self.old (i - 1) (j - 1)) }
        ensures opening { IfSome result (λ o. IsOpening self.old (i - 1) (j - 1) (pos bound) o mediant.new) }
        ensures made { IfSome result (λ o. AreOpenMade self.old (i - 1) (j - 1) o.made self.new above.new) }
        ensures kept { result ≡ None → self.new ≡ self.old }
    {
        let (r, s) = (i - 1, j - 1);
        // The mediant's value is narrow, so that no bound beyond this one tells more.
        let bound = bound.min(1 << 60) as i64;
        match self.cone.count() {
            3 => self.split_sized(above, r, s, 3, bound, mediant),
            4 => self.split_sized(above, r, s, 4, bound, mediant),
            5 => self.split_sized(above, r, s, 5, bound, mediant),
            6 => self.split_sized(above, r, s, 6, bound, mediant),
            n => self.split_sized(above, r, s, n, bound, mediant),
        }
    }

    /// The same of a cone of n generators, on the sides of r and s, which count from 0.
    #[inline(always)]
    fn split_sized(
        &mut self,
        above: &mut SlackCone,
        r: u8,
        s: u8,
        n: u8,
        bound: i64,
        mediant: &mut [u64; 8],
    ) -> Option<Opened>
        requires size { n ≡ self.old.size }
        requires order { r < s }
        requires last { s < n }
        requires room { length self.old.path < 200 }
        requires fits { FitsOnBothSides self.old r s }
        ensures narrow { MatchOption result (¬ HasNarrowMediant self.old r s) (λ _. HasNarrowMediant self.old r s) }
        ensures opening { IfSome result (λ o. IsOpening self.old r s bound o mediant.new) }
        ensures made { IfSome result (λ o. AreOpenMade self.old r s o.made self.new above.new) }
        ensures kept { result ≡ None → self.new ≡ self.old }
    {
        let _n = self.cone.count();
        let products = products(&self.cone, r, s, n);
        if !are_narrow(&self.cone, &products, r, s, n) {
            return None;
        }
        let value = mediant_value(&self.cone, &products, r, s, n);
        let first = child_slacks(&self.cone, &self.slacks, &products, value, r, s, n);
        let second = child_slacks(&self.cone, &self.slacks, &products, value, s, r, n);
        let made = open_of(value, &first, &second, n, bound);
        let attains = is_at(value, bound);
        tell_mediant(&self.cone, r, s, n, attains, mediant);
        self.make(above, &products, &first, &second, r, s, n, made);
        Some(Opened { made, attains })
    }

    /// Makes the children of r and s that are to be made, both of which are narrow, by the mediant's products with the n generators
    /// and their slacks.
    #[inline(always)]
    fn make(
        &mut self,
        above: &mut SlackCone,
        products: &[i64; 8],
        first: &[i64; 8],
        second: &[i64; 8],
        r: u8,
        s: u8,
        n: u8,
        made: OpenChildren,
    )
        requires size { n ≡ self.old.size }
        requires order { r < s }
        requires last { s < n }
        requires room { length self.old.path < 200 }
        requires fits { FitsOnBothSides self.old r s }
        requires narrow { HasNarrowMediant self.old r s }
        requires products { AreProducts self.old r s products.now }
        requires first { AreSlacks n (child_gram (shown_gram self.old) r s) first.now }
        requires second { AreSlacks n (child_gram (shown_gram self.old) s r) second.now }
        ensures { AreOpenMade self.old r s made self.new above.new }
    {
        match made {
            OpenChildren::Below | OpenChildren::Both => {
                above.become_child(&self.cone, products, first, r, s, n);
                self.put(products, second, s, r, 1, n);
            }
            OpenChildren::First => self.put(products, first, r, s, 0, n),
            OpenChildren::Second => self.put(products, second, s, r, 1, n),
            OpenChildren::Neither => {}
        }
    }

    /// Becomes child 0 of a cone of n generators, in which the mediant of r and s takes the place of r.
    #[inline(always)]
    fn become_child(
        &mut self,
        parent: &NarrowCone,
        products: &[i64; 8],
        slacks: &[i64; 8],
        r: u8,
        s: u8,
        n: u8,
    )
        requires size { n ≡ parent.now.size }
        requires first { r < n }
        requires second { s < n }
        requires apart { r ≢ s }
        requires room { length parent.now.path < 200 }
        requires fits { FitsWith parent.now r s }
        requires narrow { HasNarrowMediant parent.now r s }
        requires products { AreProducts parent.now r s products.now }
        requires slacks { AreSlacks n (child_gram (shown_gram parent.now) r s) slacks.now }
        ensures { IsChildWith parent.now r s (parent.now.path ++ nat_eq 0 1 ∷ []) self.new }
    {
        let _n = parent.count();
        self.cone.become_copy(parent, n);
        let coordinates = mediant_coordinates(parent, r, s, n);
        self.cone.put(&coordinates, products, r, s, 0, n);
        put_slacks(&mut self.slacks, slacks, n);
    }

    /// Becomes its child in which the mediant of r and s takes the place of r, with a digit at the path's end.
    #[inline(always)]
    fn put(&mut self, products: &[i64; 8], slacks: &[i64; 8], r: u8, s: u8, side: u8, n: u8)
        requires size { n ≡ self.old.size }
        requires first { r < n }
        requires second { s < n }
        requires apart { r ≢ s }
        requires digit { side < 2 }
        requires room { length self.old.path < 200 }
        requires fits { FitsWith self.old r s }
        requires narrow { HasNarrowMediant self.old r s }
        requires products { AreProducts self.old r s products.now }
        requires slacks { AreSlacks n (child_gram (shown_gram self.old) r s) slacks.now }
        ensures { IsChildWith self.old r s (self.old.path ++ nat_eq side 1 ∷ []) self.new }
    {
        let _n = self.cone.count();
        let coordinates = mediant_coordinates(&self.cone, r, s, n);
        self.cone.put(&coordinates, products, r, s, side, n);
        put_slacks(&mut self.slacks, slacks, n);
    }
}

/// Writes the coordinates of the mediant of r and s, with zeros past them, where they are wanted.
#[inline(always)]
fn tell_mediant(c: &NarrowCone, r: u8, s: u8, n: u8, wanted: bool, mediant: &mut [u64; 8])
    requires size { n ≡ c.now.size }
    requires first { r < n }
    requires second { s < n }
    ensures { IsTrue wanted → IsMediantOf c.now r s mediant.new }
{
    let _n = c.count();
    if wanted {
        *mediant = mediant_coordinates(c, r, s, n);
    }
}

impl ConeRead for SlackCone {
    ghost cone = { λ c. c };

    #[inline(always)]
    fn n(&self) -> u8 {
        self.cone.n()
    }

    #[inline(always)]
    fn path(&self) -> Path {
        self.cone.path()
    }

    #[inline(always)]
    fn gram(&self, row: u8, column: u8) -> i128 {
        self.cone.gram(row, column)
    }

    #[inline(always)]
    fn coordinate(&self, generator: u8, place: u8) -> u64 {
        self.cone.coordinate(generator, place)
    }
}

impl ConeTests for SlackCone {
    #[inline(always)]
    fn closed(&self, b: i128) -> bool {
        let n = self.cone.count();
        // No slack is above the narrow limit.
        if b > 1 << 59 {
            return false;
        }
        let bound = b as i64;
        match n {
            2 => are_at_least(&self.slacks, 2, bound),
            3 => are_at_least(&self.slacks, 3, bound),
            4 => are_at_least(&self.slacks, 4, bound),
            5 => are_at_least(&self.slacks, 5, bound),
            6 => are_at_least(&self.slacks, 6, bound),
            7 => are_at_least(&self.slacks, 7, bound),
            8 => are_at_least(&self.slacks, 8, bound),
            n => are_at_least(&self.slacks, n, bound),
        }
    }

    #[inline(always)]
    fn least_value(&self) -> i128 {
        i128::from(least_value(&self.cone))
    }

    #[inline(always)]
    fn pair(&self) -> Option<(u8, u8)> {
        pair(&self.cone)
    }

    #[inline(always)]
    fn children_fit(&self, i: u8, j: u8) -> Option<WideAt> {
        // The Gram entries of both children are within their limits.
        if coordinates_fit(&self.cone, i - 1, j - 1) {
            return None;
        }
        children_fit(&self.cone, i, j)
    }
}
