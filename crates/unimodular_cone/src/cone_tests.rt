//! The tests that a search makes of a cone, by whatever serves its numbers best.

ghost use Rattle.std.specs.Prelude.{◌≡◌, ◌≤◌, ◌<◌, ◌^◌, ◌-◌, ◌↔◌, IsTrue, pos, ◌≤ℤ◌, MatchOption, length};
ghost use Rattle.exact_forms.specs.Slacks.{IsClosed};
ghost use Rattle.unimodular_cone.specs.Answer.{IsLeastDiagonal};
ghost use Rattle.unimodular_cone.specs.Shown.{ShownCone, shown_gram, FitsOnBothSides, IsFirstWideBelow, NamesPair};

use crate::cone::Cone;
use crate::cone_read::ConeRead;
use crate::path::Path;
use crate::refusal::WideAt;
use crate::{bound_test, mediant, pair_rule};

/// A cone that makes the tests of a search: those of the functions of the same names, to the word.
pub trait ConeTests: ConeRead {
    /// Whether every slack is at least b.
    fn closed(&self, b: i128) -> bool
        requires low { pos 0 ≤ℤ b }
        requires high { b ≤ℤ pos (2 ^ 64 - 1) }
        ensures { IsTrue result ↔ IsClosed (Self.cone self.now).size (shown_gram (Self.cone self.now)) b };

    /// The least value of a generator.
    fn least_value(&self) -> i128
        ensures { IsLeastDiagonal (Self.cone self.now).size (shown_gram (Self.cone self.now)) result };

    /// The pair, which counts from 1: the least negative Gram entry at (i, j) with i < j; among equals the least i, then the
    /// least j. None exactly where no entry beside the diagonal is negative.
    fn pair(&self) -> Option<(u8, u8)>
        ensures { NamesPair (Self.cone self.now) result };

    /// The first entry over its limit in child 0 of the generators i and j, which count from 1, and if there is none in child
    /// 1, with the child's path. None where both children fit.
    fn children_fit(&self, i: u8, j: u8) -> Option<WideAt>
        requires first { 1 ≤ i }
        requires order { i < j }
        requires last { j ≤ (Self.cone self.now).size }
        requires room { length (Self.cone self.now).path < 200 }
        ensures { MatchOption result (FitsOnBothSides (Self.cone self.now) (i - 1) (j - 1))
            (IsFirstWideBelow (Self.cone self.now) (i - 1) (j - 1)) };
}

impl ConeTests for Cone {
    #[inline(always)]
    fn closed(&self, b: i128) -> bool {
        bound_test::closed(self, b)
    }

    #[inline(always)]
    fn least_value(&self) -> i128 {
        bound_test::least_value(self)
    }

    #[inline(always)]
    fn pair(&self) -> Option<(u8, u8)> {
        pair_rule::pair(self)
    }

    #[inline(always)]
    fn children_fit(&self, i: u8, j: u8) -> Option<WideAt> {
        mediant::children_fit(self, i, j)
    }
}

/// A cone that is only read, with the tests made by what it shows.
#[derive_where(Clone, Copy)]
pub struct ByReading<'a, C> {
    cone: &'a C,
}

impl<'a, C> ByReading<'a, C> {
    /// The same cone.
    #[inline(always)]
    pub fn of(cone: &'a C) -> ByReading<'a, C>
        ensures { result.cone.now ≡ cone.now }
    {
        ByReading { cone }
    }
}

impl<C: ConeRead> ConeRead for ByReading<'_, C> {
    ghost cone = { λ v. C.cone v.cone.now };

    #[inline(always)]
    fn n(&self) -> u8 {
        self.cone.n()
    }

    #[inline(always)]
    fn path(&self) -> Path {
        self.cone.path()
    }

    #[inline(always)]
    fn gram(&self, row: u8, column: u8) -> i128 {
        self.cone.gram(row, column)
    }

    #[inline(always)]
    fn coordinate(&self, generator: u8, place: u8) -> u64 {
        self.cone.coordinate(generator, place)
    }
}

impl<C: ConeRead> ConeTests for ByReading<'_, C> {
    #[inline(always)]
    fn closed(&self, b: i128) -> bool {
        bound_test::closed(self.cone, b)
    }

    #[inline(always)]
    fn least_value(&self) -> i128 {
        bound_test::least_value(self.cone)
    }

    #[inline(always)]
    fn pair(&self) -> Option<(u8, u8)> {
        pair_rule::pair(self.cone)
    }

    #[inline(always)]
    fn children_fit(&self, i: u8, j: u8) -> Option<WideAt> {
        mediant::children_fit(self.cone, i, j)
    }
}
