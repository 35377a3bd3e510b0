//! Vectors of a few nonnegative whole numbers, kept inline.

ghost use Rattle.std.specs.Prelude.{◌≡◌, ◌↔◌, ℕ, ◌-◌, ◌^◌, ◌≤◌, List, length, slice_index};
ghost use Rattle.exact_forms.specs.Vectors.{ComesBefore};
ghost use Rattle.symmetric_matrix.specs.Lists.{IsVector};

use smallvec::SmallVec;
use std::alloc::Global;
use std::cmp::Ordering;
use std::marker::Model;

/// A vector of 1 to 8 coordinates, each at most 2^62.
///
/// It is kept inline and takes no memory. Contracts see it as the list of its coordinates.
#[derive(Drop)]
pub struct IntVector {
    coordinates: SmallVec<u64, 8>,
}

impl Model for IntVector {
    ghost Value = { List ℕ };

    ghost view = { λ x. x.coordinates.items };

    ghost invariant = { λ x. IsVector x.coordinates.items };
}

impl IntVector {
    /// The vector of these 1 to 8 coordinates, each at most 2^62.
    pub fn from_slice(alloc: Global, x: &[u64]) -> IntVector
        requires { IsVector x.now }
        ensures { result ≡ x.now }
    {
        let Ok(coordinates) = SmallVec::from_slice(alloc, x) else {
            unreachable!()
        };
        IntVector { coordinates }
    }

    /// The coordinate at a place, counted from 1.
    pub fn at(&self, place: u8) -> u64
        requires first { 1 ≤ place }
        requires last { place ≤ length self.now }
        ensures value { result ≡ slice_index self.now (place - 1) }
        ensures small { result ≤ 2 ^ 62 }
    {
        self.coordinates.as_slice()[usize::from(place) - 1]
    }

    /// How many coordinates there are.
    pub fn len(&self) -> u8
        ensures value { result ≡ length self.now }
        ensures vector { IsVector self.now }
    {
        self.coordinates.len() as u8
    }

    /// The lexicographic order of two vectors of one length.
    pub fn cmp(&self, other: &IntVector) -> Ordering
        requires { length self.now ≡ length other.now }
        ensures less { (result ≡ Ordering.Less) ↔ ComesBefore self.now other.now }
        ensures equal { (result ≡ Ordering.Equal) ↔ (self.now ≡ other.now) }
        ensures greater { (result ≡ Ordering.Greater) ↔ ComesBefore other.now self.now }
    {
        self.coordinates
            .as_slice()
            .cmp(other.coordinates.as_slice())
    }

    /// The same vector again.
    pub fn copy(&self) -> IntVector
        ensures { result ≡ self.now }
    {
        IntVector::from_slice(*self.coordinates.allocator(), self.coordinates.as_slice())
    }

    /// The coordinates, in order.
    pub fn as_slice(&self) -> &[u64]
        ensures value { result.now ≡ self.now }
        ensures vector { IsVector self.now }
    {
        self.coordinates.as_slice()
    }
}
