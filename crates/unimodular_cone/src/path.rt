//! Paths in the tree of cones.

ghost use Rattle.std.specs.Prelude.{◌≡◌, ◌<◌, ◌≤◌, [], ◌∷◌, ◌++◌, length, nat_eq};
ghost use Rattle.unimodular_cone.specs.Paths.{digit_of, digit_at, place_order, depth_order};

use std::cmp::Ordering;
use std::marker::Model;

/// A path in the tree of cones: a list of at most 200 digits 0 or 1, which name the child taken at each cone from the
/// root on.
///
/// The digits are packed into four words, the first digit most significant, with 0 past the end.
#[derive(Clone, Copy, Debug, PartialEq, Eq)]
pub struct Path {
    words: [u64; 4],
    len: u8,
}

impl Model for Path {
    ghost use Rattle.std.specs.Prelude.{List, Bool};

    ghost Value = { List Bool };

    ghost use Rattle.unimodular_cone.specs.PackedDigits.{digits_of, IsPacked, fields_of, fields_back};

    ghost view = { digits_of };

    ghost invariant = { IsPacked };

    ghost inverse = { fields_of };

    ghost inverse_ok = { fields_back };
}

impl Path {
    /// The path of the root, which has no digits.
    pub fn root() -> Path
        ensures { result ≡ [] }
    {
        Path {
            words: [0; 4],
            len: 0,
        }
    }

    /// How many digits there are, at most 200.
    pub fn len(&self) -> u8
        ensures count { result ≡ length self.now }
        ensures room { length self.now ≤ 200 }
    {
        self.len
    }

    /// This path with one more digit.
    pub fn child(self, side: u8) -> Path
        requires room { length self < 200 }
        requires digit { side < 2 }
        ensures { result ≡ self ++ nat_eq side 1 ∷ [] }
    {
        let mut longer = self;
        longer.push(side);
        longer
    }

    /// Puts one more digit at the end of this path.
    pub fn push(&mut self, side: u8)
        requires room { length self.old < 200 }
        requires digit { side < 2 }
        ensures { self.new ≡ self.old ++ nat_eq side 1 ∷ [] }
    {
        // The digit past the end was 0.
        self.words[usize::from(self.len / 64)] += u64::from(side) << (63 - self.len % 64);
        self.len += 1;
    }

    /// The digit at an index, from 0.
    pub fn digit(&self, k: u8) -> u8
        requires { k < length self.now }
        ensures { result ≡ digit_of (digit_at self.now k) }
    {
        ((self.words[usize::from(k / 64)] >> (63 - k % 64)) & 1) as u8
    }

    /// The order by place: by digits, a prefix first.
    pub fn by_place(&self, other: &Path) -> Ordering
        ensures { result ≡ place_order self.now other.now }
    {
        self.words.cmp(&other.words).then(self.len.cmp(&other.len))
    }

    /// The order by depth: by length, then by digits.
    pub fn by_depth(&self, other: &Path) -> Ordering
        ensures { result ≡ depth_order self.now other.now }
    {
        self.len.cmp(&other.len).then(self.words.cmp(&other.words))
    }
}
