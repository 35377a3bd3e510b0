//! A set of the vectors that a search notes, each as a key, with a table of some of them: a mediant is made once for each cone on its
//! edge, so most of what is put is there already.

ghost use Rattle.std.specs.Prelude.{◌≡◌, ◌≤◌, ◌<◌, ◌^◌, [], length, slice_index_or, OnOk};
ghost use Rattle.search_core.specs.Attaining.{IsWithKey};
ghost use Rattle.search_core.specs.KeySets.{IsBlankTable};

use std::alloc::{AllocError, Global};
use std::collections::BTreeSet;
use std::marker::Model;

/// A generator's coordinates, with zeros past them, so that keys are in the vectors' order.
pub type Key = [u64; 8];

/// A set of keys.
///
/// Contracts see the list of its keys, in increasing order.
#[derive(Drop)]
pub struct KeySet {
    set: BTreeSet<Key>,
    // A key of the set in its place, or numbers that are over the limit of coordinates.
    table: [Key; 64],
}

impl Model for KeySet {
    ghost use Rattle.search_core.specs.KeySets.{ShownKeys, shown_keys, IsKeySet};

    ghost Value = { ShownKeys };

    ghost view = { shown_keys };

    ghost invariant = { IsKeySet };
}

impl KeySet {
    /// The empty set. It takes no memory.
    pub fn new(alloc: Global) -> KeySet
        ensures { result.keys ≡ [] }
    {
        KeySet {
            set: BTreeSet::new(alloc),
            table: blank_table(),
        }
    }

    /// Puts a key into the set.
    #[inline(always)]
    pub fn insert(&mut self, key: &Key) -> Result<(), AllocError>
        requires { slice_index_or key.now 0 0 ≤ 2 ^ 62 }
        ensures { OnOk result (IsWithKey self.old.keys key.now self.new.keys) }
    {
        let place = place_of_key(key);
        if self.table[place] == *key {
            return Ok(());
        }
        self.insert_at(place, key)
    }

    /// Puts a key into the set, and into a place of the table. A call of its own, so that the loops that put keys which are mostly in
    /// the table don't hold the set's code.
    #[inline(never)]
    fn insert_at(&mut self, place: usize, key: &Key) -> Result<(), AllocError>
        requires { place < 64 }
        ensures { OnOk result (IsWithKey self.old.keys key.now self.new.keys) }
    {
        self.set.insert(*key)?;
        self.table[place] = *key;
        Ok(())
    }

    /// Takes all keys away.
    pub(crate) fn clear(&mut self)
        ensures { self.new.keys ≡ [] }
    {
        self.set.clear();
        self.table = blank_table();
    }

    /// How many keys there are.
    pub fn len(&self) -> usize
        ensures { result ≡ length self.now.keys }
    {
        self.set.len()
    }

    /// The keys alone.
    pub(crate) fn into_set(self) -> BTreeSet<Key>
        ensures { result.keys ≡ self.keys }
    {
        self.set
    }
}

/// A table of numbers that are over the limit of coordinates.
fn blank_table() -> [Key; 64]
    ensures { IsBlankTable result }
{
    [[u64::MAX; 8]; 64]
}

/// The place of a key in a table of 64. Any would do: the first six numbers tell most keys apart.
#[inline(always)]
fn place_of_key(key: &Key) -> usize
    ensures { result < 64 }
{
    let mut mixed = 0u64;
    for number in &key[..6] {
        mixed = mixed.wrapping_mul(5).wrapping_add(*number);
    }
    (mixed % 64) as usize
}
