//! The searcher on one thread.

ghost use Rattle.std.specs.Prelude.{◌≡◌, ◌≤◌, ◌<◌, ◌^◌, ◌-◌, ◌<ℤ◌, [], pos, MatchOption};
ghost use Rattle.symmetric_matrix.specs.Symmetric.{entry};
ghost use Rattle.unimodular_cone.specs.Answer.{BoundFits, IsLeastDiagonal};
ghost use Rattle.search_core.specs.Answers.{IsLeastAnswer, IsSignAnswer};

use crate::narrow_search::search_narrow;
use crate::search::{search, settled_least, settled_sign};
use cone_arena::ConeArena;
use search_core::{Least, Searcher, Sign, least_diagonal};
use std::alloc::Global;
use symmetric_matrix::SymInt;
use unimodular_cone::Mode;

/// A searcher on one thread: depth first, child 0 before child 1, under the falling word. It always returns.
#[derive(Drop)]
pub struct SerialSearcher {
    alloc: Global,
}

impl SerialSearcher {
    /// A searcher. It takes no memory until it searches.
    pub fn new(alloc: Global) -> SerialSearcher {
        SerialSearcher { alloc }
    }
}

impl Searcher for SerialSearcher {
    fn least(&mut self, q: &SymInt, limit: u8) -> Least {
        match bound_wide(q) {
            Some(diagonal) => Least::BoundWide { diagonal },
            None => least_within(self.alloc, q, limit),
        }
    }

    fn sign(&mut self, q: &SymInt, limit: u8) -> Sign {
        sign_within(self.alloc, q, limit)
    }
}

/// The least diagonal entry, where it is over 2^63 - 1.
pub fn bound_wide(q: &SymInt) -> Option<i128>
    ensures { MatchOption result (BoundFits Mode.Least q.now.size (entry q.now))
        (λ z. IsLeastDiagonal q.now.size (entry q.now) z × (pos (2 ^ 63 - 1) <ℤ z)) }
{
    let least = least_diagonal(q);
    if least > (1 << 63) - 1 {
        Some(least)
    } else {
        None
    }
}

/// The least value of a matrix whose least diagonal entry is at most 2^63 - 1: over narrow cones, and where one is not narrow over
/// cones of any Gram entries, from the root again.
fn least_within(alloc: Global, q: &SymInt, limit: u8) -> Least
    requires limited { limit ≤ 200 }
    requires bound_fits { BoundFits Mode.Least q.now.size (entry q.now) }
    ensures { IsLeastAnswer q.now.size (entry q.now) limit result }
{
    match search_narrow(alloc, Mode::Least, q, limit) {
        Err(_) => Least::OutOfMemory,
        Ok(None) => least_wide(alloc, q, limit),
        Ok(Some(found)) => settled_least(alloc, q, limit, found),
    }
}

/// The same, over cones of any Gram entries.
fn least_wide(alloc: Global, q: &SymInt, limit: u8) -> Least
    requires limited { limit ≤ 200 }
    requires bound_fits { BoundFits Mode.Least q.now.size (entry q.now) }
    ensures { IsLeastAnswer q.now.size (entry q.now) limit result }
{
    match ConeArena::with_cones(alloc, q.n(), limit) {
        Err(_) => Least::OutOfMemory,
        Ok(arena) => least_over(alloc, q, limit, arena),
    }
}

/// The same, over an empty arena.
fn least_over(alloc: Global, q: &SymInt, limit: u8, mut arena: ConeArena) -> Least
    requires limited { limit ≤ 200 }
    requires bound_fits { BoundFits Mode.Least q.now.size (entry q.now) }
    requires size { arena.size ≡ q.now.size }
    requires room { limit ≤ arena.depth }
    requires empty { arena.cones ≡ [] }
    ensures { IsLeastAnswer q.now.size (entry q.now) limit result }
{
    match arena.push_root(q) {
        Err(at) => Least::Wide { at },
        Ok(()) => match search(alloc, Mode::Least, q, limit, &mut arena) {
            Ok(found) => settled_least(alloc, q, limit, found),
            Err(_) => Least::OutOfMemory,
        },
    }
}

/// Whether some value is below 0: over narrow cones, and where one is not narrow over cones of any Gram entries, from the root
/// again.
fn sign_within(alloc: Global, q: &SymInt, limit: u8) -> Sign
    requires { limit ≤ 200 }
    ensures { IsSignAnswer q.now.size (entry q.now) limit result }
{
    match search_narrow(alloc, Mode::Sign, q, limit) {
        Err(_) => Sign::OutOfMemory,
        Ok(None) => sign_wide(alloc, q, limit),
        Ok(Some(found)) => settled_sign(alloc, q, limit, &found),
    }
}

/// The same, over cones of any Gram entries.
fn sign_wide(alloc: Global, q: &SymInt, limit: u8) -> Sign
    requires { limit ≤ 200 }
    ensures { IsSignAnswer q.now.size (entry q.now) limit result }
{
    match ConeArena::with_cones(alloc, q.n(), limit) {
        Err(_) => Sign::OutOfMemory,
        Ok(arena) => sign_over(alloc, q, limit, arena),
    }
}

/// The same, over an empty arena.
fn sign_over(alloc: Global, q: &SymInt, limit: u8, mut arena: ConeArena) -> Sign
    requires limited { limit ≤ 200 }
    requires size { arena.size ≡ q.now.size }
    requires room { limit ≤ arena.depth }
    requires empty { arena.cones ≡ [] }
    ensures { IsSignAnswer q.now.size (entry q.now) limit result }
{
    match arena.push_root(q) {
        Err(at) => Sign::Wide { at },
        Ok(()) => match search(alloc, Mode::Sign, q, limit, &mut arena) {
            Ok(found) => settled_sign(alloc, q, limit, &found),
            Err(_) => Sign::OutOfMemory,
        },
    }
}
