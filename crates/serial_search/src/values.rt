//! The least value alone, over an arena that is given, by two walks over the cones that take no memory.
//!
//! The first walk goes depth first under the falling word, and keeps of all cones the first low one alone. Where there is none
//! the second walk goes in the order of digits under the final word, up to the first open cone.

ghost use Rattle.std.specs.Prelude.{◌≡◌, ◌≤◌, ◌<◌, ◌-◌, ◌^◌, ℕ, [], take, slice_index_or};
ghost use Rattle.std.specs.Bool.{MatchBool};
ghost use Rattle.symmetric_matrix.specs.Symmetric.{entry};
ghost use Rattle.unimodular_cone.specs.Cones.{unit_vectors, Fits};
ghost use Rattle.unimodular_cone.specs.Answer.{BoundFits, IsListOf};
ghost use Rattle.unimodular_cone.specs.Shown.{IsWithinLimits, shown_generators};
ghost use Rattle.search_core.specs.Attaining.{IsKeyOf};
ghost use Rattle.serial_search.specs.Turns.{IsRootAlone, IsArenaEmptied};
ghost use Rattle.serial_search.specs.Values.{IsLeastValueAnswer, ValueHolds};
ghost use Rattle.serial_search.specs.Walks.{ComesFirst, ComesBehind, IsLowNoted, IsFirstLowCone, IsClearWord, IsFallen};

use crate::search::turn;
use crate::searcher::bound_wide;
use cone_arena::ConeArena;
use search_core::{Fate, NewGenerators, judge, lowering_fate, start_word};
use std::alloc::Global;
use symmetric_matrix::{IntVector, SymInt};
use unimodular_cone::{ConeRead, Mode, Path, WideAt, at_path};

/// The answer of a search for the least value at nonzero integer vectors, the list of those that attain it left out.
#[derive(Drop)]
pub enum ValueOnly {
    /// The least value over the tree.
    Found {
        minimum: i128,
    },
    /// A cone with a value of at most 0: the path of least depth, then least digits, with its first low generator and its value.
    Low {
        vector: IntVector,
        value: i128,
        path: Path,
    },
    /// The first open path has as many digits as the limit.
    Depth {
        path: Path,
    },
    /// The root does not fit, or a child of the first open path: the first entry over its limit.
    Wide {
        at: WideAt,
    },
    /// The least diagonal entry, which is over 2^63 - 1.
    BoundWide {
        diagonal: i128,
    },
}

/// A low cone, and its first low generator, which counts from 1.
#[derive(Clone, Copy)]
struct LowCone {
    path: Path,
    which: u8,
}

/// What the first walk finds: the first low cone, or the final word where no cone is low.
enum Fallen {
    Low(LowCone),
    Word(u64),
}

/// What `least` of the searcher answers, without the list. It takes no memory: the cones stand in the arena, which is empty
/// afterwards.
pub fn least_value_in(arena: &mut ConeArena, q: &SymInt, limit: u8) -> ValueOnly
    requires empty { arena.old.cones ≡ [] }
    requires size { arena.old.size ≡ q.now.size }
    requires room { limit ≤ arena.old.depth }
    ensures answer { IsLeastValueAnswer q.now.size (entry q.now) limit result }
    ensures holds { ValueHolds q.now.size (entry q.now) result }
    ensures emptied { IsArenaEmptied arena.old arena.new }
{
    let alloc = arena.allocator();
    match bound_wide(q) {
        Some(diagonal) => ValueOnly::BoundWide { diagonal },
        None => value_within(alloc, arena, q, limit),
    }
}

/// The same of a matrix whose least diagonal entry is at most 2^63 - 1.
fn value_within(alloc: Global, arena: &mut ConeArena, q: &SymInt, limit: u8) -> ValueOnly
    requires limited { limit ≤ 200 }
    requires bound_fits { BoundFits Mode.Least q.now.size (entry q.now) }
    requires empty { arena.old.cones ≡ [] }
    requires size { arena.old.size ≡ q.now.size }
    requires room { limit ≤ arena.old.depth }
    ensures answer { IsLeastValueAnswer q.now.size (entry q.now) limit result }
    ensures emptied { IsArenaEmptied arena.old arena.new }
{
    match arena.push_root(q) {
        Err(at) => ValueOnly::Wide { at },
        Ok(()) => match first_walk(arena, q, limit) {
            Fallen::Low(first) => low_answer(alloc, q, limit, first),
            Fallen::Word(word) => value_under(arena, q, limit, word),
        },
    }
}

/// Whether a path comes before that of the first low cone so far.
fn comes_first(path: &Path, first: &Option<LowCone>) -> bool
    ensures { MatchBool result (ComesFirst path.now first.now) (ComesBehind path.now first.now) }
{
    match first {
        Some(low) => path.by_depth(&low.path).is_lt(),
        None => true,
    }
}

/// Notes a cone of this fate if it is low and comes before the first low cone so far.
#[inline(always)]
fn note_low<C: ConeRead>(first: &mut Option<LowCone>, c: &C, fate: &Fate)
    ensures { IsLowNoted (C.cone c.now) fate.now first.old first.new }
{
    if let Fate::Low { which } = *fate {
        let path = c.path();
        if comes_first(&path, first) {
            *first = Some(LowCone { path, which });
        }
    }
}

/// The first walk: depth first under the falling word, from the root of a matrix, which stands alone in the arena.
fn first_walk(arena: &mut ConeArena, q: &SymInt, limit: u8) -> Fallen
    requires limited { limit ≤ 200 }
    requires bound_fits { BoundFits Mode.Least q.now.size (entry q.now) }
    requires fits { Fits q.now.size (entry q.now) unit_vectors }
    requires room { limit ≤ arena.old.depth }
    requires root { IsRootAlone q.now arena.old.cones }
    ensures fallen { IsFallen q.now.size (entry q.now) limit result }
    ensures emptied { IsArenaEmptied arena.old arena.new }
{
    let _n = q.n();
    let mut word = start_word(Mode::Least, q);
    let mut first: Option<LowCone> = None;
    while arena.len() > 0 {
        let cone = arena.top();
        let fate = lowering_fate(Mode::Least, &cone, limit, NewGenerators::Each, &mut word);
        note_low(&mut first, &cone, &fate);
        turn(arena, &fate);
    }
    match first {
        Some(low) => Fallen::Low(low),
        None => Fallen::Word(word),
    }
}

/// The coordinates of a generator that counts from 1, with zeros past them.
fn coordinates_of<C: ConeRead>(c: &C, which: u8) -> [u64; 8]
    requires first { 1 ≤ which }
    requires last { which ≤ (C.cone c.now).size }
    ensures fits { IsWithinLimits (C.cone c.now) }
    ensures key { IsKeyOf (C.cone c.now) (which - 1) result }
{
    let n = c.n();
    let mut coordinates = [0; 8];
    for p in 0..n {
        coordinates[usize::from(p)] = c.coordinate(which, p + 1);
    }
    coordinates
}

/// The vector of the first n coordinates.
fn vector_of(alloc: Global, n: u8, coordinates: &[u64; 8]) -> IntVector
    requires some { 1 ≤ n }
    requires few { n ≤ 8 }
    requires small { (p : ℕ) → p < n → slice_index_or coordinates.now p 0 ≤ 2 ^ 62 }
    ensures { result ≡ take n coordinates.now }
{
    IntVector::from_slice(alloc, &coordinates[..usize::from(n)])
}

/// A generator that counts from 1, as a vector.
fn generator<C: ConeRead>(alloc: Global, c: &C, which: u8) -> IntVector
    requires first { 1 ≤ which }
    requires last { which ≤ (C.cone c.now).size }
    ensures { IsListOf (C.cone c.now).size result (shown_generators (C.cone c.now) (which - 1)) }
{
    vector_of(alloc, c.n(), &coordinates_of(c, which))
}

/// The answer at the first low cone.
fn low_answer(alloc: Global, q: &SymInt, limit: u8, first: LowCone) -> ValueOnly
    requires bound_fits { BoundFits Mode.Least q.now.size (entry q.now) }
    requires fits { Fits q.now.size (entry q.now) unit_vectors }
    requires first { IsFirstLowCone q.now.size (entry q.now) limit first }
    ensures { IsLeastValueAnswer q.now.size (entry q.now) limit result }
{
    let _n = q.n();
    let Ok(cone) = at_path(q, &first.path) else {
        unreachable!()
    };
    ValueOnly::Low {
        vector: generator(alloc, &cone, first.which),
        value: cone.gram(first.which, first.which),
        path: first.path,
    }
}

/// The answer where no cone is low, by the final word.
fn value_under(arena: &mut ConeArena, q: &SymInt, limit: u8, word: u64) -> ValueOnly
    requires limited { limit ≤ 200 }
    requires final_word { IsClearWord q.now.size (entry q.now) limit word }
    requires empty { arena.old.cones ≡ [] }
    requires size { arena.old.size ≡ q.now.size }
    requires room { limit ≤ arena.old.depth }
    ensures answer { IsLeastValueAnswer q.now.size (entry q.now) limit result }
    ensures emptied { IsArenaEmptied arena.old arena.new }
{
    let Ok(()) = arena.push_root(q) else {
        unreachable!()
    };
    let answer = second_walk(arena, q, limit, word);
    take_all(arena);
    answer
}

/// The second walk: in the order of digits under the final word, from the root of a matrix, which stands alone in the arena, to
/// the first cone that is open.
fn second_walk(arena: &mut ConeArena, q: &SymInt, limit: u8, word: u64) -> ValueOnly
    requires limited { limit ≤ 200 }
    requires final_word { IsClearWord q.now.size (entry q.now) limit word }
    requires room { limit ≤ arena.old.depth }
    requires root { IsRootAlone q.now arena.old.cones }
    ensures answer { IsLeastValueAnswer q.now.size (entry q.now) limit result }
    ensures size { arena.new.size ≡ arena.old.size }
    ensures depth { arena.new.depth ≡ arena.old.depth }
{
    let _n = q.n();
    while arena.len() > 0 {
        let cone = arena.top();
        let fate = judge(Mode::Least, &cone, limit, word);
        match fate {
            Fate::AtLimit { .. } => return ValueOnly::Depth { path: cone.path() },
            Fate::Wide { at, .. } => return ValueOnly::Wide { at },
            _ => turn(arena, &fate),
        }
    }
    ValueOnly::Found {
        minimum: i128::from(word - 256),
    }
}

/// Takes all cones away.
fn take_all(arena: &mut ConeArena)
    ensures { IsArenaEmptied arena.old arena.new }
{
    while arena.len() > 0 {
        arena.drop_top();
    }
}
