//! Runs of the machine, and what they settle to, with answers that were worked out by hand.

ghost use Rattle.std.specs.Prelude.{◌≤◌, ◌^◌, IsTrue, IfSome, nat_abs};
ghost use Rattle.symmetric_matrix.specs.Symmetric.{entry};
ghost use Rattle.unimodular_cone.specs.Answer.{BoundFits};
ghost use Rattle.unimodular_cone.specs.Cones.{Fits, unit_vectors};
ghost use Rattle.search_core.specs.Events.{IsNewMachine, IsSameSearch};

use crate::{
    Event, Least, Machine, Mode, Sign, Stepped, least_diagonal, settle_least, settle_sign,
};
use std::alloc::{AllocError, Global};
use std::process::Abort;
use std::test::Fail;
use symmetric_matrix::{SymInt, VectorList};
use unimodular_cone::{Path, root};

/// The matrix `a b / b c`.
fn two(alloc: Global, a: i128, b: i128, c: i128) -> Result<SymInt, Fail>
    requires first { nat_abs a ≤ 2 ^ 126 }
    requires beside { nat_abs b ≤ 2 ^ 126 }
    requires last { nat_abs c ≤ 2 ^ 126 }
{
    Ok(SymInt::from_lower(alloc, 2, &[a, b, c])?)
}

/// The matrix of three rows with this lower triangle.
fn three(
    alloc: Global,
    a: i128,
    b: i128,
    c: i128,
    d: i128,
    e: i128,
    f: i128,
) -> Result<SymInt, Fail>
    requires first { nat_abs a ≤ 2 ^ 126 }
    requires second { nat_abs b ≤ 2 ^ 126 }
    requires third { nat_abs c ≤ 2 ^ 126 }
    requires fourth { nat_abs d ≤ 2 ^ 126 }
    requires fifth { nat_abs e ≤ 2 ^ 126 }
    requires last { nat_abs f ≤ 2 ^ 126 }
{
    Ok(SymInt::from_lower(alloc, 3, &[a, b, c, d, e, f])?)
}

/// The path whose digits stand behind a number's leading 1: `0b1` is the root's, `0b101` that of the digits 0 and 1.
fn path_of(number: u8) -> Path {
    let mut path = Path::root();
    let mut begun = false;
    for k in 0..8_u8 {
        let digit = (number >> (7 - k)) % 2;
        if begun {
            path.push(digit);
        }
        begun = begun || digit == 1;
    }
    path
}

/// The first worker takes, offers and judges these paths, one after the other.
fn one_by_one(alloc: Global, numbers: &[u8]) -> Result<Vec<Event>, AllocError> {
    let mut events = Vec::new(alloc);
    for number in numbers {
        let path = path_of(*number);
        events.push(Event::Take { worker: 1, path })?;
        events.push(Event::Offer { worker: 1 })?;
        events.push(Event::Judge { worker: 1 })?;
    }
    Ok(events)
}

/// Whether the least diagonal entry is at most 2^63 - 1.
fn has_small_diagonal(q: &SymInt) -> bool
    ensures { IsTrue result → BoundFits Mode.Least q.now.size (entry q.now) }
{
    least_diagonal(q) <= (1 << 63) - 1
}

/// Whether no entry of the root is over its limit.
fn has_fitting_root(q: &SymInt) -> bool
    ensures { IsTrue result → Fits q.now.size (entry q.now) unit_vectors }
{
    match root(q) {
        Ok(_) => true,
        Err(_) => false,
    }
}

/// A machine of two workers. None where the matrix is refused or memory is wanting.
fn new_machine(alloc: Global, mode: Mode, q: &SymInt, limit: u8) -> Option<Machine>
    requires { limit ≤ 200 }
    ensures new { IfSome result (IsNewMachine mode q.now limit 2) }
    ensures root { IfSome result (λ _. Fits q.now.size (entry q.now) unit_vectors) }
    ensures bound_fits { IfSome result (λ _. BoundFits Mode.Least q.now.size (entry q.now)) }
{
    if !has_fitting_root(q) || !has_small_diagonal(q) {
        return None;
    }
    match Machine::start(alloc, mode, q, limit, 2) {
        Ok(machine) => Some(machine),
        Err(_) => None,
    }
}

/// Plays events on a machine. How many were ignored; None where memory ran out.
fn play(machine: &mut Machine, events: &[Event]) -> Option<u64>
    ensures { IsSameSearch machine.old machine.new }
{
    let mut ignored = 0_u64;
    for event in events {
        match machine.step(*event) {
            Stepped::Applied => {}
            Stepped::Ignored => ignored = ignored.saturating_add(1),
            Stepped::OutOfMemory => return None,
        }
    }
    Some(ignored)
}

/// What was played on a machine, and what it settled to.
#[derive(Drop)]
struct Played<A> {
    answer: A,
    judged: usize,
    word: u64,
    ignored: u64,
}

/// Plays events on a machine of two workers, and settles its judgements for the least value. None where the matrix is refused,
/// memory ran out, or something is left to judge.
fn least_of(alloc: Global, q: &SymInt, limit: u8, events: &[Event]) -> Option<Played<Least>>
    requires { limit ≤ 200 }
{
    let mut machine = new_machine(alloc, Mode::Least, q, limit)?;
    let ignored = play(&mut machine, events)?;
    if machine.waiting() != 0 || machine.in_hand() != 0 {
        return None;
    }
    Some(Played {
        answer: settle_least(alloc, q, limit, machine.judged(), machine.word()),
        judged: machine.judged().len(),
        word: machine.word(),
        ignored,
    })
}

/// The same for a value below 0.
fn sign_of(alloc: Global, q: &SymInt, limit: u8, events: &[Event]) -> Option<Played<Sign>>
    requires { limit ≤ 200 }
{
    let mut machine = new_machine(alloc, Mode::Sign, q, limit)?;
    let ignored = play(&mut machine, events)?;
    if machine.waiting() != 0 || machine.in_hand() != 0 {
        return None;
    }
    Some(Played {
        answer: settle_sign(alloc, q, limit, machine.judged(), machine.word()),
        judged: machine.judged().len(),
        word: machine.word(),
        ignored,
    })
}

fn assert_path(rt: &impl Abort, path: &Path, number: u8) {
    assert_eq!(rt; *path, path_of(number));
}

/// The vectors of a list, one after the other.
fn assert_vectors(rt: &impl Abort, vectors: &VectorList, coordinates: &[u64]) {
    let mut left = coordinates.iter();
    for k in 0..vectors.len() {
        let vector = vectors.at(k);
        for place in 0..vector.len() {
            assert_eq!(rt; left.next().copied(), Some(vector.at(place + 1)));
        }
    }
    assert!(rt; left.next().is_none());
}

fn assert_found(rt: &impl Abort, answer: &Least, least: i128, coordinates: &[u64]) {
    match answer {
        Least::Found { minimum, vectors } => {
            assert_eq!(rt; *minimum, least);
            assert_vectors(rt, vectors, coordinates);
        }
        _ => assert!(rt; false),
    }
}

fn assert_depth(rt: &impl Abort, answer: &Least, number: u8) {
    match answer {
        Least::Depth { path } => assert_path(rt, path, number),
        _ => assert!(rt; false),
    }
}

/// Two workers, who judge in turn.
#[test]
fn five_judgements(rt: HostRuntime) -> Result<(), Fail> {
    let alloc = rt.alloc();
    let q = two(alloc, 2, -3, 6)?;
    let take = |worker, number| Event::Take {
        worker,
        path: path_of(number),
    };
    let events = [
        take(1, 0b1),
        Event::Offer { worker: 1 },
        Event::Judge { worker: 1 },
        take(1, 0b11),
        take(2, 0b10),
        Event::Offer { worker: 1 },
        Event::Offer { worker: 2 },
        Event::Judge { worker: 2 },
        Event::Judge { worker: 1 },
        take(2, 0b111),
        Event::Offer { worker: 2 },
        Event::Judge { worker: 2 },
        take(1, 0b110),
        Event::Offer { worker: 1 },
        Event::Judge { worker: 1 },
    ];
    let in_another_order = one_by_one(alloc, &[0b1, 0b11, 0b111, 0b110, 0b10])?;
    for run in [&events[..], &in_another_order[..]] {
        match least_of(alloc, &q, 2, run) {
            Some(played) => {
                assert_eq!(rt; played.judged, 5);
                assert_eq!(rt; played.word, 258);
                assert_eq!(rt; played.ignored, 0);
                assert_found(&rt, &played.answer, 2, &[1, 0, 1, 1, 2, 1]);
            }
            None => assert!(rt; false),
        }
    }
    Ok(())
}

fn assert_as_new(rt: &impl Abort, machine: &Machine) {
    assert_eq!(rt; machine.waiting(), 1);
    assert_eq!(rt; machine.in_hand(), 0);
    assert_eq!(rt; machine.word(), 258);
    assert_eq!(rt; machine.judged().len(), 0);
}

#[test]
fn ignored_events(rt: HostRuntime) -> Result<(), Fail> {
    let alloc = rt.alloc();
    let q = two(alloc, 2, -3, 6)?;
    let Some(mut machine) = new_machine(alloc, Mode::Least, &q, 2) else {
        assert!(rt; false);
        return Ok(());
    };
    let path = Path::root();
    let child = path_of(0b10);
    for event in [
        Event::Offer { worker: 1 },
        Event::Judge { worker: 1 },
        Event::Take {
            worker: 1,
            path: child,
        },
        Event::Take { worker: 0, path },
        Event::Take { worker: 3, path },
    ] {
        assert_eq!(rt; machine.step(event), Stepped::Ignored);
        assert_as_new(&rt, &machine);
    }
    assert_eq!(rt;
        machine.step(Event::Take { worker: 1, path }),
        Stepped::Applied
    );
    for event in [
        Event::Judge { worker: 1 },
        Event::Take { worker: 1, path },
        Event::Take { worker: 2, path },
    ] {
        assert_eq!(rt; machine.step(event), Stepped::Ignored);
        assert_eq!(rt; machine.waiting(), 0);
        assert_eq!(rt; machine.in_hand(), 1);
    }
    assert_eq!(rt; machine.step(Event::Offer { worker: 1 }), Stepped::Applied);
    assert_eq!(rt; machine.step(Event::Offer { worker: 1 }), Stepped::Ignored);
    assert_eq!(rt; machine.in_hand(), 1);
    Ok(())
}

/// The paths of at most three digits: a cone before its children, and child 0 with all below it before child 1.
const ZERO_FIRST: [u8; 15] = [
    0b1, 0b10, 0b100, 0b1000, 0b1001, 0b101, 0b1010, 0b1011, 0b11, 0b110, 0b1100, 0b1101, 0b111,
    0b1110, 0b1111,
];

/// The same, with the root's child 0 and all below it after its child 1.
const ZERO_LAST: [u8; 15] = [
    0b1, 0b11, 0b110, 0b1100, 0b1101, 0b111, 0b1110, 0b1111, 0b10, 0b100, 0b1000, 0b1001, 0b101,
    0b1010, 0b1011,
];

#[test]
fn the_order_does_not_matter(rt: HostRuntime) -> Result<(), Fail> {
    let alloc = rt.alloc();
    let q = three(alloc, 10, -6, 4, -7, 5, 20)?;
    for numbers in [ZERO_FIRST, ZERO_LAST] {
        let events = one_by_one(alloc, &numbers)?;
        for limit in 1..4 {
            match least_of(alloc, &q, limit, &events) {
                Some(played) => match limit {
                    1 => assert_depth(&rt, &played.answer, 0b10),
                    2 => assert_depth(&rt, &played.answer, 0b110),
                    _ => assert_found(&rt, &played.answer, 2, &[1, 1, 0, 1, 2, 0]),
                },
                None => assert!(rt; false),
            }
        }
    }
    Ok(())
}

#[test]
fn signs(rt: HostRuntime) -> Result<(), Fail> {
    let alloc = rt.alloc();
    for numbers in [ZERO_FIRST, ZERO_LAST] {
        let events = one_by_one(alloc, &numbers)?;
        match sign_of(alloc, &two(alloc, 0, 1, 0)?, 3, &events) {
            Some(played) => {
                assert_eq!(rt; played.word, 256);
                assert!(rt; matches!(played.answer, Sign::Copositive));
            }
            None => assert!(rt; false),
        }
        match sign_of(alloc, &two(alloc, 2, -1, 0)?, 3, &events) {
            Some(
                Played {
                    answer: Sign::Low {
                        vector,
                        value,
                        path,
                    },
                    ..
                },
            ) => {
                assert_eq!(rt; value, -2);
                assert_path(&rt, &path, 0b100);
                assert_eq!(rt; vector.as_slice(), [1, 2].as_slice());
            }
            _ => assert!(rt; false),
        }
    }
    Ok(())
}
