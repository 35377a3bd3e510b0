//! Searches by one to sixteen workers, and gates that hold two of them.

ghost use Rattle.std.specs.Prelude.{◌≤◌, ◌^◌, IsTrue, nat_abs};
ghost use Rattle.symmetric_matrix.specs.Symmetric.{entry};
ghost use Rattle.unimodular_cone.specs.Answer.{BoundFits};
ghost use Rattle.unimodular_cone.specs.Cones.{Fits, unit_vectors};

use cone_pool::{Gate, OpenGate, Pooled, run_pool, run_pool_part};
use search_core::{Fate, Least, Mode, least_diagonal, settle_least};
use std::alloc::{AllocError, Global};
use std::process::Abort;
use std::sync::Wait;
use std::sync::atomic::AtomicU64;
use std::sync::atomic::Ordering::SeqCst;
use std::test::Fail;
use std::thread;
use std::thread::Threads;
use symmetric_matrix::{SymInt, VectorList};
use unimodular_cone::{Path, root};

/// How often a held worker looks again.
const LOOKS: u64 = 1_000_000_000;

/// The turns that two workers have begun, and whether one of them waited too long for the other.
#[derive(Drop)]
struct Begun {
    one: AtomicU64,
    two: AtomicU64,
    late: AtomicU64,
}

impl Begun {
    fn new() -> Begun {
        Begun {
            one: AtomicU64::new(0),
            two: AtomicU64::new(0),
            late: AtomicU64::new(0),
        }
    }

    /// Waits until a worker has begun this turn.
    fn wait(&self, begun: &AtomicU64, turn: u64) {
        for _ in 0..LOOKS {
            if begun.load(SeqCst) >= turn {
                return;
            }
            thread::yield_now();
        }
        self.late.store(1, SeqCst);
    }
}

/// Holds worker 2's first pass until worker 1 has begun its fourth, and worker 1's fourth until worker 2 has begun its
/// second.
#[derive(Drop)]
struct Held {
    begun: Begun,
}

impl Gate for Held {
    fn pass(&self, worker: usize, turn: u64) {
        let begun = &self.begun;
        if worker == 1 {
            begun.one.store(turn, SeqCst);
            if turn == 4 {
                begun.wait(&begun.two, 2);
            }
        } else {
            begun.two.store(turn, SeqCst);
            if turn == 1 {
                begun.wait(&begun.one, 4);
            }
        }
    }
}

/// Each worker's first and second pass ends once the other has begun its first and second.
#[derive(Drop)]
struct Both {
    begun: Begun,
}

impl Gate for Both {
    fn pass(&self, worker: usize, turn: u64) {
        let begun = &self.begun;
        let (mine, other) = if worker == 1 {
            (&begun.one, &begun.two)
        } else {
            (&begun.two, &begun.one)
        };
        mine.store(turn, SeqCst);
        if turn <= 2 {
            begun.wait(other, turn);
        }
    }
}

/// The matrix `a b / b c`.
fn two(alloc: Global, a: i128, b: i128, c: i128) -> Result<SymInt, AllocError>
    requires first { nat_abs a ≤ 2 ^ 126 }
    requires beside { nat_abs b ≤ 2 ^ 126 }
    requires last { nat_abs c ≤ 2 ^ 126 }
{
    Ok(SymInt::from_lower(alloc, 2, &[a, b, c])?)
}

/// The matrix of three rows with this lower triangle.
fn three(
    alloc: Global,
    a: i128,
    b: i128,
    c: i128,
    d: i128,
    e: i128,
    f: i128,
) -> Result<SymInt, AllocError>
    requires first { nat_abs a ≤ 2 ^ 126 }
    requires second { nat_abs b ≤ 2 ^ 126 }
    requires third { nat_abs c ≤ 2 ^ 126 }
    requires fourth { nat_abs d ≤ 2 ^ 126 }
    requires fifth { nat_abs e ≤ 2 ^ 126 }
    requires last { nat_abs f ≤ 2 ^ 126 }
{
    Ok(SymInt::from_lower(alloc, 3, &[a, b, c, d, e, f])?)
}

/// Whether the least diagonal entry is at most 2^63 - 1.
fn bound_fits(q: &SymInt) -> bool
    ensures { IsTrue result → BoundFits Mode.Least q.now.size (entry q.now) }
{
    least_diagonal(q) <= (1 << 63) - 1
}

/// Whether no entry of the root is over its limit.
fn root_fits(q: &SymInt) -> bool
    ensures { IsTrue result → Fits q.now.size (entry q.now) unit_vectors }
{
    match root(q) {
        Ok(_) => true,
        Err(_) => false,
    }
}

/// What the workers judge in a search for the least value, where the matrix is within the limits.
fn searched<R: Threads + Wait + Sync, G: Gate + Sync>(
    rt: &R,
    alloc: Global,
    workers: usize,
    q: &SymInt,
    limit: u8,
    gate: &G,
) -> Result<Option<Pooled>, AllocError>
    requires workers { (1 ≤ workers) × (workers ≤ 16) }
    requires limited { limit ≤ 200 }
{
    if bound_fits(q) && root_fits(q) {
        Ok(Some(run_pool(rt, alloc, workers, q, Mode::Least, limit, gate)?))
    } else {
        Ok(None)
    }
}

/// What the workers keep for an answer of a search for the least value, where the matrix is within the limits.
fn kept_part<R: Threads + Wait + Sync>(
    rt: &R,
    alloc: Global,
    workers: usize,
    q: &SymInt,
    limit: u8,
) -> Result<Option<Pooled>, AllocError>
    requires workers { (1 ≤ workers) × (workers ≤ 16) }
    requires limited { limit ≤ 200 }
{
    if bound_fits(q) && root_fits(q) {
        Ok(Some(run_pool_part(rt, alloc, workers, q, Mode::Least, limit, &OpenGate)?))
    } else {
        Ok(None)
    }
}

/// What the judgements of two workers settle to, where the matrix is within the limits.
fn settled<R: Threads + Wait + Sync>(
    rt: &R,
    alloc: Global,
    q: &SymInt,
    limit: u8,
) -> Result<Option<Least>, AllocError>
    requires { limit ≤ 200 }
{
    if bound_fits(q) && root_fits(q) {
        let pooled = run_pool(rt, alloc, 2, q, Mode::Least, limit, &OpenGate)?;
        Ok(Some(settle_least(alloc, q, limit, &pooled.judged, pooled.final_word)))
    } else {
        Ok(None)
    }
}

/// The final word of a search for a value below 0, where the root is within the limits.
fn sign_word<R: Threads + Wait + Sync>(
    rt: &R,
    alloc: Global,
    workers: usize,
    q: &SymInt,
    limit: u8,
) -> Result<Option<u64>, AllocError>
    requires workers { (1 ≤ workers) × (workers ≤ 16) }
    requires limited { limit ≤ 200 }
{
    if root_fits(q) {
        let pooled = run_pool(rt, alloc, workers, q, Mode::Sign, limit, &OpenGate)?;
        Ok(Some(pooled.final_word))
    } else {
        Ok(None)
    }
}

/// The fate that was judged at a path.
fn fate_at(pooled: &Pooled, path: Path) -> Option<Fate> {
    for j in &pooled.judged {
        if j.path == path {
            return Some(j.fate);
        }
    }
    None
}

fn assert_vector(rt: &impl Abort, vectors: &VectorList, k: usize, coordinates: &[u64]) {
    assert!(rt; k < vectors.len());
    assert_eq!(rt; vectors.at(k).as_slice(), coordinates);
}

#[test]
fn two_inside(rt: HostRuntime) -> Result<(), Fail> {
    let q = two(rt.alloc(), 2, -3, 6)?;
    let gate = Both {
        begun: Begun::new(),
    };
    let Some(pooled) = searched(&rt, rt.alloc(), 2, &q, 2, &gate)? else {
        panic!(rt; "the matrix is within the limits")
    };
    assert_eq!(rt; gate.begun.late.load(SeqCst), 0);
    assert_eq!(rt; pooled.judged.len(), 5);
    assert_eq!(rt; pooled.final_word, 258);
    Ok(())
}

#[test]
fn falling_word(rt: HostRuntime) -> Result<(), Fail> {
    let q = two(rt.alloc(), 17, -8, 4)?;
    let gate = Held {
        begun: Begun::new(),
    };
    let Some(pooled) = searched(&rt, rt.alloc(), 2, &q, 5, &gate)? else {
        panic!(rt; "the matrix is within the limits")
    };
    assert_eq!(rt; gate.begun.late.load(SeqCst), 0);
    assert_eq!(rt;
        fate_at(&pooled, Path::root().child(1)),
        Some(Fate::Closed { word: 257 })
    );
    Ok(())
}

#[test]
fn the_word_falls_for_one_worker_too(rt: HostRuntime) -> Result<(), Fail> {
    let q = two(rt.alloc(), 17, -8, 4)?;
    let Some(pooled) = searched(&rt, rt.alloc(), 1, &q, 5, &OpenGate)? else {
        panic!(rt; "the matrix is within the limits")
    };
    assert_eq!(rt;
        fate_at(&pooled, Path::root().child(1)),
        Some(Fate::Closed { word: 257 })
    );
    Ok(())
}

#[test]
fn the_final_word_is_the_same_for_any_number_of_workers(rt: HostRuntime) -> Result<(), Fail> {
    let falls = two(rt.alloc(), 17, -8, 4)?;
    let low = two(rt.alloc(), 2, -1, 0)?;
    for workers in 1..17 {
        let Some(pooled) = searched(&rt, rt.alloc(), workers, &falls, 5, &OpenGate)? else {
            panic!(rt; "the matrix is within the limits")
        };
        assert_eq!(rt; pooled.final_word, 257);
        assert_eq!(rt; sign_word(&rt, rt.alloc(), workers, &low, 60)?, Some(2));
    }
    Ok(())
}

#[test]
fn two_workers_settle_to_the_minimum(rt: HostRuntime) -> Result<(), Fail> {
    let q = three(rt.alloc(), 10, -6, 4, -7, 5, 20)?;
    let Some(Least::Found { minimum, vectors }) = settled(&rt, rt.alloc(), &q, 3)? else {
        panic!(rt; "there is a minimum")
    };
    assert_eq!(rt; minimum, 2);
    assert_eq!(rt; vectors.len(), 2);
    assert_vector(&rt, &vectors, 0, &[1, 1, 0]);
    assert_vector(&rt, &vectors, 1, &[1, 2, 0]);
    Ok(())
}

#[test]
fn what_no_answer_looks_at_is_left_out(rt: HostRuntime) -> Result<(), Fail> {
    let q = two(rt.alloc(), 17, -8, 4)?;
    for workers in [1, 2, 16] {
        let Some(pooled) = kept_part(&rt, rt.alloc(), workers, &q, 5)? else {
            panic!(rt; "the matrix is within the limits")
        };
        assert_eq!(rt; pooled.final_word, 257);
        // The least value of child 1 is 5, and a vector with the value 4 is known from the start.
        assert_eq!(rt; fate_at(&pooled, Path::root().child(1)), None);
        // Child 0 of child 0 has the one with the value 1.
        assert!(rt; fate_at(&pooled, Path::root().child(0).child(0)).is_some());
    }
    Ok(())
}
