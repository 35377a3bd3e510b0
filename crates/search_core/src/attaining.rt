//! The generators that attain a value.

ghost use Rattle.std.specs.Prelude.{◌≡◌, ◌≤◌, ◌<◌, ◌-◌, ◌^◌, ℕ, pos, take, IfOk, OnOk, slice_index_or};
ghost use Rattle.symmetric_matrix.specs.Symmetric.{entry};
ghost use Rattle.unimodular_cone.specs.Cones.{unit_vectors, Fits};
ghost use Rattle.unimodular_cone.specs.Tree.{IsInTree};
ghost use Rattle.unimodular_cone.specs.Answer.{IsListOf};
ghost use Rattle.unimodular_cone.specs.Shown.{IsConeAt, IsWithinLimits, shown_generators};
ghost use Rattle.search_core.specs.Attaining.{IsKeyOf, AddsAttaining, HasGenerators, AreKeys, IsVectorsOf, ListsGenerators};
ghost use Rattle.search_core.specs.Scans.{AreInTree};
ghost use Rattle.search_core.specs.Way.{AreAtPaths, AddsAttainingAt};

use crate::descent::{fitting_root, step_down};
use crate::fate::Judged;
use crate::key_set::{Key, KeySet};
use crate::way::go_to;
use std::alloc::{AllocError, Global};
use symmetric_matrix::{IntVector, SymInt, VectorList};
use unimodular_cone::{Cone, ConeRead, Path};

/// The key of a generator that counts from 1.
pub(crate) fn key_of<C: ConeRead>(c: &C, k: u8) -> Key
    requires first { 1 ≤ k }
    requires last { k ≤ (C.cone c.now).size }
    ensures fits { IsWithinLimits (C.cone c.now) }
    ensures key { IsKeyOf (C.cone c.now) (k - 1) result }
{
    let n = c.n();
    let mut key = [0; 8];
    for p in 0..n {
        key[usize::from(p)] = c.coordinate(k, p + 1);
    }
    key
}

/// The vector of the first n numbers of a key.
fn vector_of(alloc: Global, n: u8, key: &Key) -> IntVector
    requires some { 1 ≤ n }
    requires few { n ≤ 8 }
    requires small { (p : ℕ) → p < n → slice_index_or key.now p 0 ≤ 2 ^ 62 }
    ensures { result ≡ take n key.now }
{
    IntVector::from_slice(alloc, &key[..usize::from(n)])
}

/// A generator that counts from 1, as a vector.
pub(crate) fn generator<C: ConeRead>(alloc: Global, c: &C, k: u8) -> IntVector
    requires first { 1 ≤ k }
    requires last { k ≤ (C.cone c.now).size }
    ensures { IsListOf (C.cone c.now).size result (shown_generators (C.cone c.now) (k - 1)) }
{
    vector_of(alloc, c.n(), &key_of(c, k))
}

/// Puts the keys of a cone's generators of this value into a set.
pub(crate) fn add_attaining<C: ConeRead>(
    c: &C,
    minimum: u64,
    found: &mut KeySet,
) -> Result<(), AllocError>
    ensures { OnOk result
        (AddsAttaining (C.cone c.now) (C.cone c.now).size (pos minimum) found.old.keys found.new.keys) }
{
    let n = c.n();
    for k in 0..n {
        if c.gram(k + 1, k + 1) == i128::from(minimum) {
            found.insert(&key_of(c, k + 1))?;
        }
    }
    Ok(())
}

/// Puts the keys of the generators of this value of the cone at a path into a set, by the cones on the way to the last path.
fn add_attaining_at(
    way: &mut Vec<Cone>,
    q: &SymInt,
    limit: u8,
    path: &Path,
    minimum: u64,
    found: &mut KeySet,
) -> Result<(), AllocError>
    requires in_tree { IsInTree q.now.size (entry q.now) limit path.now }
    requires fits { Fits q.now.size (entry q.now) unit_vectors }
    requires way { AreAtPaths q.now.size (entry q.now) way.old.items }
    ensures way { OnOk result (AreAtPaths q.now.size (entry q.now) way.new.items) }
    ensures added { OnOk result
        (AddsAttainingAt q.now.size (entry q.now) path.now (pos minimum) found.old.keys found.new.keys) }
{
    go_to(way, q, limit, path)?;
    add_attaining(&way[way.len() - 1], minimum, found)
}

/// The cone at a path of the tree, whose root fits. The tree's depth is `limit`.
pub(crate) fn fitting_cone(q: &SymInt, limit: u8, path: &Path) -> Cone
    requires in_tree { IsInTree q.now.size (entry q.now) limit path.now }
    requires fits { Fits q.now.size (entry q.now) unit_vectors }
    ensures { IsConeAt q.now.size (entry q.now) path.now result }
{
    let mut cone = fitting_root(q);
    for k in 0..path.len() {
        step_down(&mut cone, path.digit(k));
    }
    cone
}

/// The keys of the generators of this value of the judgements whose least value it is.
fn keys_attaining(
    alloc: Global,
    q: &SymInt,
    limit: u8,
    judged: &[Judged],
    minimum: u64,
) -> Result<KeySet, AllocError>
    requires in_tree { AreInTree q.now.size (entry q.now) limit judged.now }
    requires fits { Fits q.now.size (entry q.now) unit_vectors }
    ensures { IfOk result (λ found. HasGenerators q.now.size (entry q.now) judged.now (pos minimum) found.keys) }
{
    let mut found = KeySet::new(alloc);
    let mut way = Vec::new(alloc);
    for j in judged {
        if j.least == i128::from(minimum) {
            add_attaining_at(&mut way, q, limit, &j.path, minimum, &mut found)?;
        }
    }
    Ok(found)
}

/// The vectors of a set of keys, in its order.
pub(crate) fn listed(alloc: Global, n: u8, keys: KeySet) -> Result<VectorList, AllocError>
    requires some { 1 ≤ n }
    requires few { n ≤ 8 }
    requires keys { AreKeys n keys.keys }
    ensures { IfOk result (IsVectorsOf n keys.keys) }
{
    let mut list = VectorList::new(alloc);
    let mut rest = keys.into_set();
    while let Some(key) = rest.pop_first() {
        list.push(&vector_of(alloc, n, &key))?;
    }
    Ok(list)
}

/// The generators of this value of the judgements whose least value it is, in increasing order, each once.
pub(crate) fn attaining(
    alloc: Global,
    q: &SymInt,
    limit: u8,
    judged: &[Judged],
    minimum: u64,
) -> Result<VectorList, AllocError>
    requires in_tree { AreInTree q.now.size (entry q.now) limit judged.now }
    requires fits { Fits q.now.size (entry q.now) unit_vectors }
    ensures { IfOk result (ListsGenerators q.now.size (entry q.now) judged.now (pos minimum)) }
{
    let found = keys_attaining(alloc, q, limit, judged, minimum)?;
    listed(alloc, q.n(), found)
}
