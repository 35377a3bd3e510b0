//! The walk, visit by visit.

ghost use Rattle.std.specs.Prelude.{◌≡◌, ◌+◌, ◌<◌, ◌≤◌, ◌≤ℤ◌, ◌<ℤ◌, ◌++◌, pos, None, Some, length, map};
ghost use Rattle.std.specs.Prelude.{IfOk, IfErr, OnOk};
ghost use Rattle.std.specs.List.{All};
ghost use Rattle.exact_forms.specs.Forms.{inner};
ghost use Rattle.exact_forms.specs.Vectors.{IsNonzero};
ghost use Rattle.exact_forms.specs.Copositive.{IsExtremeRay};
ghost use Rattle.symmetric_matrix.specs.Symmetric.{FitsInt, entry};
ghost use Rattle.symmetric_matrix.specs.Owed.{first_owed};
ghost use Rattle.fraction128.specs.Terms.{IsAfter};
ghost use Rattle.exact_linear.specs.Separation.{IsSeparating};
ghost use Rattle.extreme_ray.specs.Rays.{ray_is_owed, ray_ops, vector_size, ray as the_ray, IsRayBasis};
ghost use Rattle.contiguous.specs.Tightenings.{line_along, value_at, CanBeMadeAgain};
ghost use Rattle.perfect_walk.specs.declared.journal.Step.TheVariants.{Exchange as exchange, Tighten as tighten};
ghost use Rattle.perfect_walk.specs.Operations.{first_owed_of, of_place, of_neighbour};
ghost use Rattle.perfect_walk.specs.States.{product_at, inner_at};
ghost use Rattle.perfect_walk.specs.Chains.{at_visit};
ghost use Rattle.perfect_walk.specs.Ends.{terms_of, IsWalkedTo, IsWalked};
ghost use Rattle.perfect_walk.specs.Theorems.{IsOnlyWalk};
ghost use Rattle.perfect_walk.specs.Parts.{task, IsHeld, IsNextHeld, FromLow, FromRay, FromOutside, FromVisit};
ghost use Rattle.perfect_walk.specs.Parts.{IsEndedAfter, IsEndedAlong, IsEndedByWidth, IsTurnedTo, walked_of};
ghost use Rattle.perfect_walk.specs.Parts.{IsSeparatedBy, IsFactoredBy, kept_term, IsPairedEnd, IsRayEnd, IsRayMeant};
ghost use Rattle.perfect_walk.specs.Parts.{IsReached, AreLess};

use crate::journal::{End, Journal, Limits, Owed, Steps, Visit, Visits, Walked, enter};
use crate::start::start;
use contiguous::{Neighbour, NeighbourOp, Tightens, last_candidate, next_perfect};
use exact_lp::{Exchanges, PlaceOp, Placed, Weights, place};
use extreme_ray::{RayFail, ray_of};
use fraction128::{Fraction, Term, Terms};
use search_core::{Searcher, Sign};
use std::alloc::{AllocError, Global};
use symmetric_matrix::{IntVector, SymInt, VectorList};

/// The steps that were made, and the matrix that was searched last.
#[derive(Drop)]
pub struct Trail {
    pub steps: Steps,
    pub searched: Option<SymInt>,
}

/// How a visit is left: before a Move to another, or by an end of the walk.
#[derive(Drop)]
pub enum Turned {
    Moved(Visit),
    Ended(End),
}

// ---- ends

/// The end that a matrix separates, with the value over d.
fn separated(w: &SymInt, value: i128, d: i128) -> End
    requires positive { pos 1 ≤ℤ d }
    requires narrow { FitsInt value }
    ensures { IsSeparatedBy w.now value d result }
{
    match w.copy() {
        Ok(w) => End::Separated {
            w,
            value: Fraction::new(value, d),
        },
        Err(_) => End::OutOfMemory,
    }
}

/// An operation of the linear program, at its place in the walk.
fn owed_of_place(op: PlaceOp) -> Owed
    ensures { result ≡ of_place op }
{
    match op {
        PlaceOp::Tableau(op) => Owed::Tableau { op },
        PlaceOp::Weight { vector, op } => Owed::Weight { vector, op },
    }
}

/// What does not fit on the way to the next perfect matrix, at its place in the walk.
fn owed_of_neighbour(op: NeighbourOp) -> Owed
    ensures { result ≡ of_neighbour op }
{
    match op {
        NeighbourOp::Form { vector, op } => Owed::Form { vector, op },
        NeighbourOp::Scale { op } => Owed::Scale { op },
        NeighbourOp::Gram { at } => Owed::Gram { at },
        NeighbourOp::Bound { diagonal } => Owed::Bound { diagonal },
    }
}

/// The ray of the linear program's answer, or the end of the walk.
fn ray_or_end(
    alloc: Global,
    vectors: &VectorList,
    zeros: &[usize],
    leaving: usize,
) -> Result<SymInt, End>
    requires { IsRayBasis (vector_size vectors.now leaving) vectors.now zeros.now leaving }
    ensures value { IfOk result (λ r. r ≡ the_ray vectors.now zeros.now leaving) }
    ensures owes { IfOk result (λ _. first_owed ray_is_owed (ray_ops vectors.now zeros.now leaving) ≡ None) }
    ensures meaning { IfOk result (λ r. IsRayMeant vectors.now zeros.now leaving r) }
    ensures ended { IfErr result (λ e. IsRayEnd vectors.now zeros.now leaving e) }
{
    match ray_of(alloc, vectors, zeros, leaving) {
        Ok(ray) => Ok(ray),
        Err(RayFail::Entry(op)) => Err(End::Overflow(Owed::RayEntry { op })),
        Err(RayFail::Clear(op)) => Err(End::Overflow(Owed::RayClear { op })),
        Err(RayFail::OutOfMemory) => Err(End::OutOfMemory),
    }
}

/// Appends the term of a vector with a weight, where that is positive.
fn push_positive(terms: &mut Terms, weight: Fraction, vector: &IntVector) -> Result<(), AllocError>
    requires { IsAfter terms.old vector.now }
    ensures { OnOk result (terms.new ≡ terms.old ++ kept_term weight vector.now) }
{
    if weight.num() > 0 {
        terms.push(Term {
            weight,
            vector: vector.copy(),
        })?;
    }
    Ok(())
}

/// The vectors with positive weights.
fn positive(alloc: Global, vectors: &VectorList, weights: &Weights) -> Result<Terms, AllocError>
    requires { length weights.now ≡ length vectors.now }
    ensures { IfOk result (λ terms. terms ≡ terms_of vectors.now weights.now) }
{
    let mut terms = Terms::new(alloc);
    for k in 0..vectors.len() {
        push_positive(&mut terms, *weights.at(k), vectors.at(k))?;
    }
    Ok(terms)
}

/// The end with the positive weights, or want of memory.
fn factored(alloc: Global, vectors: &VectorList, weights: &Weights) -> End
    requires { length weights.now ≡ length vectors.now }
    ensures { IsFactoredBy vectors.now weights.now result }
{
    match positive(alloc, vectors, weights) {
        Ok(terms) => End::Factored { terms },
        Err(_) => End::OutOfMemory,
    }
}

/// Appends exchanges, and ends the walk.
fn end_after_exchanges(trail: &mut Trail, steps: &Exchanges, end: End) -> Turned
    ensures { IsEndedAfter trail.old trail.new (map exchange steps.now) trail.old.searched end result }
{
    match trail.steps.append_exchanges(steps) {
        Ok(()) => Turned::Ended(end),
        Err(_) => Turned::Ended(End::OutOfMemory),
    }
}

/// Appends tightenings after which a matrix was searched, and ends the walk.
fn end_after_tightens(trail: &mut Trail, steps: &Tightens, searched: SymInt, end: End) -> Turned
    ensures { IsEndedAfter trail.old trail.new (map tighten steps.now) (Some searched) end result }
{
    match trail.steps.append_tightens(steps) {
        Ok(()) => {
            trail.searched = Some(searched);
            Turned::Ended(end)
        }
        Err(_) => Turned::Ended(End::OutOfMemory),
    }
}

// ---- parts

/// How many steps are left.
fn steps_left(limits: Limits, trail: &Trail) -> u32
    requires { length trail.now.steps ≤ limits.pivots }
    ensures { length trail.now.steps + result ≡ limits.pivots }
{
    limits.pivots - trail.steps.len() as u32
}

/// From a low vector of the ray on: tightens until the minimum is at the level.
fn tighten_along<S: Searcher>(
    alloc: Global,
    searcher: &mut S,
    s: &SymInt,
    limits: Limits,
    now: &Visit,
    ray: SymInt,
    below: &IntVector,
    trail: &mut Trail,
) -> Turned
    requires limited { limits.depth ≤ 200 }
    requires room { length trail.old.steps ≤ limits.pivots }
    requires held { IsHeld s.now.size now.now }
    requires sizes { ray.size ≡ s.now.size }
    requires extreme { IsExtremeRay s.now.size (entry ray) now.now.vectors }
    requires separates { inner s.now.size (entry ray) (entry s.now) <ℤ pos 0 }
    requires length { length below.now ≡ s.now.size }
    requires nonzero { IsNonzero s.now.size below.now }
    requires below { value_at ray below.now <ℤ pos 0 }
    ensures part { FromLow limits s.now now.now ray below.now trail.old trail.new result }
    ensures next { IsNextHeld s.now now.now result }
{
    let _n = s.n();
    let budget = steps_left(limits, trail);
    match next_perfect(
        alloc,
        searcher,
        &now.matrix,
        now.mu,
        &now.vectors,
        &ray,
        below,
        limits.depth,
        budget,
    ) {
        Neighbour::Found {
            perfect,
            mu,
            vectors,
            steps,
        } => turn_to(
            trail,
            limits,
            &steps,
            Visit {
                matrix: perfect,
                mu,
                vectors,
            },
        ),
        Neighbour::Depth {
            candidate,
            path,
            steps,
        } => end_after_tightens(trail, &steps, candidate, End::Depth { path }),
        Neighbour::Wide {
            op,
            candidate,
            steps,
        } => end_by_width(alloc, now, ray, op, candidate, &steps, trail),
        Neighbour::Pivots { steps } => {
            end_before_tightening(alloc, now, ray, &steps, End::Pivots, trail)
        }
        Neighbour::OutOfMemory => Turned::Ended(End::OutOfMemory),
    }
}

/// Appends tightenings before one that is refused, and ends the walk. The matrix that was searched last is the
/// candidate of the last of them, which is made again, and the ray where there is none.
fn end_before_tightening(
    alloc: Global,
    now: &Visit,
    ray: SymInt,
    steps: &Tightens,
    end: End,
    trail: &mut Trail,
) -> Turned
    requires sizes { ray.size ≡ now.now.matrix.size }
    requires positive { pos 1 ≤ℤ now.now.mu }
    requires again { CanBeMadeAgain (line_along now.now.matrix now.now.mu ray) steps.now }
    ensures { IsEndedAlong trail.old trail.new now.now ray steps.now end result }
{
    match last_candidate(alloc, &now.matrix, now.mu, &ray, steps) {
        Ok(Some(candidate)) => end_after_tightens(trail, steps, candidate, end),
        Ok(None) => end_after_tightens(trail, steps, ray, end),
        Err(_) => Turned::Ended(End::OutOfMemory),
    }
}

/// Appends the tightenings after which something does not fit, and ends the walk.
fn end_by_width(
    alloc: Global,
    now: &Visit,
    ray: SymInt,
    op: NeighbourOp,
    candidate: Option<SymInt>,
    steps: &Tightens,
    trail: &mut Trail,
) -> Turned
    requires sizes { ray.size ≡ now.now.matrix.size }
    requires positive { pos 1 ≤ℤ now.now.mu }
    requires again { CanBeMadeAgain (line_along now.now.matrix now.now.mu ray) steps.now }
    ensures { IsEndedByWidth trail.old trail.new now.now ray op candidate steps.now result }
{
    let end = End::Overflow(owed_of_neighbour(op));
    match candidate {
        Some(candidate) => end_after_tightens(trail, steps, candidate, end),
        None => end_before_tightening(alloc, now, ray, steps, end, trail),
    }
}

/// Appends the tightenings that lead to a visit. The Move to it is refused where the journal has as many steps as the
/// limit.
fn turn_to(trail: &mut Trail, limits: Limits, steps: &Tightens, next: Visit) -> Turned
    ensures { IsTurnedTo trail.old trail.new limits.pivots (map tighten steps.now) next result }
{
    let Ok(searched) = next.matrix.copy() else {
        return Turned::Ended(End::OutOfMemory);
    };
    if trail.steps.append_tightens(steps).is_err() {
        return Turned::Ended(End::OutOfMemory);
    }
    trail.searched = Some(searched);
    if trail.steps.len() == limits.pivots as usize {
        return Turned::Ended(End::Pivots);
    }
    Turned::Moved(next)
}

/// The end that a copositive ray separates, once its inner product with S is made.
fn separated_by_ray(ray: &SymInt, s: &SymInt, d: i128) -> End
    requires positive { pos 1 ≤ℤ d }
    requires sizes { ray.now.size ≡ s.now.size }
    ensures { IsPairedEnd ray.now s.now d result }
{
    match ray.inner(s) {
        Ok(value) => separated(ray, value, d),
        Err(op) => End::Overflow(Owed::Inner { op }),
    }
}

/// From the ray on: its search.
fn search_ray<S: Searcher>(
    alloc: Global,
    searcher: &mut S,
    s: &SymInt,
    d: i128,
    limits: Limits,
    now: &Visit,
    ray: SymInt,
    trail: &mut Trail,
) -> Turned
    requires limited { limits.depth ≤ 200 }
    requires positive { pos 1 ≤ℤ d }
    requires room { length trail.old.steps ≤ limits.pivots }
    requires held { IsHeld s.now.size now.now }
    requires sizes { ray.size ≡ s.now.size }
    requires extreme { IsExtremeRay s.now.size (entry ray) now.now.vectors }
    requires separates { inner s.now.size (entry ray) (entry s.now) <ℤ pos 0 }
    ensures part { FromRay limits s.now d now.now ray trail.old trail.new result }
    ensures next { IsNextHeld s.now now.now result }
{
    match searcher.sign(&ray, limits.depth) {
        Sign::Copositive => {
            let end = separated_by_ray(&ray, s, d);
            trail.searched = Some(ray);
            Turned::Ended(end)
        }
        Sign::Low { vector, .. } => {
            tighten_along(alloc, searcher, s, limits, now, ray, &vector, trail)
        }
        Sign::Depth { path } => {
            trail.searched = Some(ray);
            Turned::Ended(End::Depth { path })
        }
        Sign::Wide { at } => {
            trail.searched = Some(ray);
            Turned::Ended(End::Overflow(Owed::Gram { at }))
        }
        Sign::OutOfMemory => Turned::Ended(End::OutOfMemory),
    }
}

/// From the answer Outside of the linear program on.
fn turn_outside<S: Searcher>(
    alloc: Global,
    searcher: &mut S,
    s: &SymInt,
    d: i128,
    limits: Limits,
    now: &Visit,
    zeros: &[usize],
    leaving: usize,
    trail: &mut Trail,
) -> Turned
    requires limited { limits.depth ≤ 200 }
    requires positive { pos 1 ≤ℤ d }
    requires room { length trail.old.steps ≤ limits.pivots }
    requires held { IsHeld s.now.size now.now }
    requires separating { IsSeparating s.now.size now.now.vectors s.now zeros.now leaving }
    ensures part { FromOutside limits s.now d now.now zeros.now leaving trail.old trail.new result }
    ensures next { IsNextHeld s.now now.now result }
{
    match ray_or_end(alloc, &now.vectors, zeros, leaving) {
        Ok(ray) => search_ray(alloc, searcher, s, d, limits, now, ray, trail),
        Err(end) => Turned::Ended(end),
    }
}

/// From a visit whose product with S is not below 0 on: the linear program.
fn place_at<S: Searcher>(
    alloc: Global,
    searcher: &mut S,
    s: &SymInt,
    d: i128,
    limits: Limits,
    now: &Visit,
    trail: &mut Trail,
) -> Turned
    requires limited { limits.depth ≤ 200 }
    requires positive { pos 1 ≤ℤ d }
    requires room { length trail.old.steps ≤ limits.pivots }
    requires held { IsHeld s.now.size now.now }
    requires met { pos 0 ≤ℤ product_at (task s.now d limits.depth) (at_visit now.now trail.old.searched) }
    requires owes { first_owed_of (inner_at now.now.matrix s.now) ≡ None }
    ensures part { FromVisit limits s.now d now.now trail.old trail.new result }
    ensures next { IsNextHeld s.now now.now result }
{
    let _n = s.n();
    let budget = steps_left(limits, trail);
    match place(alloc, &now.vectors, s, d, budget) {
        Placed::Inside { weights, steps } => {
            end_after_exchanges(trail, &steps, factored(alloc, &now.vectors, &weights))
        }
        Placed::Outside {
            zeros,
            leaving,
            steps,
        } => match trail.steps.append_exchanges(&steps) {
            Ok(()) => turn_outside(
                alloc,
                searcher,
                s,
                d,
                limits,
                now,
                zeros.as_slice(),
                leaving,
                trail,
            ),
            Err(_) => Turned::Ended(End::OutOfMemory),
        },
        Placed::Pivots { steps } => end_after_exchanges(trail, &steps, End::Pivots),
        Placed::Wide { op, steps } => {
            end_after_exchanges(trail, &steps, End::Overflow(owed_of_place(op)))
        }
        Placed::OutOfMemory => Turned::Ended(End::OutOfMemory),
    }
}

/// One visit: from its matrix on to the next visit, or to the end of the walk.
fn visit<S: Searcher>(
    alloc: Global,
    searcher: &mut S,
    s: &SymInt,
    d: i128,
    limits: Limits,
    now: &Visit,
    trail: &mut Trail,
) -> Turned
    requires limited { limits.depth ≤ 200 }
    requires positive { pos 1 ≤ℤ d }
    requires room { length trail.old.steps ≤ limits.pivots }
    requires held { IsHeld s.now.size now.now }
    ensures part { FromVisit limits s.now d now.now trail.old trail.new result }
    ensures next { IsNextHeld s.now now.now result }
{
    match now.matrix.inner(s) {
        Ok(value) => {
            if value < 0 {
                Turned::Ended(separated(&now.matrix, value, d))
            } else {
                place_at(alloc, searcher, s, d, limits, now, trail)
            }
        }
        Err(op) => Turned::Ended(End::Overflow(Owed::Inner { op })),
    }
}

// ---- the walk

/// What the walk returns.
fn walked(end: End, visited: Visits, trail: Trail) -> Walked
    ensures { result ≡ walked_of end visited trail }
{
    Walked {
        end,
        journal: Journal {
            visited,
            steps: trail.steps,
            searched: trail.searched,
        },
    }
}

/// From the first visit on, visit after visit.
fn walk_on<S: Searcher>(
    alloc: Global,
    searcher: &mut S,
    s: &SymInt,
    d: i128,
    limits: Limits,
    first: Visits,
    start: Trail,
) -> Walked
    requires limited { limits.depth ≤ 200 }
    requires positive { pos 1 ≤ℤ d }
    requires reached { IsReached (task s.now d limits.depth) limits.pivots first start }
    ensures answer { IsWalkedTo (task s.now d limits.depth) limits.pivots result }
    ensures held { All (IsHeld s.now.size) result.journal.visited }
    ensures less { AreLess s.now result.journal.visited }
{
    let mut visited = first;
    let mut trail = start;
    loop {
        let last = visited.len() - 1;
        match visit(alloc, searcher, s, d, limits, visited.at(last), &mut trail) {
            Turned::Moved(next) => {
                if enter(&mut visited, &mut trail.steps, next).is_err() {
                    return walked(End::OutOfMemory, visited, trail);
                }
            }
            Turned::Ended(end) => return walked(end, visited, trail),
        }
    }
}

/// Walks along perfect matrices until S/d is factored or separated, or a refusal comes.
///
/// `s` is S, `d` is at least 1, and `limits.depth`, the depth of each search, is at most 200.
///
/// The journal is a chain: its visits are the start and the targets of its Moves, each step is what comes next after
/// those before it, and no operation that is made before a step stands is owed. The end is what comes next after the
/// last step: `Factored` with the positive weights, `Separated` with the matrix or the ray, `Depth` or an `Overflow` by
/// `Gram` or `Bound` by the search of `searched`, each where no operation that is due is owed. `Pivots` comes exactly
/// after as many steps as the limit, where a step comes next and no operation up to its refusal is owed. Every other
/// `Overflow` has the first operation due after the last step that is owed. Want of memory may come at any time; the
/// journal is then that of the walk so far, and has no visit where memory was wanting before the first one. No end is
/// promised but by the limits. Where a searcher may wait, so may this call.
///
/// At each visit the minimum is the copositive minimum of the matrix, which is in primitive form, the vectors are all
/// its minimal vectors, and these are perfect. ⟨P,S⟩ over the minimum falls strictly from visit to visit.
///
/// The walk follows in outline the simplex algorithm of Dutour Sikirić, Schürmann and Vallentin for rational
/// cp-factorization. The choice of the ray and the way to the next matrix are this project's own.
pub fn walk<S: Searcher>(
    alloc: Global,
    searcher: &mut S,
    s: &SymInt,
    d: i128,
    limits: Limits,
) -> Walked
    requires limited { limits.depth ≤ 200 }
    requires positive { pos 1 ≤ℤ d }
    ensures answer { IsWalked (task s.now d limits.depth) limits.pivots result }
    // Whatever walk fits is the one that is given, want of memory aside.
    ensures due { IsOnlyWalk (task s.now d limits.depth) limits.pivots result }
    ensures visits { All (IsHeld s.now.size) result.journal.visited }
    ensures falls { AreLess s.now result.journal.visited }
{
    let trail = Trail {
        steps: Steps::new(alloc),
        searched: None,
    };
    let mut visited = Visits::new(alloc);
    let Ok(first) = start(alloc, s.n()) else {
        return walked(End::OutOfMemory, visited, trail);
    };
    if visited.push(first).is_err() {
        return walked(End::OutOfMemory, visited, trail);
    }
    walk_on(alloc, searcher, s, d, limits, visited, trail)
}
