//! The first judgements by place.

ghost use Rattle.std.specs.Prelude.{◌↔◌, IsTrue, pos};
ghost use Rattle.std.specs.Bool.{MatchBool};
ghost use Rattle.search_core.specs.Scans.{IsLowOf, IsOpenEnd, AreInTree, FindsFirst, IsBefore, IsBehind};
ghost use Rattle.search_core.specs.Fair.{IsEndFate};
ghost use Rattle.symmetric_matrix.specs.Symmetric.{entry};
ghost use Rattle.unimodular_cone.specs.Cones.{unit_vectors, Fits};
ghost use Rattle.unimodular_cone.specs.Tree.{IsInTree};

use crate::descent::is_unclosed_down;
use crate::fate::{Fate, Judged};
use symmetric_matrix::SymInt;

/// Whether a judgement comes before the best so far.
pub(crate) fn comes_first(j: &Judged, best: &Option<Judged>) -> bool
    ensures { MatchBool result (IsBefore j.now best.now) (IsBehind j.now best.now) }
{
    match best {
        Some(best) => j.path.by_place(&best.path).is_lt(),
        None => true,
    }
}

/// Whether a judgement is Low, at this depth.
fn is_low_of(j: &Judged, depth: u8) -> bool
    ensures { IsTrue result ↔ IsLowOf depth j.now }
{
    match j.fate {
        Fate::Low { .. } => j.path.len() == depth,
        _ => false,
    }
}

/// The Low judgement of a depth that comes first by place.
pub(crate) fn first_low(judged: &[Judged], depth: u8) -> Option<Judged>
    ensures { FindsFirst (IsLowOf depth) judged.now result }
{
    let mut best: Option<Judged> = None;
    for j in judged {
        if is_low_of(j, depth) && comes_first(j, &best) {
            best = Some(*j);
        }
    }
    best
}

/// Whether a judgement is an end of the tree, at the limit or with a child that does not fit.
fn is_end(j: &Judged) -> bool
    ensures { IsTrue result ↔ IsEndFate j.now.fate }
{
    matches!(j.fate, Fate::AtLimit { .. } | Fate::Wide { .. })
}

/// The first by place of the ends of the tree that are open at a bound.
pub(crate) fn first_open(q: &SymInt, limit: u8, bound: u64, judged: &[Judged]) -> Option<Judged>
    requires in_tree { AreInTree q.now.size (entry q.now) limit judged.now }
    requires fits { Fits q.now.size (entry q.now) unit_vectors }
    ensures { FindsFirst (IsOpenEnd q.now.size (entry q.now) (pos bound)) judged.now result }
{
    let mut best: Option<Judged> = None;
    for j in judged {
        if comes_first(j, &best) && is_open_end(q, limit, bound, j) {
            best = Some(*j);
        }
    }
    best
}

/// Whether a judgement is an end of the tree that is open at a bound.
fn is_open_end(q: &SymInt, limit: u8, bound: u64, j: &Judged) -> bool
    requires in_tree { IsInTree q.now.size (entry q.now) limit j.now.path }
    requires fits { Fits q.now.size (entry q.now) unit_vectors }
    ensures { IsTrue result ↔ IsOpenEnd q.now.size (entry q.now) (pos bound) j.now }
{
    is_end(j) && is_unclosed_down(q, limit, &j.path, i128::from(bound))
}
