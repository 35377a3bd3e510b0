//! What a fair list of judgements settles to.

ghost use Rattle.std.specs.Prelude.{◌≤◌, ◌<◌};
ghost use Rattle.symmetric_matrix.specs.Symmetric.{entry};
ghost use Rattle.unimodular_cone.specs.Cones.{unit_vectors, Fits};
ghost use Rattle.unimodular_cone.specs.Answer.{BoundFits};
ghost use Rattle.search_core.specs.Fair.{IsFair, IsFairPart, IsFairEnds, IsEndFate};
ghost use Rattle.search_core.specs.Answers.{IsLeastAnswer, IsSignAnswer};
ghost use Rattle.search_core.specs.Ends.{IsEndOf, NamesEnd};
ghost use Rattle.search_core.specs.Noting.{IsFairNoted};

use crate::answer::{Least, Sign};
use crate::attaining::{attaining, fitting_cone, generator, listed};
use crate::fate::{Fate, Judged};
use crate::key_set::KeySet;
use crate::scan::{first_low, first_open};
use crate::words::bound_under;
use std::alloc::Global;
use symmetric_matrix::{IntVector, SymInt};
use unimodular_cone::{ConeRead, Mode, Path, WideAt};

/// Where a search ends: at the first low cone, at the first open one, or with no open cone.
#[derive(Drop)]
pub(crate) enum End {
    Low {
        vector: IntVector,
        value: i128,
        path: Path,
    },
    Depth {
        path: Path,
    },
    Wide {
        at: WideAt,
    },
    Closed,
}

/// The end at the first low cone, of this depth.
fn low_end(alloc: Global, mode: Mode, q: &SymInt, limit: u8, judged: &[Judged], depth: u8) -> End
    requires ends { IsFairEnds mode q.now.size (entry q.now) limit judged.now depth }
    requires limited { limit ≤ 200 }
    requires fits { Fits q.now.size (entry q.now) unit_vectors }
    requires bound_fits { BoundFits mode q.now.size (entry q.now) }
    ensures { IsEndOf mode q.now.size (entry q.now) limit judged.now depth result }
{
    let _n = q.n();
    let Some(first) = first_low(judged, depth) else {
        unreachable!()
    };
    let Fate::Low { which } = first.fate else {
        unreachable!()
    };
    let cone = fitting_cone(q, limit, &first.path);
    End::Low {
        vector: generator(alloc, &cone, which),
        value: cone.gram(which, which),
        path: first.path,
    }
}

/// The end that a judgement at the limit, or with a child that does not fit, names.
fn open_end(first: Judged) -> End
    requires { IsEndFate first.fate }
    ensures { NamesEnd first result }
{
    match first.fate {
        Fate::AtLimit { .. } => End::Depth { path: first.path },
        Fate::Wide { at, .. } => End::Wide { at },
        _ => unreachable!(),
    }
}

/// The end of a search from some judgements of a fair list, with the final word.
fn end_of(
    alloc: Global,
    mode: Mode,
    q: &SymInt,
    limit: u8,
    judged: &[Judged],
    final_word: u64,
) -> End
    requires ends { IsFairEnds mode q.now.size (entry q.now) limit judged.now final_word }
    requires limited { limit ≤ 200 }
    requires fits { Fits q.now.size (entry q.now) unit_vectors }
    requires bound_fits { BoundFits mode q.now.size (entry q.now) }
    ensures { IsEndOf mode q.now.size (entry q.now) limit judged.now final_word result }
{
    if final_word < 256 {
        return low_end(alloc, mode, q, limit, judged, final_word as u8);
    }
    let _n = q.n();
    match first_open(q, limit, bound_under(mode, final_word), judged) {
        Some(first) => open_end(first),
        None => End::Closed,
    }
}

/// The answer of the search for the least value, from some judgements of a fair list: it looks at those that tell alone.
/// They may stand in any order.
pub fn settle_least_part(
    alloc: Global,
    q: &SymInt,
    limit: u8,
    judged: &[Judged],
    final_word: u64,
) -> Least
    requires part { IsFairPart Mode.Least q.now.size (entry q.now) limit judged.now final_word }
    requires limited { limit ≤ 200 }
    requires fits { Fits q.now.size (entry q.now) unit_vectors }
    requires bound_fits { BoundFits Mode.Least q.now.size (entry q.now) }
    ensures { IsLeastAnswer q.now.size (entry q.now) limit result }
{
    match end_of(alloc, Mode::Least, q, limit, judged, final_word) {
        End::Low {
            vector,
            value,
            path,
        } => Least::Low {
            vector,
            value,
            path,
        },
        End::Depth { path } => Least::Depth { path },
        End::Wide { at } => Least::Wide { at },
        End::Closed => found(alloc, q, limit, judged, final_word),
    }
}

/// The answer of the search for the least value where no cone is open.
fn found(alloc: Global, q: &SymInt, limit: u8, judged: &[Judged], final_word: u64) -> Least
    requires part { IsFairPart Mode.Least q.now.size (entry q.now) limit judged.now final_word }
    requires limited { limit ≤ 200 }
    requires fits { Fits q.now.size (entry q.now) unit_vectors }
    requires bound_fits { BoundFits Mode.Least q.now.size (entry q.now) }
    requires closed { IsEndOf Mode.Least q.now.size (entry q.now) limit judged.now final_word End.Closed }
    ensures { IsLeastAnswer q.now.size (entry q.now) limit result }
{
    let _n = q.n();
    let minimum = bound_under(Mode::Least, final_word);
    match attaining(alloc, q, limit, judged, minimum) {
        Ok(vectors) => Least::Found {
            minimum: i128::from(minimum),
            vectors,
        },
        Err(_) => Least::OutOfMemory,
    }
}

/// The answer of the search for the least value, from the low judgements and the ends of a fair list, in any order, and the keys of the
/// generators that attain the final bound.
pub fn settle_least_noted(
    alloc: Global,
    q: &SymInt,
    limit: u8,
    judged: &[Judged],
    noted: KeySet,
    final_word: u64,
) -> Least
    requires part { IsFairNoted Mode.Least q.now.size (entry q.now) limit judged.now noted.keys final_word }
    requires limited { limit ≤ 200 }
    requires fits { Fits q.now.size (entry q.now) unit_vectors }
    requires bound_fits { BoundFits Mode.Least q.now.size (entry q.now) }
    ensures { IsLeastAnswer q.now.size (entry q.now) limit result }
{
    let n = q.n();
    match end_of(alloc, Mode::Least, q, limit, judged, final_word) {
        End::Low {
            vector,
            value,
            path,
        } => Least::Low {
            vector,
            value,
            path,
        },
        End::Depth { path } => Least::Depth { path },
        End::Wide { at } => Least::Wide { at },
        End::Closed => match listed(alloc, n, noted) {
            Ok(vectors) => Least::Found {
                minimum: i128::from(bound_under(Mode::Least, final_word)),
                vectors,
            },
            Err(_) => Least::OutOfMemory,
        },
    }
}

/// The answer of the search for a value below 0, from some judgements of a fair list: it looks at those that tell alone.
/// They may stand in any order.
pub fn settle_sign_part(
    alloc: Global,
    q: &SymInt,
    limit: u8,
    judged: &[Judged],
    final_word: u64,
) -> Sign
    requires part { IsFairPart Mode.Sign q.now.size (entry q.now) limit judged.now final_word }
    requires limited { limit ≤ 200 }
    requires fits { Fits q.now.size (entry q.now) unit_vectors }
    ensures { IsSignAnswer q.now.size (entry q.now) limit result }
{
    let _n = q.n();
    match end_of(alloc, Mode::Sign, q, limit, judged, final_word) {
        End::Low {
            vector,
            value,
            path,
        } => Sign::Low {
            vector,
            value,
            path,
        },
        End::Depth { path } => Sign::Depth { path },
        End::Wide { at } => Sign::Wide { at },
        End::Closed => Sign::Copositive,
    }
}

/// The answer of the search for the least value, from a fair list of judgements, in any order, and its final word.
pub fn settle_least(
    alloc: Global,
    q: &SymInt,
    limit: u8,
    judged: &[Judged],
    final_word: u64,
) -> Least
    requires fair { IsFair Mode.Least q.now.size (entry q.now) limit judged.now final_word }
    requires limited { limit ≤ 200 }
    requires fits { Fits q.now.size (entry q.now) unit_vectors }
    requires bound_fits { BoundFits Mode.Least q.now.size (entry q.now) }
    ensures { IsLeastAnswer q.now.size (entry q.now) limit result }
{
    settle_least_part(alloc, q, limit, judged, final_word)
}

/// The answer of the search for a value below 0, from a fair list of judgements, in any order, and its final word.
pub fn settle_sign(alloc: Global, q: &SymInt, limit: u8, judged: &[Judged], final_word: u64) -> Sign
    requires fair { IsFair Mode.Sign q.now.size (entry q.now) limit judged.now final_word }
    requires limited { limit ≤ 200 }
    requires fits { Fits q.now.size (entry q.now) unit_vectors }
    ensures { IsSignAnswer q.now.size (entry q.now) limit result }
{
    settle_sign_part(alloc, q, limit, judged, final_word)
}
