//! How the end of a walk is told: its ending and its text.

ghost use Rattle.std.specs.Prelude.{◌≡◌, ◌≤◌, ◌++◌, ℕ, List, IfOk, OnOk};
ghost use Rattle.symmetric_matrix.specs.Symmetric.{entry};
ghost use Rattle.unimodular_cone.specs.declared.Mode.{Mode};
ghost use Rattle.unimodular_cone.specs.Answer.{IsSearchAnswer, Copositive};
ghost use Rattle.cpfactor_top.specs.Causes.{ending_with, refusal_text};
ghost use Rattle.cpfactor_top.specs.Solving.{ending_of};
ghost use Rattle.cpfactor_top.specs.WalkTexts.{HasTree, AddsSeparation, AddsEnd, IsWalkTold};

use crate::ended::{Cause, Ended, Status};
use crate::refusal::refusal_line;
use cone_tree_certificate::{Verdict, build_tree, write_verdict};
use cpfactor_lines::{push_factorization, trace_lines};
use fraction128::Fraction;
use perfect_walk::{End, Journal, Limits, Walked};
use std::alloc::{AllocError, Global};
use symmetric_matrix::SymInt;

/// Appends the verdict that W separates, with this value and the tree to this depth.
fn push_separation(
    alloc: Global,
    w: SymInt,
    value: Fraction,
    depth: u8,
    text: &mut Vec<u8>,
) -> Result<(), AllocError>
    requires depth { depth ≤ 200 }
    requires few { w.size ≤ 6 }
    requires copositive { IsSearchAnswer Mode.Sign w.size (entry w) depth Copositive }
    ensures { OnOk result (AddsSeparation depth w value text.old.items text.new.items) }
{
    let tree = build_tree(alloc, &w, depth)?;
    write_verdict(&Verdict::Separator { w, value, tree }, text)
}

/// Appends the line of the refusal by a cause, and gives the ending with this journal.
fn push_refusal(
    alloc: Global,
    journal: Journal,
    cause: Cause,
    text: &mut Vec<u8>,
) -> Result<Ended, AllocError>
    ensures ended { IfOk result (λ e. e ≡ ending_with (Some journal) cause) }
    ensures text { OnOk result (text.new.items ≡ text.old.items ++ refusal_text cause) }
{
    let line = refusal_line(alloc, &cause)?;
    text.extend_from_slice(&line)?;
    Ok(Ended::with(Some(journal), cause))
}

/// Appends the text of the end of a walk over matrices of `n` rows, and gives the ending.
///
/// It is refused for want of memory, in the walk or here.
fn push_end(
    alloc: Global,
    n: u8,
    walked: Walked,
    limits: Limits,
    text: &mut Vec<u8>,
) -> Result<Ended, AllocError>
    requires depth { limits.depth ≤ 200 }
    requires few { n ≤ 6 }
    requires tree { HasTree n limits.depth walked.end }
    ensures ended { IfOk result (λ e. e ≡ ending_of limits.pivots walked) }
    ensures text { OnOk result (AddsEnd n limits walked.end text.old.items text.new.items) }
{
    let Walked { end, journal } = walked;
    match end {
        End::Factored { terms } => {
            push_factorization(text, n, &terms)?;
            Ok(Ended::with(Some(journal), Cause::Fine))
        }
        End::Separated { w, value } => {
            push_separation(alloc, w, value, limits.depth, text)?;
            Ok(Ended {
                status: Status::Separated,
                cause: Cause::Fine,
                journal: Some(journal),
            })
        }
        End::Depth { path } => push_refusal(alloc, journal, Cause::Depth { path }, text),
        End::Pivots => push_refusal(
            alloc,
            journal,
            Cause::Pivots {
                used: limits.pivots,
            },
            text,
        ),
        End::Overflow(owed) => push_refusal(alloc, journal, Cause::Overflow(owed), text),
        End::OutOfMemory => Err(AllocError),
    }
}

/// The ending of a walk over matrices of `n` rows and its text, behind the trace of its visits where that is wanted.
///
/// It is refused for want of memory, in the walk or here.
pub fn walk_text(
    alloc: Global,
    n: u8,
    walked: Walked,
    limits: Limits,
    trace: bool,
) -> Result<(Ended, Vec<u8>), AllocError>
    requires depth { limits.depth ≤ 200 }
    requires few { n ≤ 6 }
    requires tree { HasTree n limits.depth walked.end }
    ensures { IfOk result (λ r. IsWalkTold trace limits n walked r.0 r.1.items) }
{
    let mut text = trace_lines(alloc, trace, &walked.journal.visited)?;
    let ended = push_end(alloc, n, walked, limits, &mut text)?;
    Ok((ended, text))
}
