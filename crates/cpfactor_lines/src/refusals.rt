//! The lines of refusals. Each is refused for want of memory alone.

ghost use Rattle.std.specs.Prelude.{◌≡◌, IfOk};
ghost use Rattle.cpfactor_lines.specs.Texts.{usage_text, fault_text, depth_text, pivots_text, overflow_text, wide_text, entry_text, owed_text};

use crate::line::{Word, words_line};
use crate::names::{fault_name, operation_name};
use matrix_text::TextFault;
use perfect_walk::Owed;
use std::alloc::{AllocError, Global};
use symmetric_matrix::IntOp;
use unimodular_cone::{Path, WideAt, WideEntry};

/// That the word at a position of the command line can't be read.
pub fn usage_line(alloc: Global, position: u32) -> Result<Vec<u8>, AllocError>
    ensures { IfOk result (λ text. text.items ≡ usage_text position) }
{
    words_line(
        alloc,
        &[
            Word::Text(b"refused"),
            Word::Text(b"usage"),
            Word::Whole(u64::from(position)),
        ],
    )
}

/// That a matrix text has this first fault.
pub fn fault_line(alloc: Global, fault: &TextFault) -> Result<Vec<u8>, AllocError>
    ensures { IfOk result (λ text. text.items ≡ fault_text fault.now) }
{
    words_line(
        alloc,
        &[
            Word::Text(b"refused"),
            Word::Text(b"text"),
            Word::Text(fault_name(fault.kind)),
            Word::Whole(u64::from(fault.line)),
        ],
    )
}

/// That the cone of a path is left open at the depth of the search.
pub fn depth_line(alloc: Global, path: &Path) -> Result<Vec<u8>, AllocError>
    ensures { IfOk result (λ text. text.items ≡ depth_text path.now) }
{
    words_line(
        alloc,
        &[
            Word::Text(b"refused"),
            Word::Text(b"depth"),
            Word::PathDigits(path),
        ],
    )
}

/// That the walk would need more steps than this limit.
pub fn pivots_line(alloc: Global, limit: u32) -> Result<Vec<u8>, AllocError>
    ensures { IfOk result (λ text. text.items ≡ pivots_text limit) }
{
    words_line(
        alloc,
        &[
            Word::Text(b"refused"),
            Word::Text(b"pivots"),
            Word::Whole(u64::from(limit)),
        ],
    )
}

/// That something doesn't fit.
pub fn owed_line(alloc: Global, owed: &Owed) -> Result<Vec<u8>, AllocError>
    ensures { IfOk result (λ text. text.items ≡ owed_text owed.now) }
{
    match owed {
        Owed::Clear { op, .. } => operation_line(alloc, b"Clear", op),
        Owed::Inner { op } => operation_line(alloc, b"Inner", op),
        Owed::Tableau { op: entry } => operation_line(alloc, b"Tableau", &entry.op),
        Owed::RayEntry { op: entry } => operation_line(alloc, b"Ray", &entry.op),
        Owed::RayClear { op } => operation_line(alloc, b"Ray", op),
        Owed::Form { op, .. } => operation_line(alloc, b"Form", op),
        Owed::Scale { op } => operation_line(alloc, b"Scale", op),
        Owed::Gram { at } => entry_line(alloc, at),
        Owed::Bound { diagonal } => words_line(
            alloc,
            &[
                Word::Text(b"refused"),
                Word::Text(b"overflow"),
                Word::Text(b"Bound"),
                Word::Signed(*diagonal),
            ],
        ),
        Owed::Weight { op, .. } => operation_line(alloc, b"Weight", op),
    }
}

/// That the result of an operation at a place doesn't fit.
pub fn operation_line(alloc: Global, place: &[u8], op: &IntOp) -> Result<Vec<u8>, AllocError>
    ensures { IfOk result (λ text. text.items ≡ overflow_text place.now op.now) }
{
    words_line(
        alloc,
        &[
            Word::Text(b"refused"),
            Word::Text(b"overflow"),
            Word::Text(place),
            Word::Text(operation_name(op.kind)),
            Word::Signed(op.left),
            Word::Signed(op.right),
        ],
    )
}

/// That an entry of a cone is over its limit.
fn entry_line(alloc: Global, at: &WideAt) -> Result<Vec<u8>, AllocError>
    ensures { IfOk result (λ text. text.items ≡ wide_text at.now.path at.now.entry) }
{
    match at.entry {
        WideEntry::Coordinate { generator, place } => place_line(
            alloc,
            &at.path,
            b"coordinate",
            generator,
            place,
        ),
        WideEntry::Gram { row, column } => place_line(alloc, &at.path, b"gram", row, column),
    }
}

/// That the entry of a cone with this kind and these two numbers is over its limit.
fn place_line<'a>(
    alloc: Global,
    path: &'a Path,
    kind: &'a [u8],
    first: u8,
    second: u8,
) -> Result<Vec<u8>, AllocError>
    ensures { IfOk result (λ text. text.items ≡ entry_text path.now kind.now first second) }
{
    words_line(
        alloc,
        &[
            Word::Text(b"refused"),
            Word::Text(b"overflow"),
            Word::Text(b"Gram"),
            Word::PathDigits(path),
            Word::Text(kind),
            Word::Whole(u64::from(first)),
            Word::Whole(u64::from(second)),
        ],
    )
}
