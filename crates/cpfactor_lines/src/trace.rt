//! The trace of a walk: comment lines before the text of the answer.
//!
//! A call that is refused for want of memory may have written a part.

ghost use Rattle.std.specs.Prelude.{◌≡◌, ◌<◌, [], ◌∷◌, ◌++◌, map, OnOk, IfOk};
ghost use Rattle.std.specs.List.{range_with_len};
ghost use Rattle.std.specs.Fmt.{signed_decimal};
ghost use Rattle.symmetric_matrix.specs.Symmetric.{entry};
ghost use Rattle.cpfactor_lines.specs.Lines.{word_text};
ghost use Rattle.cpfactor_lines.specs.Traces.{comment, matrix_comments, vector_comments, visit_text, visits_text, trace_text};

use crate::line::{Word, push_line, push_line_of};
use perfect_walk::{Visit, Visits};
use std::alloc::{AllocError, Global};
use symmetric_matrix::{SymInt, VectorList};
use text_lines::writing::push_number;

/// Appends the comment of a row, which counts from 0.
fn push_row(into: &mut Vec<u8>, matrix: &SymInt, row: u8) -> Result<(), AllocError>
    requires { row < matrix.now.size }
    ensures { OnOk result (into.new.items ≡ into.old.items
        ++ comment (map (λ j. signed_decimal (entry matrix.now row j)) (range_with_len 0 matrix.now.size))) }
{
    into.push(b'#')?;
    for column in 0..matrix.n() {
        into.push(b' ')?;
        push_number(into, matrix.get(row + 1, column + 1))?;
    }
    into.push(b'\n')?;
    Ok(())
}

/// Appends the comments of a matrix.
fn push_matrix(into: &mut Vec<u8>, matrix: &SymInt) -> Result<(), AllocError>
    ensures { OnOk result (into.new.items ≡ into.old.items ++ matrix_comments matrix.now) }
{
    for row in 0..matrix.n() {
        push_row(into, matrix, row)?;
    }
    Ok(())
}

/// Appends the comments of vectors.
fn push_vectors(into: &mut Vec<u8>, vectors: &VectorList) -> Result<(), AllocError>
    ensures { OnOk result (into.new.items ≡ into.old.items ++ vector_comments vectors.now) }
{
    for k in 0..vectors.len() {
        push_line_of(into, &[Word::Text(b"#")], vectors.at(k).as_slice())?;
    }
    Ok(())
}

/// Appends the comment of a name and a number.
fn push_comment<'a>(into: &mut Vec<u8>, name: &'a [u8], number: Word<'a>) -> Result<(), AllocError>
    ensures { OnOk result (into.new.items ≡ into.old.items ++ comment (name.now ∷ word_text number.entry ∷ [])) }
{
    push_line(into, &[Word::Text(b"#"), Word::Text(name), number])
}

/// Appends the text of the visit of this number.
fn push_visit(into: &mut Vec<u8>, number: usize, visit: &Visit) -> Result<(), AllocError>
    ensures { OnOk result (into.new.items ≡ into.old.items ++ visit_text number visit.now) }
{
    push_comment(into, b"visit", Word::Whole(number as u64))?;
    push_matrix(into, &visit.matrix)?;
    push_comment(into, b"minimum", Word::Signed(visit.mu))?;
    push_comment(into, b"vectors", Word::Whole(visit.vectors.len() as u64))?;
    push_vectors(into, &visit.vectors)
}

/// Appends the texts of visits, which are numbered from 0.
fn push_visits(into: &mut Vec<u8>, visits: &Visits) -> Result<(), AllocError>
    ensures { OnOk result (into.new.items ≡ into.old.items ++ visits_text 0 visits.now) }
{
    for k in 0..visits.len() {
        push_visit(into, k, visits.at(k))?;
    }
    Ok(())
}

/// The trace of these visits where it is wanted, and else an empty text. It is refused for want of memory alone.
pub fn trace_lines(alloc: Global, traced: bool, visits: &Visits) -> Result<Vec<u8>, AllocError>
    ensures { IfOk result (λ text. text.items ≡ trace_text traced visits.now) }
{
    let mut text = Vec::new(alloc);
    if traced {
        push_visits(&mut text, visits)?;
    }
    Ok(text)
}
