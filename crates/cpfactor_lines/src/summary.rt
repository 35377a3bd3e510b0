//! The text of `sample`.
//!
//! A call that is refused for want of memory may have written a part.

ghost use Rattle.std.specs.Prelude.{◌≡◌, ◌++◌, IfOk, OnOk};
ghost use Rattle.std.specs.List.{before_first};
ghost use Rattle.text_lines.specs.Lines.{is_line_feed};
ghost use Rattle.cpfactor_lines.specs.SampleTexts.{diagonal_text, sample_text};

use crate::line::{Word, push_line};
use crate::text::line_feed;
use matrix_text::RatMatrix;
use std::alloc::{AllocError, Global};
use text_lines::writing::push_fraction;

/// A text up to its first line feed.
fn before_line_feed(text: &[u8]) -> &[u8]
    ensures { result.now ≡ before_first is_line_feed text.now }
{
    match line_feed(text) {
        Some(end) => &text[..end],
        None => text,
    }
}

/// Appends the line of a matrix's diagonal.
fn push_diagonal(into: &mut Vec<u8>, a: &RatMatrix) -> Result<(), AllocError>
    ensures { OnOk result (into.new.items ≡ into.old.items ++ diagonal_text a.now) }
{
    into.extend_from_slice(b"diagonal")?;
    for row in 0..a.n() {
        into.push(b' ')?;
        push_fraction(into, a.entry(row + 1, row + 1))?;
    }
    into.push(b'\n')?;
    Ok(())
}

/// The text of `sample n k first`, whose matrix is `a`: it was solved with so many visits, and `answer` is the text of
/// that.
///
/// It is refused for want of memory alone.
pub fn sample_lines(
    alloc: Global,
    n: u8,
    k: u32,
    first: u64,
    a: &RatMatrix,
    visits: usize,
    answer: &[u8],
) -> Result<Vec<u8>, AllocError>
    ensures { IfOk result (λ text. text.items ≡ sample_text n k first a.now visits answer.now) }
{
    let mut text = Vec::new(alloc);
    let numbers = [
        Word::Text(b"sample"),
        Word::Whole(u64::from(n)),
        Word::Whole(u64::from(k)),
        Word::Whole(first),
    ];
    push_line(&mut text, &numbers)?;
    push_diagonal(&mut text, a)?;
    push_line(
        &mut text,
        &[Word::Text(b"visits"), Word::Whole(visits as u64)],
    )?;
    push_line(
        &mut text,
        &[Word::Text(b"verdict"), Word::Text(before_line_feed(answer))],
    )?;
    Ok(text)
}
