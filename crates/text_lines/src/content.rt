//! The lines of a text that are not skipped.

ghost use Rattle.std.specs.Prelude.{◌≡◌, ◌+◌, ◌<◌, ◌^◌, [], ◌∷◌, length, MatchOption, MatchResult, position};
ghost use Rattle.text_lines.specs.Lines.{is_line_feed, words, lines, are_skipped, content_from, content_lines, end_line, Content};
ghost use Rattle.text_lines.specs.Content.{line_of};
ghost use Rattle.text_lines.specs.Readings.{is_ascii};

use crate::words::Words;
use std::marker::Model;

/// A content line: one that has a word, and whose first word does not begin with `#`.
#[derive(Clone, Copy)]
pub struct TextLine<'a> {
    /// Its number among all lines, from 1.
    pub number: u32,
    /// Its bytes, without the line feed.
    pub bytes: &'a [u8],
}

/// The content lines of a text, one after the other from the left, and its end line.
///
/// Contracts see the content lines that are left, and the number of the end line: the number of lines plus one. After a
/// last line feed there is no further line.
#[derive(Drop)]
pub struct ContentLines<'a> {
    rest: &'a [u8],
    passed: u32,
}

impl<'a> Model for ContentLines<'a> {
    ghost Value = { Content };

    ghost view = { λ t. record {
      lines = content_from (t.passed + 1) (lines t.rest.now);
      end = t.passed + length (lines t.rest.now) + 1;
    } };

    ghost invariant = { λ t. t.passed + length t.rest.now + 1 < 2 ^ 32 };
}

impl<'a> ContentLines<'a> {
    /// The content lines of a text of less than 2^32 - 1 bytes.
    pub fn of(text: &'a [u8]) -> Self
        requires { length text.now + 1 < 2 ^ 32 }
        ensures { result ≡ record { lines = content_lines text.entry.now; end = end_line text.entry.now } }
    {
        ContentLines {
            rest: text,
            passed: 0,
        }
    }

    /// The next content line, or the end line's number where there is none.
    #[tactic(auto, using(crate::proofs::LineLemmas::content_steps))]
    pub fn next(&mut self) -> Result<TextLine<'a>, u32>
        ensures line { MatchResult result (λ line. self.old.lines ≡ line_of line ∷ self.new.lines)
            (λ end. (self.old.lines ≡ []) × (end ≡ self.old.end)) }
        ensures end { self.new.end ≡ self.old.end }
    {
        while let Some((line, rest)) = first_line(self.rest) {
            self.rest = rest;
            self.passed += 1;
            if !is_skipped(line) {
                return Ok(TextLine {
                    number: self.passed,
                    bytes: line,
                });
            }
        }
        Err(self.passed + 1)
    }

    /// How many bytes are left, the skipped lines and the line feeds among them: more than there are content lines left.
    pub fn bytes_left(&self) -> usize
        ensures { result < 2 ^ 32 }
    {
        self.rest.len()
    }
}

/// Whether each byte of a line is below 128.
pub fn is_ascii_line(line: &[u8]) -> bool
    ensures { result ≡ is_ascii line.now }
{
    line.iter().all(|b| *b < 128)
}

fn is_skipped(line: &[u8]) -> bool
    ensures { result ≡ are_skipped (words line.now) }
{
    match Words::of(line).next() {
        None => true,
        Some([b'#', ..]) => true,
        Some(_) => false,
    }
}

fn line_end(text: &[u8]) -> Option<usize>
    ensures { result ≡ position is_line_feed text.now }
{
    text.iter().position(|b| *b == b'\n')
}

/// The first line, and what follows it.
#[tactic(auto, using(crate::proofs::LineLemmas::no_line, crate::proofs::LineLemmas::first_line_ends, crate::proofs::LineLemmas::last_line))]
fn first_line(text: &[u8]) -> Option<(&[u8], &[u8])>
    ensures lines { MatchOption result (lines text.now ≡ []) (λ x. lines text.now ≡ x.0.now ∷ lines x.1.now) }
    ensures shorter { MatchOption result (length text.now ≡ 0) (λ x. length x.1.now < length text.now) }
{
    if text.is_empty() {
        return None;
    }
    match line_end(text) {
        Some(end) => Some((&text[..end], &text[end + 1..])),
        None => Some((text, &[])),
    }
}
