//! The words of a line.

ghost use Rattle.std.specs.Prelude.{◌≡◌, List, [], ◌∷◌, ℕ, MatchOption, position, not};
ghost use Rattle.text_lines.specs.Lines.{is_blank, words};

use std::marker::Model;

/// The words of a line, one after the other from the left: the longest runs of bytes other than space, tab and carriage
/// return. Contracts see the words that are left.
#[derive(Drop)]
pub struct Words<'a> {
    rest: &'a [u8],
}

impl<'a> Model for Words<'a> {
    ghost Value = { List (List ℕ) };

    ghost view = { λ w. words w.rest.now };
}

impl<'a> Words<'a> {
    /// The words of a line.
    pub fn of(line: &'a [u8]) -> Self
        ensures { result ≡ words line.entry.now }
    {
        Words { rest: line }
    }

    /// The next word, or `None` where there is none.
    pub fn next(&mut self) -> Option<&'a [u8]>
        ensures { MatchOption result ((self.old ≡ []) × (self.new ≡ [])) (λ word. self.old ≡ word.now ∷ self.new) }
    {
        let (word, rest) = first_word(self.rest)?;
        self.rest = rest;
        Some(word)
    }
}

fn is_blank_byte(b: u8) -> bool
    ensures { result ≡ is_blank b }
{
    b == b' ' || b == b'\t' || b == b'\r'
}

fn word_start(bytes: &[u8]) -> Option<usize>
    ensures { result ≡ position (λ b. not (is_blank b)) bytes.now }
{
    bytes.iter().position(|b| !is_blank_byte(*b))
}

fn word_end(bytes: &[u8]) -> Option<usize>
    ensures { result ≡ position is_blank bytes.now }
{
    bytes.iter().position(|b| is_blank_byte(*b))
}

/// The first word, and what follows it.
#[tactic(auto, using(crate::proofs::Runs::no_word, crate::proofs::Runs::first_word_ends, crate::proofs::Runs::last_word))]
fn first_word(line: &[u8]) -> Option<(&[u8], &[u8])>
    ensures { MatchOption result (words line.now ≡ []) (λ x. words line.now ≡ x.0.now ∷ words x.1.now) }
{
    let start = word_start(line)?;
    let (_, word) = line.split_at(start);
    match word_end(word) {
        Some(end) => Some(word.split_at(end)),
        None => Some((word, &[])),
    }
}
