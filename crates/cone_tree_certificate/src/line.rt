//! What the words of the other lines stand for.

ghost use Rattle.std.specs.Prelude.{◌≡◌, ◌≤◌, length, take, MatchResult, Ok, Err};
ghost use Rattle.text_lines.specs.Lines.{words};
ghost use Rattle.text_lines.specs.Readings.{Agrees, first_word};
ghost use Rattle.cone_tree_certificate.specs.Sizes.{IsSize};
ghost use Rattle.cone_tree_certificate.specs.Words.{widest, largest_count, largest_coordinate, whole_word, ratio_word, keyed, coordinates_of, term_of, signed_row, value_of, count_of};
ghost use Rattle.cone_tree_certificate.specs.declared.fault.VerdictKind.TheVariants.{ShortLine};

use crate::fault::VerdictKind;
use crate::table::MOST;
use crate::word::{count, ratio, signed, whole};
use fraction128::{Fraction, Term};
use std::alloc::Global;
use symmetric_matrix::IntVector;
use text_lines::words::Words;

/// The largest coordinate.
const LARGEST_COORDINATE: u128 = 4611686018427387904;

/// A coordinate of at most 2^62.
fn coordinate(word: &[u8]) -> Result<u64, VerdictKind>
    ensures { result ≡ whole_word largest_coordinate word.now }
{
    match whole(word, LARGEST_COORDINATE) {
        Ok(number) => Ok(number as u64),
        Err(kind) => Err(kind),
    }
}

/// The coordinates that words write.
#[tactic(auto, using(text_lines::proofs::Fronts::number_steps))]
fn coordinates(words: Words, n: usize) -> Result<[u64; MOST], VerdictKind>
    requires { n ≤ 6 }
    ensures { Agrees (λ vector. take n vector) result (coordinates_of n words.entry) }
{
    let mut words = words;
    let mut vector = [0u64; MOST];
    for place in 0..n {
        let Some(word) = words.next() else {
            return Err(VerdictKind::ShortLine);
        };
        vector[place] = coordinate(word)?;
    }
    match words.next() {
        None => Ok(vector),
        Some(_) => Err(VerdictKind::LongLine),
    }
}

/// The fraction that the next word writes.
fn next_ratio(words: &mut Words) -> Result<Fraction, VerdictKind>
    ensures { MatchResult result (λ x. first_word (ratio_word widest) ShortLine words.old ≡ Ok (x, words.new))
        (λ kind. first_word (ratio_word widest) ShortLine words.old ≡ Err kind) }
{
    match words.next() {
        Some(word) => ratio(word),
        None => Err(VerdictKind::ShortLine),
    }
}

/// The term that a line writes: a weight and n coordinates.
#[tactic(auto, unfolding(crate::specs::Words::term_of))]
pub fn term(alloc: Global, line: &[u8], n: u8) -> Result<Term, VerdictKind>
    requires { IsSize n }
    ensures { result ≡ term_of n (words line.now) }
{
    let mut words = Words::of(line);
    let weight = next_ratio(&mut words)?;
    let vector = coordinates(words, n as usize)?;
    let vector = IntVector::from_slice(alloc, &vector[..n as usize]);
    Ok(Term { weight, vector })
}

/// The entries of a row of W.
#[tactic(auto, using(text_lines::proofs::Fronts::number_steps))]
pub fn row(line: &[u8], n: usize) -> Result<[i128; MOST], VerdictKind>
    requires { n ≤ 6 }
    ensures { Agrees (λ row. take n row) result (signed_row n (words line.now)) }
{
    let mut words = Words::of(line);
    let mut row = [0i128; MOST];
    for column in 0..n {
        let Some(word) = words.next() else {
            return Err(VerdictKind::ShortLine);
        };
        row[column] = signed(word)?;
    }
    match words.next() {
        None => Ok(row),
        Some(_) => Err(VerdictKind::LongLine),
    }
}

/// Takes a keyword from the words.
fn keyword(words: &mut Words, name: &[u8]) -> Result<(), VerdictKind>
    ensures { MatchResult result (λ _. keyed name.now words.old ≡ Ok words.new)
        (λ kind. keyed name.now words.old ≡ Err kind) }
{
    match words.next() {
        None => Err(VerdictKind::ShortLine),
        Some(word) if word == name => Ok(()),
        Some(_) => Err(VerdictKind::BadWord),
    }
}

/// The number of at most 2^64 - 1 that the next word writes.
fn next_count(words: &mut Words) -> Result<u64, VerdictKind>
    ensures { MatchResult result (λ x. first_word (whole_word largest_count) ShortLine words.old ≡ Ok (x, words.new))
        (λ kind. first_word (whole_word largest_count) ShortLine words.old ≡ Err kind) }
{
    match words.next() {
        Some(word) => count(word),
        None => Err(VerdictKind::ShortLine),
    }
}

/// The value of a separation.
#[tactic(auto, unfolding(crate::specs::Words::value_of))]
pub fn value(line: &[u8]) -> Result<Fraction, VerdictKind>
    ensures { result ≡ value_of (words line.now) }
{
    let mut words = Words::of(line);
    keyword(&mut words, b"value")?;
    let value = next_ratio(&mut words)?;
    match words.next() {
        None => Ok(value),
        Some(_) => Err(VerdictKind::LongLine),
    }
}

/// How many lines the tree has.
#[tactic(auto, unfolding(crate::specs::Words::count_of))]
pub fn tree_count(line: &[u8]) -> Result<u64, VerdictKind>
    ensures { result ≡ count_of (words line.now) }
{
    let mut words = Words::of(line);
    keyword(&mut words, b"tree")?;
    let lines = next_count(&mut words)?;
    match words.next() {
        None => Ok(lines),
        Some(_) => Err(VerdictKind::LongLine),
    }
}
