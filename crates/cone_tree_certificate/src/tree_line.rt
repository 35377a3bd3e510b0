//! What a line of a tree stands for.

ghost use Rattle.std.specs.Prelude.{◌≡◌, MatchResult, Ok, Err};
ghost use Rattle.text_lines.specs.Lines.{words};
ghost use Rattle.text_lines.specs.Readings.{ended, first_word};
ghost use Rattle.cone_tree_certificate.specs.Words.{largest_generator, whole_word, split_of, split_at_pair, tree_line_of};
ghost use Rattle.cone_tree_certificate.specs.declared.fault.VerdictKind.TheVariants.{ShortLine, LongLine};

use crate::fault::VerdictKind;
use crate::tree::TreeLine;
use crate::word::whole;
use text_lines::words::Words;

/// The largest number that a split line may name.
const LARGEST_GENERATOR: u128 = 4294967295;

/// The number of at most 2^32 - 1 that the next word writes.
fn next_generator(words: &mut Words) -> Result<u32, VerdictKind>
    ensures { MatchResult result
        (λ x. first_word (whole_word largest_generator) ShortLine words.old ≡ Ok (x, words.new))
        (λ kind. first_word (whole_word largest_generator) ShortLine words.old ≡ Err kind) }
{
    match words.next() {
        Some(word) => generator(word),
        None => Err(VerdictKind::ShortLine),
    }
}

fn generator(word: &[u8]) -> Result<u32, VerdictKind>
    ensures { result ≡ whole_word largest_generator word.now }
{
    match whole(word, LARGEST_GENERATOR) {
        Ok(number) => Ok(number as u32),
        Err(kind) => Err(kind),
    }
}

/// The split of the generators i and j of n.
#[tactic(auto, unfolding(crate::specs::Words::split_at_pair))]
fn split_at(n: u8, i: u32, j: u32) -> Result<TreeLine, VerdictKind>
    ensures { result ≡ split_at_pair n i j }
{
    if 1 <= i && i < j && j <= u32::from(n) {
        Ok(TreeLine::Split {
            i: i as u8,
            j: j as u8,
        })
    } else {
        Err(VerdictKind::BadSplit)
    }
}

/// The split that two words write.
#[tactic(auto, unfolding(crate::specs::Words::split_of))]
fn split(words: Words, n: u8) -> Result<TreeLine, VerdictKind>
    ensures { result ≡ split_of n words.entry }
{
    let mut words = words;
    let i = next_generator(&mut words)?;
    let j = next_generator(&mut words)?;
    match words.next() {
        None => split_at(n, i, j),
        Some(_) => Err(VerdictKind::LongLine),
    }
}

/// The leaf, where no word is left.
fn leaf(words: Words) -> Result<TreeLine, VerdictKind>
    ensures { result ≡ ended LongLine words.entry TreeLine.Leaf }
{
    let mut words = words;
    match words.next() {
        None => Ok(TreeLine::Leaf),
        Some(_more) => Err(VerdictKind::LongLine),
    }
}

/// The node that a line writes: `leaf`, or `split i j`.
#[tactic(auto, unfolding(crate::specs::Words::tree_line_of))]
pub fn tree_line(line: &[u8], n: u8) -> Result<TreeLine, VerdictKind>
    ensures { result ≡ tree_line_of n (words line.now) }
{
    let mut words = Words::of(line);
    let Some(word) = words.next() else {
        return Err(VerdictKind::ShortLine);
    };
    if word == b"leaf".as_slice() {
        return leaf(words);
    }
    if word == b"split".as_slice() {
        return split(words, n);
    }
    Err(VerdictKind::BadWord)
}
