//! Lines of an answer: words with one space between them, and a line feed.

ghost use Rattle.std.specs.Prelude.{◌≡◌, ◌++◌, ◌<◌, OnOk, IfOk, map};
ghost use Rattle.std.specs.List.{join_with_byte};
ghost use Rattle.std.specs.Fmt.{decimal};
ghost use Rattle.text_lines.specs.Spelling.{spaced_word};
ghost use Rattle.cpfactor_lines.specs.Lines.{line, word_text, words_text, path_word, digits_text};

use itoa::Buffer;
use std::alloc::{AllocError, Global};
use unimodular_cone::Path;

/// A word of a line.
#[derive(Clone, Copy)]
pub enum Word<'a> {
    /// The bytes as they are.
    Text(&'a [u8]),
    /// A whole number, in decimal digits.
    Whole(u64),
    /// A number with its sign, in decimal digits.
    Signed(i128),
    /// `num/den`, both in decimal digits.
    Fraction { num: i128, den: i128 },
    /// The digits of a path, or `-` for the path of the root.
    PathDigits(&'a Path),
}

/// Appends a word.
fn push_word(into: &mut Vec<u8>, word: Word) -> Result<(), AllocError>
    ensures { OnOk result (into.new.items ≡ into.old.items ++ word_text word.entry) }
{
    let mut digits = Buffer::new();
    match word {
        Word::Text(bytes) => into.extend_from_slice(bytes),
        Word::Whole(number) => into.extend_from_slice(digits.format(number).as_bytes()),
        Word::Signed(number) => into.extend_from_slice(digits.format(number).as_bytes()),
        Word::Fraction { num, den } => push_fraction(into, num, den),
        Word::PathDigits(path) => push_path(into, path),
    }
}

/// Appends `num/den`.
fn push_fraction(into: &mut Vec<u8>, num: i128, den: i128) -> Result<(), AllocError>
    ensures { OnOk result (into.new.items ≡ into.old.items ++ word_text (Word.Fraction num den)) }
{
    let mut digits = Buffer::new();
    into.extend_from_slice(digits.format(num).as_bytes())?;
    into.push(b'/')?;
    into.extend_from_slice(digits.format(den).as_bytes())
}

/// Appends the digits of a path, or `-` for the path of the root.
fn push_path(into: &mut Vec<u8>, path: &Path) -> Result<(), AllocError>
    ensures { OnOk result (into.new.items ≡ into.old.items ++ path_word path.now) }
{
    if path.len() == 0 {
        into.push(b'-')?;
        return Ok(());
    }
    push_digits(into, path)
}

/// Appends the digits of a path.
fn push_digits(into: &mut Vec<u8>, path: &Path) -> Result<(), AllocError>
    ensures { OnOk result (into.new.items ≡ into.old.items ++ digits_text path.now) }
{
    for k in 0..path.len() {
        into.push(b'0' + path.digit(k))?;
    }
    Ok(())
}

/// Appends the word of a column, with a space before it in every column but the first.
#[tactic(auto, using(matrix_text::proofs::Written::first_column, matrix_text::proofs::Written::later_column))]
fn push_column(into: &mut Vec<u8>, column: usize, word: Word) -> Result<(), AllocError>
    ensures { OnOk result (into.new.items ≡ into.old.items ++ spaced_word column (word_text word.entry)) }
{
    if column == 0 {
        return push_word(into, word);
    }
    into.push(b' ')?;
    push_word(into, word)
}

/// Appends words with a space between them.
#[tactic(auto, using(crate::proofs::LineLemmas::word_steps))]
fn push_words(into: &mut Vec<u8>, words: &[Word]) -> Result<(), AllocError>
    ensures { OnOk result (into.new.items ≡ into.old.items ++ join_with_byte 32 (words_text words.now)) }
{
    for (column, word) in words.iter().enumerate() {
        push_column(into, column, *word)?;
    }
    Ok(())
}

/// Appends the line of these words.
pub fn push_line(into: &mut Vec<u8>, words: &[Word]) -> Result<(), AllocError>
    ensures { OnOk result (into.new.items ≡ into.old.items ++ line (words_text words.now)) }
{
    push_words(into, words)?;
    into.push(b'\n')?;
    Ok(())
}

/// Appends the line of these words and then these numbers.
pub fn push_line_of(into: &mut Vec<u8>, words: &[Word], numbers: &[u64]) -> Result<(), AllocError>
    ensures { OnOk result (into.new.items ≡ into.old.items ++ line (words_text words.now ++ map decimal numbers.now)) }
{
    push_words(into, words)?;
    for (k, number) in numbers.iter().enumerate() {
        push_column(into, words.len() + k, Word::Whole(*number))?;
    }
    into.push(b'\n')?;
    Ok(())
}

/// The line of these words. It is refused for want of memory alone.
pub fn words_line(alloc: Global, words: &[Word]) -> Result<Vec<u8>, AllocError>
    ensures { IfOk result (λ text. text.items ≡ line (words_text words.now)) }
{
    let mut text = Vec::new(alloc);
    push_line(&mut text, words)?;
    Ok(text)
}

/// The line of these words and then these numbers. It is refused for want of memory alone.
pub fn words_line_of(alloc: Global, words: &[Word], numbers: &[u64]) -> Result<Vec<u8>, AllocError>
    ensures { IfOk result (λ text. text.items ≡ line (words_text words.now ++ map decimal numbers.now)) }
{
    let mut text = Vec::new(alloc);
    push_line_of(&mut text, words, numbers)?;
    Ok(text)
}
