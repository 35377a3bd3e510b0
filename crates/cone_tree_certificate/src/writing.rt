//! Writing the text of a verdict. The private calls may leave a part of it after an error.

ghost use Rattle.std.specs.Prelude.{◌≡◌, ◌<◌, ◌++◌, [], ◌∷◌, map, pos, codes, OnOk, OnErr};
ghost use Rattle.std.specs.List.{All, range_with_len};
ghost use Rattle.std.specs.Fmt.{decimal, signed_decimal};
ghost use Rattle.symmetric_matrix.specs.Symmetric.{FitsInt, entry};
ghost use Rattle.text_lines.specs.Spelling.{Extends, spaced_word, line_of_words, quotient_word};
ghost use Rattle.cone_tree_certificate.specs.VerdictText.{term_words, tree_words, written_terms, written_rows, written_tree, verdict_text, IsNarrowTerm, IsWritable, IsWhole};

use crate::term_lines::TermLines;
use crate::tree::{ConeTree, TreeLine};
use crate::verdict::Verdict;
use fraction128::{Fraction, Term};
use std::alloc::AllocError;
use symmetric_matrix::SymInt;
use text_lines::writing::{push_number, push_quotient};

/// Appends the line of a term.
fn push_term(into: &mut Vec<u8>, term: &Term) -> Result<(), AllocError>
    ensures ok { OnOk result (into.new.items ≡ into.old.items ++ line_of_words (term_words term.now)) }
    ensures kept { Extends into.old.items into.new.items }
    ensures narrow { OnOk result (IsNarrowTerm term.now) }
{
    push_quotient(into, term.weight)?;
    let coordinates = term.vector.as_slice();
    for coordinate in coordinates {
        into.push(b' ')?;
        push_number(into, i128::from(*coordinate))?;
    }
    into.push(b'\n')?;
    Ok(())
}

/// Appends the lines of terms.
fn push_terms(into: &mut Vec<u8>, terms: &TermLines) -> Result<(), AllocError>
    ensures ok { OnOk result (into.new.items ≡ into.old.items ++ written_terms terms.now) }
    ensures kept { Extends into.old.items into.new.items }
    ensures narrow { OnOk result (All IsNarrowTerm terms.now) }
{
    for index in 0..terms.len() {
        push_term(into, terms.at(index))?;
    }
    Ok(())
}

/// Appends the entry of a column, with a space before it in every column but the first.
fn push_column(into: &mut Vec<u8>, column: u8, number: i128) -> Result<(), AllocError>
    ensures ok { OnOk result (into.new.items ≡ into.old.items ++ spaced_word column (signed_decimal number)) }
    ensures kept { Extends into.old.items into.new.items }
{
    if column == 0 {
        return push_number(into, number);
    }
    into.push(b' ')?;
    push_number(into, number)
}

/// Appends the line of a row of W, which counts from 0.
fn push_row(into: &mut Vec<u8>, w: &SymInt, row: u8) -> Result<(), AllocError>
    requires { row < w.now.size }
    ensures ok { OnOk result (into.new.items
        ≡ into.old.items
        ++ line_of_words (map (λ j. signed_decimal (entry w.now row j)) (range_with_len 0 w.now.size))) }
    ensures kept { Extends into.old.items into.new.items }
{
    for column in 0..w.n() {
        push_column(into, column, w.get(row + 1, column + 1))?;
    }
    into.push(b'\n')?;
    Ok(())
}

/// Appends the lines of W.
fn push_rows(into: &mut Vec<u8>, w: &SymInt) -> Result<(), AllocError>
    ensures ok { OnOk result (into.new.items ≡ into.old.items ++ written_rows w.now) }
    ensures kept { Extends into.old.items into.new.items }
{
    for row in 0..w.n() {
        push_row(into, w, row)?;
    }
    Ok(())
}

/// Appends the line of a node.
fn push_tree_line(into: &mut Vec<u8>, line: TreeLine) -> Result<(), AllocError>
    ensures ok { OnOk result (into.new.items ≡ into.old.items ++ line_of_words (tree_words line)) }
    ensures kept { Extends into.old.items into.new.items }
{
    match line {
        TreeLine::Leaf => into.extend_from_slice(b"leaf\n"),
        TreeLine::Split { i, j } => push_split(into, i, j),
    }
}

fn push_split(into: &mut Vec<u8>, i: u8, j: u8) -> Result<(), AllocError>
    ensures ok { OnOk result (into.new.items ≡ into.old.items ++ line_of_words (tree_words (TreeLine.Split i j))) }
    ensures kept { Extends into.old.items into.new.items }
{
    into.extend_from_slice(b"split ")?;
    push_number(into, i128::from(i))?;
    into.push(b' ')?;
    push_number(into, i128::from(j))?;
    into.push(b'\n')?;
    Ok(())
}

/// Appends the lines of a tree.
fn push_tree(into: &mut Vec<u8>, tree: &ConeTree) -> Result<(), AllocError>
    ensures ok { OnOk result (into.new.items ≡ into.old.items ++ written_tree tree.now) }
    ensures kept { Extends into.old.items into.new.items }
{
    for index in 0..tree.len() {
        push_tree_line(into, *tree.at(index))?;
    }
    Ok(())
}

/// Appends the line of a word and a count.
fn push_heading(into: &mut Vec<u8>, name: &[u8], count: usize) -> Result<(), AllocError>
    ensures ok { OnOk result (into.new.items ≡ into.old.items ++ line_of_words (name.now ∷ decimal count ∷ [])) }
    ensures kept { Extends into.old.items into.new.items }
{
    into.extend_from_slice(name)?;
    into.push(b' ')?;
    push_number(into, count as i128)?;
    into.push(b'\n')?;
    Ok(())
}

/// Appends the header of a factorization.
fn push_factored(into: &mut Vec<u8>, n: u8, count: usize) -> Result<(), AllocError>
    ensures ok { OnOk result (into.new.items
        ≡ into.old.items ++ line_of_words (codes "factored" ∷ decimal n ∷ decimal count ∷ [])) }
    ensures kept { Extends into.old.items into.new.items }
{
    into.extend_from_slice(b"factored ")?;
    push_number(into, i128::from(n))?;
    into.push(b' ')?;
    push_number(into, count as i128)?;
    into.push(b'\n')?;
    Ok(())
}

/// Appends the lines of a factorization.
fn push_factors(into: &mut Vec<u8>, n: u8, terms: &TermLines) -> Result<(), AllocError>
    ensures ok { OnOk result (into.new.items ≡ into.old.items ++ verdict_text (Verdict.Factors n terms.now)) }
    ensures kept { Extends into.old.items into.new.items }
    ensures whole { OnOk result (IsWhole (Verdict.Factors n terms.now)) }
{
    push_factored(into, n, terms.len())?;
    push_terms(into, terms)
}

/// Appends the line of the value.
fn push_value(into: &mut Vec<u8>, value: Fraction) -> Result<(), AllocError>
    ensures ok { OnOk result (into.new.items
        ≡ into.old.items ++ line_of_words (codes "value" ∷ quotient_word value ∷ [])) }
    ensures kept { Extends into.old.items into.new.items }
    ensures num { OnOk result (FitsInt value.num) }
    ensures den { OnOk result (FitsInt (pos value.den)) }
{
    into.extend_from_slice(b"value ")?;
    push_quotient(into, value)?;
    into.push(b'\n')?;
    Ok(())
}

/// Appends the lines of a separation.
fn push_separator(
    into: &mut Vec<u8>,
    w: &SymInt,
    value: Fraction,
    tree: &ConeTree,
) -> Result<(), AllocError>
    ensures ok { OnOk result (into.new.items
        ≡ into.old.items ++ verdict_text (Verdict.Separator w.now value tree.now)) }
    ensures kept { Extends into.old.items into.new.items }
    ensures whole { OnOk result (IsWhole (Verdict.Separator w.now value tree.now)) }
{
    push_heading(into, b"separated", w.n() as usize)?;
    push_rows(into, w)?;
    push_value(into, value)?;
    push_heading(into, b"tree", tree.len())?;
    push_tree(into, tree)
}

fn push_verdict(into: &mut Vec<u8>, v: &Verdict) -> Result<(), AllocError>
    ensures ok { OnOk result (into.new.items ≡ into.old.items ++ verdict_text v.now) }
    ensures kept { Extends into.old.items into.new.items }
    ensures whole { OnOk result (IsWhole v.now) }
{
    match v {
        Verdict::Factors { n, terms } => push_factors(into, *n, terms),
        Verdict::Separator { w, value, tree } => push_separator(into, w, *value, tree),
    }
}

/// Appends the one written form of a verdict: every fraction as `p/q` in lowest terms, also where q is 1; the terms in the order
/// of the list; one space between words, and a line feed at the end of each line.
///
/// n is at most 6, every vector has n coordinates, and each split is of 1 ≤ i < j ≤ n, n being W's number of rows. It is refused
/// for want of memory alone, and `into` is then as before. A verdict that was written is whole (its numbers are those that
/// a text may have), so its text is read back.
pub fn write_verdict(v: &Verdict, into: &mut Vec<u8>) -> Result<(), AllocError>
    requires { IsWritable v.now }
    ensures ok { OnOk result (into.new.items ≡ into.old.items ++ verdict_text v.now) }
    ensures whole { OnOk result (IsWhole v.now) }
    ensures err { OnErr result (into.new.items ≡ into.old.items) }
{
    let before = into.len();
    let written = push_verdict(into, v);
    if written.is_err() {
        into.truncate(before);
    }
    written
}
