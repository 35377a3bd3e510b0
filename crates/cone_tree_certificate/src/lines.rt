//! The lines of a verdict's text, one after the other: what each stands for, or its fault.

ghost use Rattle.std.specs.Prelude.{◌≡◌, ◌≤◌, ◌∷◌, [], take, if◌then◌else◌, MatchResult, IfOk, Result, Err};
ghost use Rattle.text_lines.specs.Content.{line_of};
ghost use Rattle.text_lines.specs.Readings.{at_line, is_ascii, first_line, many};
ghost use Rattle.cone_tree_certificate.specs.Sizes.{IsSize, IsSized};
ghost use Rattle.cone_tree_certificate.specs.Words.{verdict_header, term_of, value_of, count_of, tree_line_of};
ghost use Rattle.cone_tree_certificate.specs.ProofText.{verdict_fault, missing_line, verdict_line, numbered_row, no_more_lines};
ghost use Rattle.cone_tree_certificate.specs.Rows.{seen_row, seen_rows};
ghost use Rattle.cone_tree_certificate.specs.Reading.{ReadsTo, RefusedWith};
ghost use Rattle.cone_tree_certificate.specs.declared.fault.VerdictFault.{VerdictFault};
ghost use Rattle.cone_tree_certificate.specs.declared.fault.VerdictKind.TheVariants.{NotAscii, NoHeader, ExtraLine};
ghost use Rattle.cone_tree_certificate.specs.declared.fault.VerdictFail.TheVariants.{Fault};
ghost use Rattle.cone_tree_certificate.specs.declared.verdict.Verdict.{Verdict};

use crate::fault::{VerdictFail, VerdictFault, VerdictKind};
use crate::header::{Header, header_in};
use crate::line::{row, term, tree_count, value};
use crate::table::{MOST, SignedRow};
use crate::term_lines::TermLines;
use crate::tree::{ConeTree, TreeLine};
use crate::tree_line::tree_line;
use fraction128::{Fraction, Term};
use std::alloc::Global;
use text_lines::content::{ContentLines, TextLine, is_ascii_line};

/// The bytes of the shortest line of a tree, `leaf` and its line feed.
const SHORTEST: u64 = 5;

/// A fault of a line.
fn fault(kind: VerdictKind, line: u32) -> VerdictFail
    ensures { result ≡ Fault (verdict_fault kind line) }
{
    VerdictFail::Fault(VerdictFault { kind, line })
}

/// The next content line, where the lines want one more.
fn next_line<'a>(
    lines: &mut ContentLines<'a>,
    missing: VerdictKind,
) -> Result<TextLine<'a>, VerdictFail>
    ensures line { MatchResult result (λ line. lines.old.lines ≡ line_of line ∷ lines.new.lines)
        (λ fail. (lines.old.lines ≡ []) × (fail ≡ Fault (verdict_fault missing lines.old.end))) }
    ensures end { lines.new.end ≡ lines.old.end }
{
    match lines.next() {
        Ok(line) => Ok(line),
        Err(end) => Err(fault(missing, end)),
    }
}

/// What was read of a line's words, or the fault of the line.
#[tactic(auto, unfolding(text_lines::specs::Readings::in_line))]
fn placed<T: Drop>(line: TextLine, read: Result<T, VerdictKind>) -> Result<T, VerdictFail>
    ensures { ReadsTo (λ x. x) result
        (at_line verdict_fault line.entry.number (if is_ascii line.entry.bytes.now then read else Err NotAscii)) }
{
    if !is_ascii_line(line.bytes) {
        return Err(fault(VerdictKind::NotAscii, line.number));
    }
    match read {
        Ok(x) => Ok(x),
        Err(kind) => Err(fault(kind, line.number)),
    }
}

/// The header, which the first content line is.
pub fn next_header(lines: &mut ContentLines) -> Result<Header, VerdictFail>
    ensures read { ReadsTo (λ header. (header, lines.new.lines)) result
        (first_line (verdict_line verdict_header) (verdict_fault NoHeader lines.old.end) lines.old.lines) }
    ensures sized { IfOk result IsSized }
    ensures end { lines.new.end ≡ lines.old.end }
{
    let line = next_line(lines, VerdictKind::NoHeader)?;
    placed(line, header_in(line.bytes))
}

/// The next term.
fn next_term(alloc: Global, lines: &mut ContentLines, n: u8) -> Result<Term, VerdictFail>
    requires { IsSize n }
    ensures read { ReadsTo (λ term. (term, lines.new.lines)) result
        (first_line (verdict_line (term_of n)) (missing_line lines.old.end) lines.old.lines) }
    ensures end { lines.new.end ≡ lines.old.end }
{
    let line = next_line(lines, VerdictKind::MissingLine)?;
    placed(line, term(alloc, line.bytes, n))
}

/// The next row of W.
fn next_row(lines: &mut ContentLines, n: usize) -> Result<SignedRow, VerdictFail>
    requires { n ≤ 6 }
    ensures read { ReadsTo (λ row. (seen_row n row, lines.new.lines)) result
        (first_line (numbered_row n) (missing_line lines.old.end) lines.old.lines) }
    ensures end { lines.new.end ≡ lines.old.end }
{
    let line = next_line(lines, VerdictKind::MissingLine)?;
    let entries = placed(line, row(line.bytes, n))?;
    Ok(SignedRow {
        line: line.number,
        entries,
    })
}

/// The value of a separation.
pub fn next_value(lines: &mut ContentLines) -> Result<Fraction, VerdictFail>
    ensures read { ReadsTo (λ value. (value, lines.new.lines)) result
        (first_line (verdict_line value_of) (missing_line lines.old.end) lines.old.lines) }
    ensures end { lines.new.end ≡ lines.old.end }
{
    let line = next_line(lines, VerdictKind::MissingLine)?;
    placed(line, value(line.bytes))
}

/// How many lines the tree has.
pub fn next_count(lines: &mut ContentLines) -> Result<u64, VerdictFail>
    ensures read { ReadsTo (λ count. (count, lines.new.lines)) result
        (first_line (verdict_line count_of) (missing_line lines.old.end) lines.old.lines) }
    ensures end { lines.new.end ≡ lines.old.end }
{
    let line = next_line(lines, VerdictKind::MissingLine)?;
    placed(line, tree_count(line.bytes))
}

/// The next line of the tree.
fn next_tree_line(lines: &mut ContentLines, n: u8) -> Result<TreeLine, VerdictFail>
    ensures read { ReadsTo (λ line. (line, lines.new.lines)) result
        (first_line (verdict_line (tree_line_of n)) (missing_line lines.old.end) lines.old.lines) }
    ensures end { lines.new.end ≡ lines.old.end }
{
    let line = next_line(lines, VerdictKind::MissingLine)?;
    placed(line, tree_line(line.bytes, n))
}

/// So many terms.
pub fn terms_in(
    alloc: Global,
    lines: &mut ContentLines,
    n: u8,
    count: u64,
) -> Result<TermLines, VerdictFail>
    requires { IsSize n }
    ensures read { ReadsTo (λ terms. record { items = terms; rest = lines.new.lines }) result
        (many (verdict_line (term_of n)) (missing_line lines.old.end) count lines.old.lines) }
    ensures end { lines.new.end ≡ lines.old.end }
{
    let mut terms = TermLines::new(alloc);
    for index in 0..count {
        terms.push(next_term(alloc, lines, n)?)?;
    }
    Ok(terms)
}

/// The n rows of W.
pub fn rows_in(lines: &mut ContentLines, n: usize) -> Result<[SignedRow; MOST], VerdictFail>
    requires { n ≤ 6 }
    ensures read { ReadsTo (λ rows. record { items = seen_rows n (take n rows); rest = lines.new.lines }) result
        (many (numbered_row n) (missing_line lines.old.end) n lines.old.lines) }
    ensures end { lines.new.end ≡ lines.old.end }
{
    let empty = SignedRow {
        line: 0,
        entries: [0; MOST],
    };
    let mut rows = [empty; MOST];
    for index in 0..n {
        rows[index] = next_row(lines, n)?;
    }
    Ok(rows)
}

/// So many lines of a tree. It takes memory for the lines that the bytes left can hold, and not for as many as a text names.
pub fn tree_in(
    alloc: Global,
    lines: &mut ContentLines,
    n: u8,
    count: u64,
) -> Result<ConeTree, VerdictFail>
    ensures read { ReadsTo (λ tree. record { items = tree; rest = lines.new.lines }) result
        (many (verdict_line (tree_line_of n)) (missing_line lines.old.end) count lines.old.lines) }
    ensures end { lines.new.end ≡ lines.old.end }
{
    let room = count.min(lines.bytes_left() as u64 / SHORTEST + 1);
    let mut tree = ConeTree::with_room(alloc, room as usize)?;
    for index in 0..count {
        tree.push(next_tree_line(lines, n)?)?;
    }
    Ok(tree)
}

/// The fault of a line that follows the last one.
#[tactic(auto, unfolding(text_lines::specs::Readings::in_line))]
fn extra_line(line: TextLine) -> VerdictFail
    ensures { RefusedWith {Y = Verdict} (verdict_line (λ others. Err ExtraLine) (line_of line.entry)) result }
{
    if is_ascii_line(line.bytes) {
        fault(VerdictKind::ExtraLine, line.number)
    } else {
        fault(VerdictKind::NotAscii, line.number)
    }
}

/// Looks whether a line is left.
pub fn end_of_lines(lines: &mut ContentLines) -> Result<(), VerdictFail>
    ensures { MatchResult result (λ _. lines.old.lines ≡ [])
        (λ fail. (read : Result Verdict VerdictFault) → RefusedWith (no_more_lines lines.old.lines read) fail) }
{
    match lines.next() {
        Ok(line) => Err(extra_line(line)),
        Err(_) => Ok(()),
    }
}
