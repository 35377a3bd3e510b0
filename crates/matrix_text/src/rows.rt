//! The lines of a text: its header and its rows.

ghost use Rattle.std.specs.Prelude.{◌≡◌, ◌+◌, ◌<◌, ◌≤◌, ◌^◌, length, take, IfOk, List, Err};
ghost use Rattle.text_lines.specs.Lines.{words, content_lines, end_line};
ghost use Rattle.text_lines.specs.Content.{line_of};
ghost use Rattle.text_lines.specs.Readings.{Agrees};
ghost use Rattle.matrix_text.specs.Matrix.{row_of_words, rows_of_lines, header_of, read_line, table_of, TextRow};
ghost use Rattle.matrix_text.specs.Rows.{text_rows, table_rows};
ghost use Rattle.matrix_text.specs.declared.fault.TextKind.TheVariants.{ExtraLine};

use crate::entry::entry_in;
use crate::fault::{TextFault, TextKind, fault};
use crate::header::header_size;
use crate::table::{MOST, Row, Table};
use fraction128::Fraction;
use text_lines::content::{ContentLines, TextLine, is_ascii_line};
use text_lines::words::Words;

/// The entries of a row.
#[tactic(auto, using(text_lines::proofs::Fronts::number_steps))]
fn row_in(line: &[u8], size: usize) -> Result<[Fraction; MOST], TextKind>
    requires { size ≤ MOST }
    ensures { Agrees (λ row. take size row) result (row_of_words size (words line.now)) }
{
    let mut words = Words::of(line);
    let mut row = [Fraction::whole(0); MOST];
    for column in 0..size {
        let Some(word) = words.next() else {
            return Err(TextKind::ShortRow);
        };
        row[column] = entry_in(word)?;
    }
    match words.next() {
        None => Ok(row),
        Some(_) => Err(TextKind::LongRow),
    }
}

/// The row that a line writes.
#[tactic(auto, unfolding(text_lines::specs::Readings::in_line))]
fn row_at(line: TextLine, size: usize) -> Result<Row, TextFault>
    requires { size ≤ MOST }
    ensures entries { Agrees (λ row. take size row.entries) result
        (read_line (row_of_words size) (line_of line.entry)) }
    ensures line { IfOk result (λ row. row.line ≡ line.entry.number) }
{
    if !is_ascii_line(line.bytes) {
        return Err(fault(TextKind::NotAscii, line.number));
    }
    match row_in(line.bytes, size) {
        Ok(entries) => Ok(Row {
            line: line.number,
            entries,
        }),
        Err(kind) => Err(fault(kind, line.number)),
    }
}

/// The fault of a line that follows the last row.
#[tactic(auto, unfolding(text_lines::specs::Readings::in_line))]
fn extra_line(line: TextLine) -> TextFault
    ensures { read_line {A = List TextRow} (λ words. Err ExtraLine) (line_of line.entry) ≡ Err result }
{
    if is_ascii_line(line.bytes) {
        fault(TextKind::ExtraLine, line.number)
    } else {
        fault(TextKind::NotAscii, line.number)
    }
}

/// The rows that the lines write, and no further line.
#[tactic(auto, using(crate::proofs::TextRows::rows_steps))]
fn rows_in(lines: ContentLines, size: usize) -> Result<[Row; MOST], TextFault>
    requires { size ≤ MOST }
    ensures { Agrees (λ rows. text_rows size rows) result (rows_of_lines size lines.entry.end size lines.entry.lines) }
{
    let mut lines = lines;
    let empty = Row {
        line: 0,
        entries: [Fraction::whole(0); MOST],
    };
    let mut rows = [empty; MOST];
    for index in 0..size {
        match lines.next() {
            Ok(line) => rows[index] = row_at(line, size)?,
            Err(end) => return Err(fault(TextKind::MissingRow, end)),
        }
    }
    match lines.next() {
        Ok(line) => Err(extra_line(line)),
        Err(_) => Ok(rows),
    }
}

/// The size that the header's line names.
#[tactic(auto, unfolding(text_lines::specs::Readings::in_line))]
fn size_at(line: TextLine) -> Result<u8, TextFault>
    ensures value { Agrees (λ size. size) result (read_line header_of (line_of line.entry)) }
    ensures some { IfOk result (λ size. 1 ≤ size) }
    ensures few { IfOk result (λ size. size ≤ 6) }
{
    if !is_ascii_line(line.bytes) {
        return Err(fault(TextKind::NotAscii, line.number));
    }
    match header_size(line.bytes) {
        Ok(size) => Ok(size),
        Err(kind) => Err(fault(kind, line.number)),
    }
}

/// The rows that a text writes, or its first fault but for NotSymmetric.
#[tactic(auto, unfolding(crate::specs::Matrix::table_of))]
pub fn read_table(text: &[u8]) -> Result<Table, TextFault>
    requires { length text.now + 1 < 2 ^ 32 }
    ensures { Agrees (λ table. table_rows table) result
        (table_of (record { lines = content_lines text.now; end = end_line text.now })) }
{
    let mut lines = ContentLines::of(text);
    let size = match lines.next() {
        Ok(line) => size_at(line)?,
        Err(end) => return Err(fault(TextKind::NoHeader, end)),
    };
    let rows = rows_in(lines, size as usize)?;
    Ok(Table { size, rows })
}
