//! Reading a separation.

ghost use Rattle.std.specs.Prelude.{◌≡◌, ◌<◌, ◌≤◌, pos, length, All, IfOk};
ghost use Rattle.std.specs.Ordering.{int_eq};
ghost use Rattle.symmetric_matrix.specs.Symmetric.{FitsInt};
ghost use Rattle.text_lines.specs.Square.{first_unlike};
ghost use Rattle.cone_tree_certificate.specs.Sizes.{IsSize};
ghost use Rattle.cone_tree_certificate.specs.ProofText.{NumberedRow, separator_of, unless_unlike};
ghost use Rattle.cone_tree_certificate.specs.Rows.{table_rows_of, w_entries, AreNarrow, line_of_seen};
ghost use Rattle.cone_tree_certificate.specs.Reading.{ReadsTo};

use crate::fault::{VerdictFail, VerdictFault, VerdictKind};
use crate::lines::{end_of_lines, next_count, next_value, rows_in, tree_in};
use crate::symmetry::{first_unlike_row, lower_triangle};
use crate::table::SignedTable;
use crate::tree::ConeTree;
use crate::verdict::Verdict;
use fraction128::Fraction;
use std::alloc::Global;
use symmetric_matrix::SymInt;
use text_lines::content::ContentLines;

/// The line of a row, which counts from 0.
fn line_at(table: &SignedTable, row: usize) -> u32
    requires { row < table.now.size }
    ensures { result ≡ line_of_seen (table_rows_of table.now) row }
{
    let rows = &table.rows[..];
    rows[row].line
}

/// The separation by W, or the fault of its first row that is not as the column of its number.
fn separated(
    alloc: Global,
    table: &SignedTable,
    value: Fraction,
    tree: ConeTree,
) -> Result<Verdict, VerdictFail>
    requires { AreNarrow table.now }
    ensures { ReadsTo (λ v. v) result
        (unless_unlike (table_rows_of table.now) value tree (first_unlike int_eq (pos 0) (w_entries table.now))) }
{
    if let Some(row) = first_unlike_row(table) {
        return Err(VerdictFail::Fault(VerdictFault {
            kind: VerdictKind::NotSymmetric,
            line: line_at(table, row),
        }));
    }
    let lower = lower_triangle(alloc, table)?;
    let w = SymInt::from_lower(alloc, table.size, &lower)?;
    Ok(Verdict::Separator { w, value, tree })
}

/// The separation that the lines after the header write.
pub fn separator_in(alloc: Global, lines: ContentLines, n: u8) -> Result<Verdict, VerdictFail>
    requires { IsSize n }
    ensures { ReadsTo (λ v. v) result (separator_of n lines.entry.end lines.entry.lines) }
{
    let mut lines = lines;
    let rows = rows_in(&mut lines, n as usize)?;
    let value = next_value(&mut lines)?;
    let count = next_count(&mut lines)?;
    let tree = tree_in(alloc, &mut lines, n, count)?;
    end_of_lines(&mut lines)?;
    let table = SignedTable { size: n, rows };
    separated(alloc, &table, value, tree)
}
