//! A table as a trace text.

ghost use Rattle.std.specs.Prelude.{◌≡◌, IfOk};
ghost use Rattle.std.specs.Str.Lines.{lines};
ghost use Rattle.trace_table.specs.Rows.{table_rows};
ghost use Rattle.trace_table.specs.Tables.{IsTableText, ReadsTable, table_line};

use crate::moment::{in_order, issues_of, lines_of_moments, moments_of, rows_of_moments};
use crate::reason::TableReason;
use crate::row::TableRow;
use crate::rows::read_rows;
use crate::text::table_text;
use lexer::Refusal;
use std::alloc::{AllocError, Allocator, Global};
use trace_lines::LineReason;

/// The trace text of a table: its events in the order of their times, where at one time issues come before
/// answers, and of these that of the earlier line.
#[derive(Drop)]
pub struct TableTrace<A: Allocator = Global> {
    /// The text: two lines, and then one for each event.
    pub text: Vec<u8, A>,
    /// The line of the table that each event is of.
    pub lines: Vec<u64, A>,
}

impl<A: Allocator> TableTrace<A> {
    /// The line of the table that a line of the text is of, which counts from 1; 0 where it is of none.
    pub fn table_line(&self, line: u64) -> u64
        ensures { result ≡ table_line self.now.lines.items line }
    {
        if line < 3 {
            return 0;
        }
        self.lines.get((line - 3) as usize).copied().unwrap_or(0)
    }
}

/// The trace text of rows.
fn traced<A: Allocator + Copy>(alloc: A, rows: &[TableRow]) -> Result<TableTrace<A>, AllocError>
    ensures { IfOk result (λ t. IsTableText rows.now t.text.items t.lines.items) }
{
    let issues = in_order(issues_of(alloc, rows)?)?;
    let issued = rows_of_moments(alloc, rows, &issues)?;
    let events = in_order(moments_of(alloc, &issued)?)?;
    Ok(TableTrace {
        text: table_text(alloc, &issued, &events)?,
        lines: lines_of_moments(alloc, &issued, &events)?,
    })
}

/// Reads a table of operations, and makes its trace text.
///
/// The first line names the columns, in any order and with others beside them: processor, operation, address, values,
/// reply, issued, answered. Each further line is an operation; one without a time `answered` has no answer.
///
/// Errors: where and why its first bad line is refused, or that a request for memory was.
pub fn read_table<A: Allocator + Copy>(
    alloc: A,
    text: &[u8],
) -> Result<TableTrace<A>, Refusal<TableReason>>
    ensures { ReadsTable (table_rows (lines text.now)) result }
{
    let rows = read_rows(alloc, text)?;
    match traced(alloc, &rows) {
        Ok(trace) => Ok(trace),
        Err(_) => Err(Refusal::at(0, TableReason::Line(LineReason::Memory))),
    }
}
