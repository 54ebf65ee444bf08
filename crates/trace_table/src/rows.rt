//! The rows of a table.

ghost use Rattle.std.specs.Prelude.{◌≡◌, ◌⊎◌, [], Err, map};
ghost use Rattle.std.specs.Str.Lines.{lines};
ghost use Rattle.lexer.specs.Outcome.{Gives, Makes};
ghost use Rattle.trace_table.specs.Rows.{after_cells, after_row_line, head_columns};
ghost use Rattle.trace_table.specs.Rows.{table_rows_from, table_rows};

use crate::cells::{has_cells, has_quote, separator_of, table_cells, without_mark};
use crate::column::{Column, Columns, named_columns};
use crate::reason::TableReason;
use crate::row::{TableRow, row_of_cells};
use lexer::{Refusal, next_line};
use std::alloc::Allocator;
use trace_lines::LineReason;

/// The most operations that a table has.
const MOST_OPERATIONS: usize = 1 << 22;

/// The columns that a first line names.
fn head_columns<A: Allocator>(alloc: A, line: &[u8]) -> Result<Columns, TableReason>
    ensures { (result ≡ Err (TableReason.Line LineReason.Memory)) ⊎
        (result ≡ head_columns line.now) }
{
    if has_quote(line) {
        return Err(TableReason::Quote);
    }
    let separator = separator_of(line);
    match table_cells(alloc, separator, without_mark(line)) {
        Ok(cells) => named_columns(separator, &cells),
        Err(_) => Err(TableReason::Line(LineReason::Memory)),
    }
}

/// Takes the cells of a line.
fn take_cells<A: Allocator>(
    columns: Columns,
    rows: &mut Vec<TableRow, A>,
    number: u64,
    cells: &[&[u8]],
) -> Result<(), TableReason>
    ensures { Makes (TableReason.Line LineReason.Memory) rows.new.items result
        (after_cells columns rows.old.items number (map (λ cell. cell.now) cells.now)) }
{
    if cells.len() != columns.count {
        return Err(TableReason::CellCount);
    }
    if rows.len() >= MOST_OPERATIONS {
        return Err(TableReason::OperationsLimits);
    }
    let row = row_of_cells(number, columns, cells)?;
    match rows.push(row) {
        Ok(()) => Ok(()),
        Err(_) => Err(TableReason::Line(LineReason::Memory)),
    }
}

/// Takes a line behind the first one.
fn take_line<A: Allocator + Copy>(
    alloc: A,
    columns: Columns,
    rows: &mut Vec<TableRow, A>,
    number: u64,
    line: &[u8],
) -> Result<(), TableReason>
    ensures { Makes (TableReason.Line LineReason.Memory) rows.new.items result
        (after_row_line columns rows.old.items number line.now) }
{
    if !has_cells(columns.separator, line) {
        return Ok(());
    }
    if has_quote(line) {
        return Err(TableReason::Quote);
    }
    match table_cells(alloc, columns.separator, line) {
        Ok(cells) => take_cells(columns, rows, number, &cells),
        Err(_) => Err(TableReason::Line(LineReason::Memory)),
    }
}

/// The rows of the lines behind the first one.
fn rows_behind<A: Allocator + Copy>(
    alloc: A,
    columns: Columns,
    text: &[u8],
) -> Result<Vec<TableRow, A>, Refusal<TableReason>>
    ensures { Gives (TableReason.Line LineReason.Memory) (λ rows. rows.items) result
        (table_rows_from columns [] 2 (lines text.now)) }
{
    let mut rows = Vec::new(alloc);
    let mut number = 2u64;
    let mut rest = text;
    while let Some((line, after)) = next_line(rest) {
        if let Err(reason) = take_line(alloc, columns, &mut rows, number, line) {
            return Err(Refusal::at(number, reason));
        }
        number += 1;
        rest = after;
    }
    Ok(rows)
}

/// The rows of a table, in the order of its lines.
///
/// Errors: where and why its first bad line is refused, or that a request for memory was.
pub fn read_rows<A: Allocator + Copy>(
    alloc: A,
    text: &[u8],
) -> Result<Vec<TableRow, A>, Refusal<TableReason>>
    ensures { Gives (TableReason.Line LineReason.Memory) (λ rows.
        rows.items) result (table_rows (lines text.now)) }
{
    let Some((line, rest)) = next_line(text) else {
        return Err(Refusal::at(1, TableReason::Missing(Column::Processor)));
    };
    match head_columns(alloc, line) {
        Ok(columns) => rows_behind(alloc, columns, rest),
        Err(reason) => Err(Refusal::at(1, reason)),
    }
}
