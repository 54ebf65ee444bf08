//! The sentence that says why a table is refused.

ghost use Rattle.std.specs.Prelude.{IfSome, option_map};
ghost use Rattle.std.specs.Str.Lines.{lines};
ghost use Rattle.lexer.specs.Named.{IsAbout};
ghost use Rattle.trace_table.specs.Told.{TellsTableRefusal};

use crate::cells::{separator_of, without_mark};
use crate::column::{Column, is_named_so};
use crate::hints::{put_column_hints, put_number_hint, put_reply_hint};
use crate::reason::TableReason;
use crate::rows::read_rows;
use lexer::{Named, QuotedWords, Refusal, line_at};
use packet::Code;
use std::alloc::Allocator;
use std::fmt;
use trace_lines::LineReason;

/// Why a table is refused, as a sentence: `calls.csv:3: operation jump: there is no such operation`.
#[derive(Clone, Copy)]
pub struct TableSentence<'a> {
    /// The name of the table.
    pub name: &'a str,
    pub text: &'a [u8],
    pub refusal: Refusal<TableReason>,
}

/// Why a table is refused: where and why the reader of its rows refuses it, or that a request for memory
/// was refused. `None` exactly where it has no fault and memory was there.
pub fn table_sentence<'a, A: Allocator + Copy>(
    alloc: A,
    table: Named<'a>,
) -> Option<TableSentence<'a>>
    ensures tells { TellsTableRefusal (lines table.entry.text.now)
        (option_map (λ s. s.refusal) result) }
    ensures text { IfSome result (λ s. IsAbout table.entry s.name.now s.text.now) }
{
    let Err(refusal) = read_rows(alloc, table.text) else {
        return None;
    };
    Some(TableSentence {
        name: table.name,
        text: table.text,
        refusal,
    })
}

/// The column that a reason is about, if it is about one.
fn column_of(reason: TableReason) -> Option<Column> {
    match reason {
        TableReason::Missing(column) => Some(column),
        TableReason::Cell(column) => Some(column),
        TableReason::FoundUnnamed => Some(Column::Reply),
        TableReason::Backwards => Some(Column::Answered),
        TableReason::Line(why) => line_column(why),
        _ => None,
    }
}

/// The column that a reason is about which tables and traces have in common.
fn line_column(reason: LineReason) -> Option<Column> {
    match reason {
        LineReason::Memory => None,
        LineReason::UnknownOperation => Some(Column::Operation),
        LineReason::AddressLimits(_, _) => Some(Column::Address),
        LineReason::NotNumber(3) => Some(Column::Address),
        LineReason::OperandCount => Some(Column::Values),
        LineReason::NotNumber(_) => Some(Column::Values),
        LineReason::ValueLimits(4) => Some(Column::Values),
        LineReason::ValueLimits(5) => Some(Column::Values),
        _ => Some(Column::Reply),
    }
}

/// The cell of a column in the line of a number, which counts from 1; empty where there is none.
fn cell_of(text: &[u8], line: u64, column: Column) -> &[u8] {
    let head = line_at(text, 1).unwrap_or(b"".as_slice());
    let row = line_at(text, line).unwrap_or(b"".as_slice());
    let separator = separator_of(head);
    let names = without_mark(head).split(|byte| *byte == separator);
    for (name, cell) in names.zip(row.split(|byte| *byte == separator)) {
        if is_named_so(column.name(), name) {
            return cell;
        }
    }
    b"".as_slice()
}

/// What belongs into a cell.
fn cell_text(column: Column) -> &'static str {
    match column {
        Column::Processor => "a number below 4096 belongs there",
        Column::Operation => "one word belongs there",
        Column::Address => "one number belongs there",
        Column::Values => "numbers belong there",
        Column::Reply => "one word belongs there; where no reply came, answered is empty",
        Column::Issued => "a whole number below 2^64 belongs there",
        Column::Answered => "a whole number below 2^64 or nothing belongs there",
    }
}

/// How many values the operation takes that a cell names.
fn values_text(operation: QuotedWords<'_>) -> &'static str {
    match Code::named(operation.at(0).word).map_or(1, |code| code.arity()) {
        0 => "the operation takes no value",
        1 => "the operation takes one value",
        _ => "the operation takes two values",
    }
}

/// What is said of a reason that tables and traces have in common; `operation` has the words of the cell
/// that names the operation.
fn line_text(reason: LineReason, operation: QuotedWords<'_>) -> &'static str {
    match reason {
        LineReason::UnknownOperation => "there is no such operation",
        LineReason::OperandCount => values_text(operation),
        LineReason::NotNumber(_) => "a number belongs there",
        LineReason::AddressLimits(_, _) => "an address is below 2^32",
        LineReason::ValueLimits(_) => "a value is below 2^64",
        LineReason::NotReply => "a number or ok belongs there",
        LineReason::OkUnwanted => "the operation is no store: a number belongs there",
        LineReason::NumberUnwanted => "the operation is a store: ok belongs there",
        _ => "a request for memory was refused while it was read",
    }
}

/// What is said of a reason.
fn reason_text(reason: TableReason, operation: QuotedWords<'_>) -> &'static str {
    match reason {
        TableReason::Missing(_) => {
            "the first line names no such column; a table has processor, operation, address, values, \
            reply, issued and answered"
        }
        TableReason::Quote => "a quote: cells stand without quotes",
        TableReason::CellCount => "the line has another number of cells than the first one",
        TableReason::OperationsLimits => "a table has at most 4194304 operations",
        TableReason::Cell(column) => cell_text(column),
        TableReason::Line(why) => line_text(why, operation),
        TableReason::FoundUnnamed => {
            "the cas found another word than it expected, and that word belongs there; tools/from_csv \
            also takes false and fail"
        }
        TableReason::Backwards => "it comes before the time of the issue",
    }
}

/// Puts the name of a column, and the words of its cell.
fn put_cell<W: fmt::Write>(
    f: &mut fmt::Formatter<W>,
    text: &[u8],
    line: u64,
    column: Column,
) -> fmt::Result {
    let name = QuotedWords::of_line(column.name(), 1);
    write!(f, "{name}")?;
    if line > 1 {
        let words = QuotedWords::of_line(cell_of(text, line, column), 1);
        if !words.at(0).word.is_empty() {
            write!(f, " {words}")?;
        }
    }
    f.write_str(": ")
}

/// Puts what was probably meant, where that can be told.
fn put_hint<W: fmt::Write>(
    f: &mut fmt::Formatter<W>,
    text: &[u8],
    refusal: Refusal<TableReason>,
) -> fmt::Result {
    let Refusal { line, reason } = refusal;
    match reason {
        TableReason::Missing(_) => put_column_hints(f, text),
        TableReason::Line(LineReason::NotNumber(3)) => {
            put_number_hint(f, cell_of(text, line, Column::Address))
        }
        TableReason::Line(LineReason::NotNumber(_)) => {
            put_number_hint(f, cell_of(text, line, Column::Values))
        }
        TableReason::Line(LineReason::NotReply) => {
            put_reply_hint(f, cell_of(text, line, Column::Reply))
        }
        _ => Ok(()),
    }
}

impl<'a> fmt::Display for TableSentence<'a> {
    fn fmt<W: fmt::Write>(&self, f: &mut fmt::Formatter<W>) -> fmt::Result {
        let Refusal { line, reason } = self.refusal;
        f.write_str(self.name)?;
        if line != 0 {
            write!(f, ":{line}")?;
        }
        f.write_str(": ")?;
        if let Some(column) = column_of(reason) {
            put_cell(f, self.text, line, column)?;
        }
        let cell = cell_of(self.text, line, Column::Operation);
        f.write_str(reason_text(reason, QuotedWords::of_line(cell, 1)))?;
        put_hint(f, self.text, self.refusal)
    }
}
