//! The columns of a table.

ghost use Rattle.std.specs.Prelude.{◌≡◌, length, map, position};
ghost use Rattle.trace_table.specs.Columns.{named_columns, column_name, is_named_so, column_place};
ghost use Rattle.trace_table.specs.Columns.{place_or_why};

use crate::reason::TableReason;
use lexer::first_words;

/// What a column of a table has.
#[derive(Clone, Copy)]
pub enum Column {
    /// The number of the processor, below 4096.
    Processor,
    /// The word of an operation.
    Operation,
    /// The number of a word of the memory.
    Address,
    /// The values of the operation, as many as it takes.
    Values,
    /// The reply: `ok` for a store, else the word that was there before.
    Reply,
    /// The time of the issue.
    Issued,
    /// The time of the answer; empty where there is none.
    Answered,
}

/// The places of the columns in each line of a table, from 0; how many cells each line has, and the byte between
/// them.
#[derive(Clone, Copy)]
pub struct Columns {
    pub separator: u8,
    pub count: usize,
    pub processor: usize,
    pub operation: usize,
    pub address: usize,
    pub values: usize,
    pub reply: usize,
    pub issued: usize,
    pub answered: usize,
}

impl Column {
    /// The word that names the column in the first line.
    pub fn name(self) -> &'static [u8]
        ensures { result.now ≡ column_name self }
    {
        match self {
            Column::Processor => b"processor",
            Column::Operation => b"operation",
            Column::Address => b"address",
            Column::Values => b"values",
            Column::Reply => b"reply",
            Column::Issued => b"issued",
            Column::Answered => b"answered",
        }
    }
}

/// Whether a cell is this word.
pub(crate) fn is_named_so(name: &[u8], cell: &[u8]) -> bool
    ensures { result ≡ is_named_so name.now cell.now }
{
    let (words, count) = first_words(cell);
    match &words[..count] {
        [word] => *word == name,
        _ => false,
    }
}

/// The place of the first cell that is this word.
fn name_place(name: &[u8], cells: &[&[u8]]) -> Option<usize>
    ensures { result ≡ position (λ cell. is_named_so name.now cell.now) cells.now }
{
    cells.iter().position(|cell| is_named_so(name, cell))
}

/// The place of the first cell whose bytes are this word.
fn column_place(name: &[u8], cells: &[&[u8]]) -> Option<usize>
    ensures { result ≡ column_place name.now (map (λ cell. cell.now) cells.now) }
{
    name_place(name, cells)
}

/// The place of a column.
fn place_or_why(column: Column, cells: &[&[u8]]) -> Result<usize, TableReason>
    ensures { result ≡ place_or_why column (map (λ cell. cell.now) cells.now) }
{
    match column_place(column.name(), cells) {
        Some(place) => Ok(place),
        None => Err(TableReason::Missing(column)),
    }
}

/// The columns that the cells of a first line name, which have a separator between them.
///
/// Errors: the first column that none names.
pub(crate) fn named_columns(separator: u8, cells: &[&[u8]]) -> Result<Columns, TableReason>
    ensures { result ≡ named_columns separator (map (λ cell. cell.now) cells.now) }
{
    let processor = place_or_why(Column::Processor, cells)?;
    let operation = place_or_why(Column::Operation, cells)?;
    let address = place_or_why(Column::Address, cells)?;
    let values = place_or_why(Column::Values, cells)?;
    let reply = place_or_why(Column::Reply, cells)?;
    let issued = place_or_why(Column::Issued, cells)?;
    let answered = place_or_why(Column::Answered, cells)?;
    Ok(Columns {
        separator,
        count: cells.len(),
        processor,
        operation,
        address,
        values,
        reply,
        issued,
        answered,
    })
}
