//! The cells of a line: commas stand between them, or semicolons, or tabs.

ghost use Rattle.std.specs.Prelude.{◌≡◌, ◌==◌, IfOk, map, slice_get};
ghost use Rattle.std.specs.List.{list_any, slice_index_or};
ghost use Rattle.trace_table.specs.Cells.{table_cells, cell_in, has_quote, is_in_cell, has_cells};
ghost use Rattle.trace_table.specs.Cells.{separator_of};
ghost use Rattle.trace_table.specs.Cells.{is_marked_text, without_mark};

use std::alloc::{AllocError, Allocator};

/// Whether a line has this byte.
fn has_byte(line: &[u8], wanted: u8) -> bool
    ensures { result ≡ list_any (λ c. c == wanted) line.now }
{
    line.iter().any(|byte| *byte == wanted)
}

/// Whether a line has a quote.
pub(crate) fn has_quote(line: &[u8]) -> bool
    ensures { result ≡ has_quote line.now }
{
    has_byte(line, b'"')
}

/// What parts the cells of a table whose first line this is: a comma where it has one, else a semicolon where it has
/// one, else a tab.
pub(crate) fn separator_of(line: &[u8]) -> u8
    ensures { result ≡ separator_of line.now }
{
    if has_byte(line, b',') {
        b','
    } else if has_byte(line, b';') {
        b';'
    } else {
        b'\t'
    }
}

/// Whether a line has something beside blanks and separators.
pub(crate) fn has_cells(separator: u8, line: &[u8]) -> bool
    ensures { result ≡ has_cells separator line.now }
{
    line.iter().any(|byte| is_in_cell(separator, *byte))
}

/// Whether a byte is neither a blank nor a separator.
fn is_in_cell(separator: u8, byte: u8) -> bool
    ensures { result ≡ is_in_cell separator byte }
{
    byte != b' ' && byte != b'\t' && byte != separator
}

/// Whether a text begins with the mark of UTF-8.
fn is_marked_text(line: &[u8]) -> bool
    ensures { result ≡ is_marked_text line.now }
{
    line.len() > 2 && line[0] == 0xEF && line[1] == 0xBB && line[2] == 0xBF
}

/// A first line without the mark of UTF-8.
pub(crate) fn without_mark(line: &[u8]) -> &[u8]
    ensures { result.now ≡ without_mark line.now }
{
    if is_marked_text(line) {
        &line[3..]
    } else {
        line
    }
}

/// The cells of a line, between separators.
pub(crate) fn table_cells<A: Allocator>(
    alloc: A,
    separator: u8,
    line: &[u8],
) -> Result<Vec<&[u8], A>, AllocError>
    ensures { IfOk result
        (λ cells. map (λ cell. cell.now) cells.items ≡ table_cells separator line.now) }
{
    line.split(|byte| *byte == separator).collect(alloc)
}

/// The cell at a place, empty where there is none.
pub(crate) fn cell_in<'a>(cells: &[&'a [u8]], place: usize) -> &'a [u8]
    ensures { result.now ≡ cell_in (map (λ cell. cell.now) cells.now) place }
{
    match cells.get(place) {
        Some(cell) => cell,
        None => b"".as_slice(),
    }
}
