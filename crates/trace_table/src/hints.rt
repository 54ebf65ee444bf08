//! What was probably meant where a table is refused.

use crate::cells::{separator_of, without_mark};
use crate::column::{Column, is_named_so};
use lexer::{QuotedWords, first_words, line_at};
use std::fmt;

/// The columns of a table.
const COLUMNS: [Column; 7] = [
    Column::Processor,
    Column::Operation,
    Column::Address,
    Column::Values,
    Column::Reply,
    Column::Issued,
    Column::Answered,
];

/// What a column is called elsewhere, with blanks between the names.
fn names_elsewhere(column: Column) -> &'static str {
    match column {
        Column::Processor => "core thread cpu hart client process worker proc tid pid source",
        Column::Operation => "op kind type cmd command request access f",
        Column::Address => "addr adr key register location loc object",
        Column::Values => "value data write written wdata write_data argument args input new",
        Column::Reply => "read rdata read_data result returned return response found output old",
        Column::Issued => "start begin started issue invoke invoked call called time",
        Column::Answered => "end finish finished ended done complete completed",
    }
}

/// Whether a word names a column elsewhere, or is its name in other letters.
fn is_called(column: Column, word: &[u8]) -> bool {
    if word.eq_ignore_ascii_case(column.name()) {
        return true;
    }
    for name in names_elsewhere(column)
        .as_bytes()
        .split(|byte| *byte == b' ')
    {
        if word.eq_ignore_ascii_case(name) {
            return true;
        }
    }
    false
}

/// The word of a first line that probably names a column; empty where none does, or one names it.
fn word_meant(text: &[u8], column: Column) -> &[u8] {
    let head = line_at(text, 1).unwrap_or(b"".as_slice());
    let separator = separator_of(head);
    let mut meant = b"".as_slice();
    for name in without_mark(head).split(|byte| *byte == separator) {
        if is_named_so(column.name(), name) {
            return b"".as_slice();
        }
        let (words, count) = first_words(name);
        if meant.is_empty() && count == 1 && is_called(column, words[0]) {
            meant = words[0];
        }
    }
    meant
}

/// Puts which words of the first line were probably meant for columns that it doesn't name.
pub(crate) fn put_column_hints<W: fmt::Write>(
    f: &mut fmt::Formatter<W>,
    text: &[u8],
) -> fmt::Result {
    let mut before = "; did you write ";
    for column in COLUMNS {
        let word = word_meant(text, column);
        if !word.is_empty() {
            let word = QuotedWords::of_line(word, 1);
            let name = QuotedWords::of_line(column.name(), 1);
            write!(f, "{before}{word} for {name}")?;
            before = ", ";
        }
    }
    f.write_str(if before == ", " { "?" } else { "" })
}

/// Whether a word has hexadecimal digits alone, one of which is a decimal one.
fn is_bare_hexadecimal(word: &[u8]) -> bool {
    let mut is_number = false;
    for byte in word {
        if !byte.is_ascii_hexdigit() {
            return false;
        }
        is_number = is_number || byte.is_ascii_digit();
    }
    is_number
}

/// Whether a word of a cell has hexadecimal digits alone.
fn has_bare_hexadecimal(cell: &[u8]) -> bool {
    let (words, count) = first_words(cell);
    words[..count].iter().any(|word| is_bare_hexadecimal(word))
}

/// Puts how hexadecimal digits are read, where a cell without a number has such.
pub(crate) fn put_number_hint<W: fmt::Write>(
    f: &mut fmt::Formatter<W>,
    cell: &[u8],
) -> fmt::Result {
    if !has_bare_hexadecimal(cell) {
        return Ok(());
    }
    f.write_str("; hexadecimal digits stand behind 0x, or tools/from_csv reads them by --hex")
}

/// Puts how hexadecimal digits are read, where a cell that is no reply has such, and else how no reply is told.
pub(crate) fn put_reply_hint<W: fmt::Write>(f: &mut fmt::Formatter<W>, cell: &[u8]) -> fmt::Result {
    if has_bare_hexadecimal(cell) {
        return put_number_hint(f, cell);
    }
    f.write_str("; where no reply came, answered is empty")
}
