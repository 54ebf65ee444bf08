//! The rows of the order of operations as lines.

ghost use Rattle.std.specs.Prelude.{◌≡◌, ◌≤◌, ◌+◌, ◌∷◌, ◌++◌, IfOk, drop};
ghost use Rattle.std.specs.String.{string_bytes};
ghost use Rattle.arrayvec.specs.ArrayString.{array_string_len};
ghost use Rattle.report_lines.specs.Line.{event_word};
ghost use Rattle.command_live.specs.Rows.{row_line, rows_text};

use crate::text::{ToldText, begun, ended, put_index, put_word};
use crate::{Told, told_text};
use one_order::Ordered;
use std::alloc::{AllocError, Allocator};

/// Adds a space and the number of an answer's event, or that there is none.
fn put_answered(text: &mut ToldText, answered: Option<u32>)
    requires { array_string_len text.old + 11 ≤ 96 }
    ensures text { text.new.bytes ≡ text.old.bytes ++ (32 ∷ event_word answered) }
    ensures len { array_string_len text.new ≤ array_string_len text.old + 11 }
{
    match answered {
        Some(number) => put_index(text, number),
        None => put_word(text, "-"),
    }
}

/// The line of a row: `order 1 0 1 2 3 0 0`, with its line feed.
fn row_line(row: Ordered) -> ToldText
    ensures { result.bytes ≡ row_line row }
{
    let mut text = begun("order");
    put_index(&mut text, row.bank);
    put_index(&mut text, row.place);
    put_index(&mut text, row.issued);
    put_index(&mut text, row.served);
    put_answered(&mut text, row.answered);
    put_index(&mut text, row.source);
    put_index(&mut text, row.index);
    ended(text)
}

/// The rows from a number on.
pub(crate) fn rows_from(rows: &[Ordered], from: u32) -> &[Ordered]
    ensures { result.now ≡ drop from rows.now }
{
    let from = from as usize;
    if from < rows.len() {
        &rows[from..]
    } else {
        &rows[rows.len()..]
    }
}

/// How many rows there are, and their lines.
///
/// Errors: out of memory.
pub(crate) fn rows_text<A: Allocator>(alloc: A, rows: &[Ordered]) -> Result<String<A>, AllocError>
    ensures { IfOk result (λ text. string_bytes text ≡ rows_text rows.now) }
{
    let count = rows.len() as u64;
    let mut text = String::from_str(alloc, told_text(Told::Rows(count)).as_str())?;
    for row in rows {
        text.push_str(row_line(*row).as_str())?;
    }
    Ok(text)
}
