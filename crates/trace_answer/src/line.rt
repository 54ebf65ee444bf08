//! The lines that are printed of a trace that is judged.

ghost use Rattle.std.specs.Prelude.{◌≡◌, ◌≤◌, ◌++◌, ◌∷◌, codes, decimal, option_map, slice_get};
ghost use Rattle.std.specs.List.{join_with_byte};
ghost use Rattle.arrayvec.specs.ArrayString.{array_string_len};
ghost use Rattle.trace_answer.specs.Texts.{order_words, order_line_text, call_line};
ghost use Rattle.trace_answer.specs.Texts.{bad_by_text, undecided_text};

use crate::words::{put_index, put_op, put_reply, put_value, put_word};
use arrayvec::ArrayString;
use trace_laws::Call;
use trace_text::{Issued, Unfound};

/// The text of one line: the longest has 128 bytes at most, its line feed with it.
pub type LineText = ArrayString<128>;

/// Adds what an operation of the order is.
fn put_issued(line: &mut LineText, issued: &Issued)
    requires { line.old.bytes ≡ codes "order" }
    ensures text { line.new.bytes ≡ join_with_byte 32 (order_words issued.now) }
    ensures len { array_string_len line.new ≤ 127 }
{
    put_index(line, issued.processor);
    put_value(line, issued.index);
    put_op(line, issued.operation.op, issued.operation.address);
    put_reply(line, issued.reply);
}

/// The line of an operation of the order, its line feed with it.
fn order_line_text(issued: &Issued) -> LineText
    ensures { result.bytes ≡ order_line_text issued.now }
{
    let mut line = LineText::new();
    line.push_str("order");
    put_issued(&mut line, issued);
    line.push_str("\n");
    line
}

/// The line of an operation of the order, found by its number; no text where there is none.
pub(crate) fn call_line(issued: &[Issued], call: Call) -> LineText
    ensures { result.bytes ≡ call_line issued.now call }
{
    match find(issued, call.id) {
        Some(found) => order_line_text(&found),
        None => LineText::new(),
    }
}

/// The operation of a number.
fn find(issued: &[Issued], number: u64) -> Option<Issued>
    ensures { result ≡ slice_get issued.now number }
{
    if number >= issued.len() as u64 {
        return None;
    }
    issued.get(number as usize).copied()
}

/// What stands where no order explains the trace: the line of the first event up to which none does.
pub fn not_linearizable(line: u64) -> LineText
    ensures { result.bytes ≡ codes "not linearizable at line" ++ 32 ∷ decimal line }
{
    let mut text = LineText::new();
    text.push_str("not linearizable at line");
    put_value(&mut text, line);
    text
}

/// What stands where the trace is not judged, with at most so many configurations of a word at once;
/// `None` where memory was refused.
pub fn undecided(why: Unfound, bound: u64) -> Option<LineText>
    ensures { option_map (λ t. t.bytes) result ≡ undecided_text why bound }
{
    match why {
        Unfound::Memory => None,
        Unfound::Configurations { line } => {
            let mut text = LineText::new();
            text.push_str("undecided at line");
            put_value(&mut text, line);
            text.push_str(": more than");
            put_value(&mut text, bound);
            text.push_str(" configurations");
            Some(text)
        }
        Unfound::Operations { line } => {
            let mut text = LineText::new();
            text.push_str("undecided at line");
            put_value(&mut text, line);
            text.push_str(": more than 64 operations are open on one word");
            Some(text)
        }
    }
}

/// What stands where no order explains the trace up to a line, and it isn't decided whether one explains what comes
/// before; `None` where memory was refused.
pub fn not_linearizable_by(line: u64, why: Unfound, bound: u64) -> Option<LineText>
    ensures { option_map (λ t. t.bytes) result ≡ bad_by_text line why bound }
{
    let mut text = LineText::new();
    text.push_str("not linearizable by line");
    put_value(&mut text, line);
    text.push_str(", undecided at");
    match why {
        Unfound::Memory => None,
        Unfound::Configurations { line } => {
            put_value(&mut text, line);
            text.push_str(": more than");
            put_value(&mut text, bound);
            text.push_str(" configurations");
            Some(text)
        }
        Unfound::Operations { line } => {
            put_value(&mut text, line);
            text.push_str(": more than 64 operations are open on one word");
            Some(text)
        }
    }
}
