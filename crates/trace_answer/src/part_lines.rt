//! The lines of the text of a part of a trace.

ghost use Rattle.std.specs.Prelude.{◌≡◌, ◌≤◌, ◌∷◌, [], codes, decimal};
ghost use Rattle.std.specs.List.{join_with_byte};
ghost use Rattle.arrayvec.specs.ArrayString.{array_string_len};
ghost use Rattle.lexer.specs.Joined.{line_of_words};
ghost use Rattle.trace_answer.specs.Written.{answer_words, init_words, issue_words};

use crate::line::LineText;
use crate::words::{put_index, put_op, put_reply, put_value};
use packet::{Operation, Reply};

/// Adds what an issue is.
fn put_issue(line: &mut LineText, processor: u32, operation: Operation)
    requires { line.old.bytes ≡ codes "issue" }
    ensures text { line.new.bytes ≡ join_with_byte 32 (issue_words processor operation) }
    ensures len { array_string_len line.new ≤ 127 }
{
    put_index(line, processor);
    put_op(line, operation.op, operation.address);
}

/// The line of an issue by a processor.
pub(crate) fn issue_line(processor: u32, operation: Operation) -> LineText
    ensures { result.bytes ≡ line_of_words (issue_words processor operation) }
{
    let mut line = LineText::new();
    line.push_str("issue");
    put_issue(&mut line, processor, operation);
    line.push_str("\n");
    line
}

/// Adds what an answer is.
fn put_answer(line: &mut LineText, processor: u32, index: u64, reply: Reply)
    requires { line.old.bytes ≡ codes "answer" }
    ensures text { line.new.bytes ≡ join_with_byte 32 (answer_words processor index reply) }
    ensures len { array_string_len line.new ≤ 127 }
{
    put_index(line, processor);
    put_value(line, index);
    put_reply(line, Some(reply));
}

/// The line of an answer to the operation of a processor that has this index.
pub(crate) fn answer_line(processor: u32, index: u64, reply: Reply) -> LineText
    ensures { result.bytes ≡ line_of_words (answer_words processor index reply) }
{
    let mut line = LineText::new();
    line.push_str("answer");
    put_answer(&mut line, processor, index, reply);
    line.push_str("\n");
    line
}

/// The line of an opening word.
pub(crate) fn init_line(address: u32, word: u64) -> LineText
    ensures { result.bytes ≡ line_of_words (init_words address word) }
{
    let mut line = LineText::new();
    line.push_str("init");
    put_index(&mut line, address);
    put_value(&mut line, word);
    line.push_str("\n");
    line
}

/// The line of the number of words.
pub(crate) fn words_line(words: u64) -> LineText
    ensures { result.bytes ≡ line_of_words (codes "words" ∷ decimal words ∷ []) }
{
    let mut line = LineText::new();
    line.push_str("words");
    put_value(&mut line, words);
    line.push_str("\n");
    line
}
