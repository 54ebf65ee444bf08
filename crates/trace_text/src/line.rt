//! What the words of a line of a trace give: the one reader of such lines.

ghost use Rattle.std.specs.Prelude.{◌≡◌, IfOk, codes, map};
ghost use Rattle.trace_lines.specs.Head.{after_init_line, after_title};
ghost use Rattle.trace_text.specs.Lines.{HasProcessor, ReadsLine, answer_given, head_given};
ghost use Rattle.trace_text.specs.Lines.{issue_given};
ghost use Rattle.trace_text.specs.Lines.{issue_of_form, keyword_given, line_given, words_within};

use crate::reason::{Keyword, TraceReason};
use packet::Operation;
use std::alloc::Allocator;
use trace_lines::{Form, Head, LineReason, number_at, spelled_form, told_of};

/// What a line of a trace gives beside the head.
#[derive(Clone, Copy)]
pub enum TraceLine {
    /// Nothing: the line has no words, is a comment or is one of the head.
    Nothing,
    /// A processor, below 4096, issues an operation.
    Issue {
        processor: u32,
        operation: Operation,
    },
    /// The operation of a processor, below 4096, that has this index is answered: by a number, or
    /// by `ok`.
    Answer {
        processor: u32,
        index: u128,
        told: Option<u128>,
    },
}

/// Takes the words of a line: those of the head, of which the memory has at most so many words, go
/// to `head`. An opening word behind an operation `is_late`.
///
/// Errors: why the line is refused, or out of memory.
pub fn read_line<A: Allocator + Copy>(
    head: &mut Head<A>,
    most: u64,
    is_late: bool,
    words: &[&[u8]],
) -> Result<TraceLine, TraceReason>
    ensures read { ReadsLine head.new result
        (line_given most is_late head.old (map (λ word. word.now) words.now)) }
    ensures processor { IfOk result HasProcessor }
{
    match words {
        [] => Ok(TraceLine::Nothing),
        [[b'#', ..], ..] => Ok(TraceLine::Nothing),
        [keyword, values @ ..] => read_keyword(head, most, is_late, keyword, values),
    }
}

/// Takes a line by its keyword.
fn read_keyword<A: Allocator + Copy>(
    head: &mut Head<A>,
    most: u64,
    is_late: bool,
    keyword: &[u8],
    values: &[&[u8]],
) -> Result<TraceLine, TraceReason>
    ensures read { ReadsLine head.new result
        (keyword_given most is_late head.old keyword.now (map (λ value. value.now) values.now)) }
    ensures processor { IfOk result HasProcessor }
{
    if !head.begun() {
        return read_title(head, keyword, values);
    }
    if keyword == b"issue".as_slice() {
        return read_issue(head, values);
    }
    if keyword == b"answer".as_slice() {
        return read_answer(head, values);
    }
    if keyword == b"init".as_slice() {
        return read_init(head, is_late, values);
    }
    if keyword == b"words".as_slice() {
        return read_words(head, most, values);
    }
    Err(TraceReason::UnknownKeyword)
}

/// Takes the first line.
fn read_title<A: Allocator + Copy>(
    head: &mut Head<A>,
    keyword: &[u8],
    values: &[&[u8]],
) -> Result<TraceLine, TraceReason>
    ensures read { ReadsLine head.new result (head_given (after_title head.old (codes "trace")
        keyword.now (map (λ value. value.now) values.now))) }
    ensures processor { IfOk result HasProcessor }
{
    head.take_title(b"trace".as_slice(), keyword, values)?;
    Ok(TraceLine::Nothing)
}

/// Takes the number of words, at most so many.
fn read_words<A: Allocator + Copy>(
    head: &mut Head<A>,
    most: u64,
    values: &[&[u8]],
) -> Result<TraceLine, TraceReason>
    ensures read { ReadsLine head.new result
        (head_given (words_within most head.old (map (λ value. value.now) values.now))) }
    ensures processor { IfOk result HasProcessor }
{
    head.take_words(values)?;
    if head.words() > most {
        return Err(TraceReason::Line(LineReason::WordsLimits));
    }
    Ok(TraceLine::Nothing)
}

/// Takes the address and the value of an opening word.
fn read_init<A: Allocator + Copy>(
    head: &mut Head<A>,
    is_late: bool,
    values: &[&[u8]],
) -> Result<TraceLine, TraceReason>
    ensures read { ReadsLine head.new result (head_given
        (after_init_line head.old is_late (map (λ value. value.now) values.now))) }
    ensures processor { IfOk result HasProcessor }
{
    head.take_init(is_late, values)?;
    Ok(TraceLine::Nothing)
}

/// The processor and the operation of an issue.
fn read_issue<A: Allocator>(head: &Head<A>, values: &[&[u8]]) -> Result<TraceLine, TraceReason>
    ensures read { result ≡ issue_given head.now (map (λ value. value.now) values.now) }
    ensures processor { IfOk result HasProcessor }
{
    match values {
        [processor, word, operands @ ..] => {
            let p = number_at(1, processor)?;
            let form = spelled_form(word, operands)?;
            issue_of_form(head, p, form)
        }
        _ => Err(TraceReason::WordCount(Keyword::Issue)),
    }
}

/// The issue of an operation by a processor.
fn issue_of_form<A: Allocator>(
    head: &Head<A>,
    p: u128,
    form: Form,
) -> Result<TraceLine, TraceReason>
    ensures read { result ≡ issue_of_form head.now p form }
    ensures processor { IfOk result HasProcessor }
{
    let processor = head.processor(p)?;
    let operation = form.operation(head.words())?;
    Ok(TraceLine::Issue {
        processor,
        operation,
    })
}

/// The processor, the index and the reply of an answer.
fn read_answer<A: Allocator>(head: &Head<A>, values: &[&[u8]]) -> Result<TraceLine, TraceReason>
    ensures read { result ≡ answer_given head.now (map (λ value. value.now) values.now) }
    ensures processor { IfOk result HasProcessor }
{
    match values {
        [processor, index, reply] => {
            let p = number_at(1, processor)?;
            let index = number_at(2, index)?;
            let told = told_of(reply)?;
            let processor = head.processor(p)?;
            Ok(TraceLine::Answer {
                processor,
                index,
                told,
            })
        }
        _ => Err(TraceReason::WordCount(Keyword::Answer)),
    }
}
