//! The words of each line. A line is made from its end: each word goes in front of those behind it.

ghost use Rattle.std.specs.Prelude.{◌≡◌, ℕ, List, ◌+◌, ◌≤◌, ◌∷◌, ◌++◌, length, decimal, []};
ghost use Rattle.arrayvec.specs.ArrayString.{array_string_len};
ghost use Rattle.report_lines.specs.Line.{event_word, line_text, op_words, radix_word, reply_word, words_behind};

use crate::line::{AnswerLine, EntryLine, OrderLine, Radices, ReportLine};
use crate::tail::Tail;
use arrayvec::ArrayString;
use packet::{Op, Reply, Values};

/// The text of one line: the longest has 128 bytes, its line feed with it.
pub type LineText = ArrayString<128>;

/// Puts a space and the radices in front: the one radix of all dimensions, or their list.
fn put_radices(line: &mut Tail, radices: Radices)
    requires { length line.old + 33 ≤ 128 }
    ensures text { line.new ≡ 32 ∷ radix_word radices ++ line.old }
    ensures len { length line.new ≤ length line.old + 33 }
{
    match radices {
        Radices::One(k) => line.put_index(k),
        Radices::Two(j, k) => {
            if j != k {
                line.put_crossed(k);
            }
            line.put_index(j);
        }
        Radices::Three(j, k, l) => {
            if j != k || k != l {
                line.put_crossed(l);
                line.put_crossed(k);
            }
            line.put_index(j);
        }
    }
}

/// Puts a space and the reply in front.
fn put_reply(line: &mut Tail, reply: Reply)
    requires { length line.old + 21 ≤ 128 }
    ensures text { line.new ≡ 32 ∷ reply_word reply ++ line.old }
    ensures len { length line.new ≤ length line.old + 21 }
{
    match reply {
        Reply::Ok => line.put_word("ok"),
        Reply::Old(word) => line.put_value(word),
    }
}

/// Puts a space and an event number, or a dash, in front.
fn put_event(line: &mut Tail, number: Option<u32>)
    requires { length line.old + 11 ≤ 128 }
    ensures text { line.new ≡ 32 ∷ event_word number ++ line.old }
    ensures len { length line.new ≤ length line.old + 11 }
{
    match number {
        None => line.put_word("-"),
        Some(n) => line.put_index(n),
    }
}

/// Puts the operation with its address and its values in front.
fn put_op(line: &mut Tail, op: Op, address: u32)
    requires { length line.old + 57 ≤ 128 }
    ensures text { (more : List (List ℕ))
        → line.old ≡ words_behind more
        → line.new ≡ words_behind (op_words op address more) }
    ensures len { length line.new ≤ length line.old + 57 }
{
    match op.values() {
        Values::None => (),
        Values::One(value) => line.put_value(value),
        Values::Two(first, second) => {
            line.put_value(second);
            line.put_value(first);
        }
    }
    line.put_index(address);
    line.put_word(op.code().word());
}

fn put_entry(line: &mut Tail, entry: &EntryLine)
    requires { line.old ≡ 10 ∷ [] }
    ensures { line.new ≡ line_text (ReportLine.Entry entry.now) }
{
    put_reply(line, entry.reply);
    put_op(line, entry.op, entry.address);
    line.put_index(entry.tag);
    line.put_index(entry.source);
    line.put_index(entry.place);
    line.put_index(entry.bank);
    line.put_start("entry");
}

fn put_answer(line: &mut Tail, answer: &AnswerLine)
    requires { line.old ≡ 10 ∷ [] }
    ensures { line.new ≡ line_text (ReportLine.Answer answer.now) }
{
    put_reply(line, answer.reply);
    line.put_index(answer.place);
    line.put_index(answer.bank);
    line.put_index(answer.index);
    line.put_index(answer.processor);
    line.put_start("answer");
}

fn put_order(line: &mut Tail, order: &OrderLine)
    requires { line.old ≡ 10 ∷ [] }
    ensures { line.new ≡ line_text (ReportLine.Order order.now) }
{
    put_event(line, order.answered);
    line.put_index(order.served);
    line.put_index(order.issued);
    line.put_index(order.place);
    line.put_index(order.bank);
    line.put_start("order");
}

fn put_shape(line: &mut Tail, radices: Radices, words: u32)
    requires { line.old ≡ 10 ∷ [] }
    ensures { line.new ≡ line_text (ReportLine.Shape radices words) }
{
    line.put_index(words);
    line.put_index(radices.dims());
    put_radices(line, radices);
    line.put_start("shape");
}

/// Puts a word, an address and a value in front.
fn put_pair(line: &mut Tail, word: &str, address: u32, value: u64)
    requires feed { line.old ≡ 10 ∷ [] }
    requires short { length word.now ≤ 5 }
    ensures { line.new ≡ word.now ++ (32 ∷ decimal address ++ (32 ∷ decimal value ++ 10 ∷ [])) }
{
    line.put_value(value);
    line.put_index(address);
    line.put_start(word);
}

/// Puts the words of a line in front of its line feed.
pub(crate) fn put_line(line: &mut Tail, words: &ReportLine)
    requires { line.old ≡ 10 ∷ [] }
    ensures { line.new ≡ line_text words.now }
{
    match words {
        ReportLine::Header(version) => {
            line.put_index(*version);
            line.put_start("torusmem");
        }
        ReportLine::Shape(radices, words) => put_shape(line, *radices, *words),
        ReportLine::Init(address, value) => put_pair(line, "init", *address, *value),
        ReportLine::Entry(entry) => put_entry(line, entry),
        ReportLine::Answer(answer) => put_answer(line, answer),
        ReportLine::Word(address, value) => put_pair(line, "word", *address, *value),
        ReportLine::Order(order) => put_order(line, order),
        ReportLine::End(complete) => {
            line.put_word(if *complete { "complete" } else { "incomplete" });
            line.put_start("end");
        }
    }
}

/// The text of a line, its line feed with it.
pub fn line_of(line: &ReportLine) -> LineText
    ensures { result.bytes ≡ line_text line.now }
{
    let mut tail = Tail::of_line_feed();
    put_line(&mut tail, line);
    let mut text = LineText::new();
    text.push_str(tail.text());
    text
}
