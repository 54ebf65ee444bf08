ghost use Rattle.std.specs.Prelude.{◌≡◌, ◌≤◌, ◌+◌, ◌∷◌, ◌++◌, [], codes, decimal, length};
ghost use Rattle.arrayvec.specs.ArrayString.{array_string_len};
ghost use Rattle.report_lines.specs.Line.{reply_word};
ghost use Rattle.command_live.specs.Text.{told_text, yes_or_no};

use crate::told::Told;
use arrayvec::ArrayString;
use itoa::Buffer;
use lexer::LineFault;
use packet::Reply;

/// The text of an answer, with its line feed.
pub type ToldText = ArrayString<96>;

/// These words, which begin a line.
pub(crate) fn begun(words: &str) -> ToldText
    requires { length words.now ≤ 10 }
    ensures text { result.bytes ≡ words.now }
    ensures len { array_string_len result ≤ 10 }
{
    let mut text = ArrayString::new();
    text.push_str(words);
    text
}

/// Adds a space and a word.
pub(crate) fn put_word(text: &mut ToldText, word: &str)
    requires { array_string_len text.old + length word.now + 1 ≤ 96 }
    ensures text { text.new.bytes ≡ text.old.bytes ++ (32 ∷ word.now) }
    ensures len { array_string_len text.new ≡ array_string_len text.old + length word.now + 1 }
{
    text.push_str(" ");
    text.push_str(word);
}

/// Adds a space and a number of 32 bits.
pub(crate) fn put_index(text: &mut ToldText, n: u32)
    requires { array_string_len text.old + 11 ≤ 96 }
    ensures text { text.new.bytes ≡ text.old.bytes ++ (32 ∷ decimal n) }
    ensures len { array_string_len text.new ≤ array_string_len text.old + 11 }
{
    let mut buffer = Buffer::new();
    put_word(text, buffer.format(n));
}

/// Adds a space and a number of 64 bits.
fn put_value(text: &mut ToldText, n: u64)
    requires { array_string_len text.old + 21 ≤ 96 }
    ensures text { text.new.bytes ≡ text.old.bytes ++ (32 ∷ decimal n) }
    ensures len { array_string_len text.new ≤ array_string_len text.old + 21 }
{
    let mut buffer = Buffer::new();
    put_word(text, buffer.format(n));
}

/// Adds a space and a reply.
fn put_reply(text: &mut ToldText, reply: Reply)
    requires { array_string_len text.old + 21 ≤ 96 }
    ensures text { text.new.bytes ≡ text.old.bytes ++ (32 ∷ reply_word reply) }
    ensures len { array_string_len text.new ≤ array_string_len text.old + 21 }
{
    match reply {
        Reply::Ok => put_word(text, "ok"),
        Reply::Old(word) => put_value(text, word),
    }
}

/// Ends the line.
pub(crate) fn ended(mut text: ToldText) -> ToldText
    requires { array_string_len text ≤ 95 }
    ensures { result.bytes ≡ text.bytes ++ (10 ∷ []) }
{
    text.push_str("\n");
    text
}

/// That a processor was handed a line, and the index of its operation, where it is known.
fn asked(processor: u32, index: Option<u32>) -> ToldText
    ensures { result.bytes ≡ told_text (Told.Asked processor index) }
{
    let mut text = begun("asked");
    put_index(&mut text, processor);
    if let Some(index) = index {
        put_index(&mut text, index);
    }
    ended(text)
}

/// The reply to an operation.
fn answered(processor: u32, index: u32, reply: Reply) -> ToldText
    ensures { result.bytes ≡ told_text (Told.Answered processor index reply) }
{
    let mut text = begun("answer");
    put_index(&mut text, processor);
    put_index(&mut text, index);
    put_reply(&mut text, reply);
    ended(text)
}

/// These words, and a number.
fn numbered(words: &str, number: u64) -> ToldText
    requires { length words.now ≤ 10 }
    ensures { result.bytes ≡ words.now ++ (32 ∷ decimal number) ++ (10 ∷ []) }
{
    let mut text = begun(words);
    put_value(&mut text, number);
    ended(text)
}

/// The word at an address.
fn word_at(address: u32, word: u64) -> ToldText
    ensures { result.bytes ≡ told_text (Told.Word address word) }
{
    let mut text = begun("word");
    put_index(&mut text, address);
    put_value(&mut text, word);
    ended(text)
}

/// These words, and `yes` or `no`.
fn flagged(words: &str, is: bool) -> ToldText
    requires { length words.now ≤ 10 }
    ensures { result.bytes ≡ words.now ++ (32 ∷ yes_or_no is) ++ (10 ∷ []) }
{
    let mut text = begun(words);
    put_word(&mut text, if is { "yes" } else { "no" });
    ended(text)
}

/// The fault of a record's text, and its line.
fn bad_text(fault: LineFault) -> ToldText
    ensures { result.bytes ≡ told_text (Told.BadText fault) }
{
    let mut text = begun("bad text");
    put_word(&mut text, fault.fault.code());
    put_value(&mut text, fault.line);
    ended(text)
}

/// The text of an answer: `asked 0 3`, `answer 0 3 17`, `moved yes`, `rounds 12`, `idle`, `finished yes`,
/// `word 5 17`, `rows 4`, `loaded`, `no record`, `bad byte 8`, `bad action 3`, `bad text F4 1`, `fault F7` or
/// `bad line`, with a line feed. `asked` has no index where none is known; where nothing is answered, it is empty.
pub fn told_text(told: Told) -> ToldText
    ensures { result.bytes ≡ told_text told }
{
    match told {
        Told::Nothing => ArrayString::new(),
        Told::Asked(processor, index) => asked(processor, index),
        Told::Answered(processor, index, reply) => answered(processor, index, reply),
        Told::Idle => ended(begun("idle")),
        Told::Moved(is) => flagged("moved", is),
        Told::Rounds(count) => numbered("rounds", count),
        Told::Finished(is) => flagged("finished", is),
        Told::Word(address, word) => word_at(address, word),
        Told::Rows(count) => numbered("rows", count),
        Told::Loaded => ended(begun("loaded")),
        Told::NoRecord => ended(begun("no record")),
        Told::BadByte(place) => numbered("bad byte", place),
        Told::BadAction(number) => numbered("bad action", number),
        Told::BadText(fault) => bad_text(fault),
        Told::Refused(fault) => {
            let mut text = begun("fault");
            put_word(&mut text, fault.code());
            ended(text)
        }
        Told::BadLine => ended(begun("bad line")),
    }
}
