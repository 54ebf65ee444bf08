ghost use Rattle.std.specs.Prelude.{◌≡◌, ◌+◌, ◌≤◌, ◌∷◌, ◌++◌, length, decimal, [], codes};
ghost use Rattle.std.specs.List.{join_with_byte};
ghost use Rattle.arrayvec.specs.ArrayString.{array_string_len};
ghost use Rattle.command_schedule.specs.Line.{choice_words, step_words, schedule_words, line_text};
ghost use Rattle.lexer.specs.Joined.{joined_on};

use crate::line::ScheduleLine;
use arrayvec::ArrayString;
use itoa::Buffer;
use torus::{Choice, Step};

/// The text of one line: the longest has 29 bytes, its line feed with it.
pub type LineText = ArrayString<32>;

/// A line that begins with a word.
fn started(word: &str) -> LineText
    requires { length word.now ≤ 10 }
    ensures text { result.bytes ≡ word.now }
    ensures len { array_string_len result ≤ 10 }
{
    let mut line = LineText::new();
    line.push_str(word);
    line
}

/// Adds a space and a word.
fn put_word(line: &mut LineText, word: &str)
    requires { array_string_len line.old + length word.now + 1 ≤ 32 }
    ensures text { line.new.bytes ≡ line.old.bytes ++ (32 ∷ word.now) }
    ensures len { array_string_len line.new ≡ array_string_len line.old + length word.now + 1 }
{
    line.push_str(" ");
    line.push_str(word);
}

/// Adds a word, and the number of an input or output.
fn put_numbered(line: &mut LineText, word: &str, number: u32)
    requires room { array_string_len line.old ≤ 10 }
    requires short { length word.now ≤ 6 }
    ensures text { line.new.bytes ≡ line.old.bytes ++ joined_on (word.now ∷ decimal number ∷ []) }
    ensures len { array_string_len line.new ≤ 28 }
{
    put_word(line, word);
    let mut digits = Buffer::new();
    put_word(line, digits.format(number));
}

/// Adds the words of a choice.
fn put_choice(line: &mut LineText, choice: Choice)
    requires { array_string_len line.old ≤ 10 }
    ensures text { line.new.bytes ≡ line.old.bytes ++ joined_on (choice_words choice) }
    ensures len { array_string_len line.new ≤ 28 }
{
    match choice {
        Choice::Send => put_word(line, "send"),
        Choice::Take => put_word(line, "take"),
        Choice::TakeFrom(input) => put_numbered(line, "take", input),
        Choice::Put(input) => put_numbered(line, "put", input),
        Choice::Credit => put_word(line, "credit"),
        Choice::CreditOf(output) => put_numbered(line, "credit", output),
        Choice::Serve => put_word(line, "serve"),
        Choice::Done => put_word(line, "done"),
        Choice::Look => put_word(line, "look"),
    }
}

/// The text of a move without its line feed.
fn move_text(step: Step) -> LineText
    ensures text { result.bytes ≡ join_with_byte 32 (step_words step) }
    ensures len { array_string_len result ≤ 28 }
{
    let mut agent = Buffer::new();
    let mut line = started(agent.format(step.agent));
    put_choice(&mut line, step.choice);
    line
}

/// The text of a round's heading without its line feed.
fn round_text(number: u64) -> LineText
    ensures text { result.bytes ≡ join_with_byte 32 (schedule_words (ScheduleLine.Round number)) }
    ensures len { array_string_len result ≤ 28 }
{
    let mut digits = Buffer::new();
    let mut line = started("# round");
    put_word(&mut line, digits.format(number));
    line
}

/// The text of a line, its line feed with it.
pub fn line_of(line: &ScheduleLine) -> LineText
    ensures { result.bytes ≡ line_text line.now }
{
    let mut text = match line {
        ScheduleLine::Round(number) => round_text(*number),
        ScheduleLine::Move(step) => move_text(*step),
        ScheduleLine::End(true) => started("# finished"),
        ScheduleLine::End(false) => started("# stopped"),
    };
    text.push_str("\n");
    text
}
