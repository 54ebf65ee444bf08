//! Words of a line, each after a space.

ghost use Rattle.std.specs.Prelude.{◌≡◌, List, ℕ, ◌+◌, ◌*◌, ◌≤◌, ◌∷◌, ◌++◌, length, map, decimal};
ghost use Rattle.arrayvec.specs.ArrayString.{array_string_len};
ghost use Rattle.packet.specs.Names.{values_listed};
ghost use Rattle.report_lines.specs.Line.{joined_on, op_words};
ghost use Rattle.trace_answer.specs.Texts.{told_word};

use crate::line::LineText;
use itoa::Buffer;
use packet::{Op, Reply, Values};

/// Adds a space and a word.
pub(crate) fn put_word(line: &mut LineText, word: &str)
    requires { array_string_len line.old + length word.now + 1 ≤ 128 }
    ensures text { line.new.bytes ≡ line.old.bytes ++ (32 ∷ word.now) }
    ensures len { array_string_len line.new ≡ array_string_len line.old + length word.now + 1 }
{
    line.push_str(" ");
    line.push_str(word);
}

/// Adds a space and a number of 64 bits.
pub(crate) fn put_value(line: &mut LineText, n: u64)
    requires { array_string_len line.old + 21 ≤ 128 }
    ensures text { line.new.bytes ≡ line.old.bytes ++ (32 ∷ decimal n) }
    ensures len { array_string_len line.new ≤ array_string_len line.old + 21 }
{
    let mut buffer = Buffer::new();
    put_word(line, buffer.format(n));
}

/// Adds a space and a number of 32 bits.
pub(crate) fn put_index(line: &mut LineText, n: u32)
    requires { array_string_len line.old + 11 ≤ 128 }
    ensures text { line.new.bytes ≡ line.old.bytes ++ (32 ∷ decimal n) }
    ensures len { array_string_len line.new ≤ array_string_len line.old + 11 }
{
    let mut buffer = Buffer::new();
    put_word(line, buffer.format(n));
}

/// Adds the values of an operation.
fn put_values(line: &mut LineText, values: Values)
    requires { array_string_len line.old + 21 * length (values_listed values) ≤ 128 }
    ensures text { (more : List (List ℕ))
        → line.new.bytes ++ joined_on more
        ≡ line.old.bytes ++ joined_on (map decimal (values_listed values) ++ more) }
    ensures len { array_string_len line.new
        ≤ array_string_len line.old + 21 * length (values_listed values) }
{
    match values {
        Values::None => {}
        Values::One(value) => put_value(line, value),
        Values::Two(first, second) => {
            put_value(line, first);
            put_value(line, second);
        }
    }
}

/// Adds the operation with its address and its values.
pub(crate) fn put_op(line: &mut LineText, op: Op, address: u32)
    requires { array_string_len line.old + 57 ≤ 128 }
    ensures text { (more : List (List ℕ))
        → line.new.bytes ++ joined_on more
        ≡ line.old.bytes ++ joined_on (op_words op address more) }
    ensures len { array_string_len line.new ≤ array_string_len line.old + 57 }
{
    let word = op.code().word();
    put_word(line, word);
    put_index(line, address);
    put_values(line, op.values());
}

/// Adds a space and the reply, `-` where there is none.
pub(crate) fn put_reply(line: &mut LineText, reply: Option<Reply>)
    requires { array_string_len line.old + 21 ≤ 128 }
    ensures text { line.new.bytes ≡ line.old.bytes ++ (32 ∷ told_word reply) }
    ensures len { array_string_len line.new ≤ array_string_len line.old + 21 }
{
    match reply {
        None => put_word(line, "-"),
        Some(Reply::Ok) => put_word(line, "ok"),
        Some(Reply::Old(word)) => put_value(line, word),
    }
}
