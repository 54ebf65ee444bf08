//! The operations of entries, and the replies and events of lines.

ghost use Rattle.std.specs.Prelude.{◌≡◌};
ghost use Rattle.std.specs.List.{after_first, before_first};
ghost use Rattle.packet.specs.Names.{arity};
ghost use Rattle.report_lines.specs.Reading.{GivesRead, reply_read_at, event_at, is_space};
ghost use Rattle.report_lines.specs.Reading.{values_at, op_at};

use crate::numbers::{behind, read_index, read_number};
use packet::{Code, Op, Reply};

/// A reply at the end of a line.
#[tactic(auto, unfolding(crate::specs::Reading::reply_read_at))]
pub(crate) fn read_reply(text: &[u8]) -> Option<(Reply, &[u8])>
    ensures { GivesRead (λ x. (x.0, x.1.now)) result (reply_read_at text.now) }
{
    if let Some(rest) = behind(text, "ok\n") {
        return Some((Reply::Ok, rest));
    }
    let (old, rest) = read_number(text, b'\n')?;
    Some((Reply::Old(old), rest))
}

/// An event number or a dash at the end of a line.
#[tactic(auto, unfolding(crate::specs::Reading::event_at))]
pub(crate) fn read_event(text: &[u8]) -> Option<(Option<u32>, &[u8])>
    ensures { GivesRead (λ x. (x.0, x.1.now)) result (event_at text.now) }
{
    if let Some(rest) = behind(text, "-\n") {
        return Some((None, rest));
    }
    let (event, rest) = read_index(text, b'\n')?;
    Some((Some(event), rest))
}

/// The word up to the first space, and what stands behind that space.
fn next_word(text: &[u8]) -> (&[u8], &[u8])
    ensures word { result.0.now ≡ before_first is_space text.now }
    ensures rest { result.1.now ≡ after_first is_space text.now }
{
    for (at, &byte) in text.iter().enumerate() {
        if byte == b' ' {
            return (&text[..at], &text[at + 1..]);
        }
    }
    (text, &[])
}

/// The values of an operation, each up to a space; 0 for one that it doesn't bring.
#[tactic(auto, unfolding(crate::specs::Reading::values_at))]
fn read_values(text: &[u8], code: Code) -> Option<(u64, u64, &[u8])>
    ensures { GivesRead (λ x. (x.0, x.1, x.2.now)) result (values_at (arity code) text.now) }
{
    match code.arity() {
        0 => Some((0, 0, text)),
        1 => {
            let (value, rest) = read_number(text, b' ')?;
            Some((value, 0, rest))
        }
        _ => {
            let (first, rest) = read_number(text, b' ')?;
            let (second, rest) = read_number(rest, b' ')?;
            Some((first, second, rest))
        }
    }
}

/// An operation with its address, up to the space behind them.
#[tactic(auto, unfolding(crate::specs::Reading::op_at))]
pub(crate) fn read_op(text: &[u8]) -> Option<(Op, u32, &[u8])>
    ensures { GivesRead (λ x. (x.0, x.1, x.2.now)) result (op_at text.now) }
{
    let (word, rest) = next_word(text);
    let code = Code::named(word)?;
    let (address, rest) = read_index(rest, b' ')?;
    let (first, second, rest) = read_values(rest, code)?;
    Some((Op::with(code, first, second), address, rest))
}
