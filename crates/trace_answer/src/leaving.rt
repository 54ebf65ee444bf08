//! What operations found, and what they may have left.

ghost use Rattle.std.specs.Prelude.{◌≡◌, Some};
ghost use Rattle.packet.specs.declared.kinds.Reply.TheVariants.{Old};
ghost use Rattle.trace_answer.specs.Leaving.{found_of, found_untold, left_of, left_untold};

use packet::{Op, Reply, apply};
use trace_text::Issued;

/// Some words.
#[derive(Clone, Copy)]
pub enum Words {
    /// None.
    Nothing,
    /// This one alone.
    One(u64),
    /// Any word.
    Any,
}

/// What an operation without an answer must have found to leave another word.
fn found_untold(op: Op) -> Words
    ensures { result ≡ found_untold op }
{
    match op {
        Op::Load | Op::Store(_) | Op::Swap(_) => Words::Nothing,
        Op::Cas(expected, _) => Words::One(expected),
        Op::Add(_) | Op::And(_) | Op::Or(_) | Op::Xor(_) | Op::Max(_) | Op::Min(_) => Words::Any,
    }
}

/// What an operation found that matters to it, as far as its reply tells.
pub(crate) fn found_of(issued: Issued) -> Words
    ensures { result ≡ found_of issued.operation.op issued.reply }
{
    match issued.reply {
        Some(Reply::Old(found)) => Words::One(found),
        Some(Reply::Ok) => Words::Nothing,
        None => found_untold(issued.operation.op),
    }
}

/// What an operation may leave of which no reply tells what it found.
fn left_untold(op: Op) -> Words
    ensures { result ≡ left_untold op }
{
    match op {
        Op::Load => Words::Nothing,
        Op::Store(value) | Op::Swap(value) | Op::Cas(_, value) => Words::One(value),
        Op::Add(_) | Op::And(_) | Op::Or(_) | Op::Xor(_) | Op::Max(_) | Op::Min(_) => Words::Any,
    }
}

/// What an operation leaves that found this word, if it is another one.
fn left_from(op: Op, found: u64) -> Words
    ensures { result ≡ left_of op (Some (Old found)) }
{
    let left = apply(op, found).0;
    if left == found {
        Words::Nothing
    } else {
        Words::One(left)
    }
}

/// What an operation may leave in place of another word, as far as its reply tells.
pub(crate) fn left_of(issued: Issued) -> Words
    ensures { result ≡ left_of issued.operation.op issued.reply }
{
    let op = issued.operation.op;
    match issued.reply {
        Some(Reply::Old(found)) => left_from(op, found),
        Some(Reply::Ok) => left_untold(op),
        None => left_untold(op),
    }
}
