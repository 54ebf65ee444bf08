//! What a record says, whatever the records before it say.

ghost use Rattle.std.specs.Prelude.{◌≡◌};
ghost use Rattle.c_handles.specs.Numbered.{first_value, has_old, op_numbered, operation_number, reply_numbered};
ghost use Rattle.c_handles.specs.Numbered.{second_value, word_before};
ghost use Rattle.c_handles.specs.Gathered.{is_reply_to};

use packet::{Code, Op, Reply};

/// An event of a trace. Of an issue the processor counts, and the operation with its address and
/// values; of an answer the processor, which of its operations it is, from 0, and the reply.
#[repr(C)]
#[derive(Clone, Copy)]
pub struct EventRecord {
    /// 0 for an issue, 1 for an answer.
    pub kind: u32,
    pub processor: u32,
    pub operation: u32,
    pub address: u32,
    pub index: u32,
    pub has_old: u32,
    pub first: u64,
    pub second: u64,
    pub old: u64,
}

/// The operation of a number, with these values; `None` exactly where none has it.
pub fn op_numbered(number: u32, first: u64, second: u64) -> Option<Op>
    ensures { result ≡ op_numbered number first second }
{
    match number {
        0 => Some(Op::Load),
        1 => Some(Op::Store(first)),
        2 => Some(Op::Swap(first)),
        3 => Some(Op::Cas(first, second)),
        4 => Some(Op::Add(first)),
        5 => Some(Op::And(first)),
        6 => Some(Op::Or(first)),
        7 => Some(Op::Xor(first)),
        8 => Some(Op::Max(first)),
        9 => Some(Op::Min(first)),
        _ => None,
    }
}

/// The reply that is `ok` or an old word; `None` exactly where it is neither.
pub fn reply_numbered(has_old: u32, old: u64) -> Option<Reply>
    ensures { result ≡ reply_numbered has_old old }
{
    match has_old {
        0 => Some(Reply::Ok),
        1 => Some(Reply::Old(old)),
        _ => None,
    }
}

/// The number by which C knows an operation.
pub fn operation_number(op: Op) -> u32
    ensures { result ≡ operation_number op }
{
    match op {
        Op::Load => 0,
        Op::Store(_) => 1,
        Op::Swap(_) => 2,
        Op::Cas(_, _) => 3,
        Op::Add(_) => 4,
        Op::And(_) => 5,
        Op::Or(_) => 6,
        Op::Xor(_) => 7,
        Op::Max(_) => 8,
        Op::Min(_) => 9,
    }
}

/// The first value that an operation brings, or 0.
pub fn first_value(op: Op) -> u64
    ensures { result ≡ first_value op }
{
    match op {
        Op::Load => 0,
        Op::Store(value)
        | Op::Swap(value)
        | Op::Cas(value, _)
        | Op::Add(value)
        | Op::And(value)
        | Op::Or(value)
        | Op::Xor(value)
        | Op::Max(value)
        | Op::Min(value) => value,
    }
}

/// The second value of a compare-and-swap, or 0.
pub fn second_value(op: Op) -> u64
    ensures { result ≡ second_value op }
{
    match op {
        Op::Cas(_, new) => new,
        _ => 0,
    }
}

/// Whether a reply is an old word.
pub fn has_old(reply: Reply) -> u32
    ensures { result ≡ has_old reply }
{
    match reply {
        Reply::Ok => 0,
        Reply::Old(_) => 1,
    }
}

/// The old word of a reply, or 0.
pub fn old_word(reply: Reply) -> u64
    ensures { result ≡ word_before reply }
{
    match reply {
        Reply::Ok => 0,
        Reply::Old(word) => word,
    }
}

impl EventRecord {
    /// The operation that it names.
    pub(crate) fn op(self) -> Option<Op>
        ensures { result ≡ op_numbered self.operation self.first self.second }
    {
        op_numbered(self.operation, self.first, self.second)
    }

    /// The reply that it carries.
    pub(crate) fn reply(self) -> Option<Reply>
        ensures { result ≡ reply_numbered self.has_old self.old }
    {
        reply_numbered(self.has_old, self.old)
    }
}

/// Whether a reply goes with an operation: `ok` with a store, and an old word with every other one.
pub(crate) fn is_reply_to(op: Op, reply: Reply) -> bool
    ensures { result ≡ is_reply_to op reply }
{
    match reply {
        Reply::Ok => matches!(op.code(), Code::Store),
        Reply::Old(_) => !matches!(op.code(), Code::Store),
    }
}
