ghost use Rattle.std.specs.Prelude.{◌≡◌};
ghost use Rattle.packet.specs.Kinds.{code_of};
ghost use Rattle.packet.specs.Reading.{op_with};
ghost use Rattle.packet.specs.Spelling.{values_of_op};
ghost use Rattle.packet.specs.Names.{values_listed};

use torus::Tag;

/// An operation on one word, with the values that it brings.
#[derive(Clone, Copy, Debug, PartialEq, Eq)]
pub enum Op {
    /// Replies the word.
    Load,
    /// Writes the value.
    Store(u64),
    /// Writes the value, and replies the old word.
    Swap(u64),
    /// Writes the second value exactly if the word equals the first, and replies the old word.
    Cas(u64, u64),
    /// Adds the value modulo 2^64, and replies the old word.
    Add(u64),
    /// Keeps the bits that the value has too, and replies the old word.
    And(u64),
    /// Sets the bits of the value, and replies the old word.
    Or(u64),
    /// Flips the bits of the value, and replies the old word.
    Xor(u64),
    /// Writes the greater of the word and the value, and replies the old word.
    Max(u64),
    /// Writes the lesser of the word and the value, and replies the old word.
    Min(u64),
}

/// The name of an operation, without its values.
#[derive(Clone, Copy, Debug, PartialEq, Eq)]
pub enum Code {
    Load,
    Store,
    Swap,
    Cas,
    Add,
    And,
    Or,
    Xor,
    Max,
    Min,
}

impl Op {
    /// The operation's name.
    pub fn code(self) -> Code
        ensures { result ≡ code_of self }
    {
        match self {
            Op::Load => Code::Load,
            Op::Store(_) => Code::Store,
            Op::Swap(_) => Code::Swap,
            Op::Cas(_, _) => Code::Cas,
            Op::Add(_) => Code::Add,
            Op::And(_) => Code::And,
            Op::Or(_) => Code::Or,
            Op::Xor(_) => Code::Xor,
            Op::Max(_) => Code::Max,
            Op::Min(_) => Code::Min,
        }
    }
}

/// The values that an operation brings, in the order in which texts and packets have them.
#[derive(Clone, Copy, Debug, PartialEq, Eq)]
pub enum Values {
    None,
    One(u64),
    Two(u64, u64),
}

impl Op {
    /// The operation of this name that brings these values, as many of them as it takes.
    pub fn with(code: Code, first: u64, second: u64) -> Op
        ensures { result ≡ op_with code first second }
    {
        match code {
            Code::Load => Op::Load,
            Code::Store => Op::Store(first),
            Code::Swap => Op::Swap(first),
            Code::Cas => Op::Cas(first, second),
            Code::Add => Op::Add(first),
            Code::And => Op::And(first),
            Code::Or => Op::Or(first),
            Code::Xor => Op::Xor(first),
            Code::Max => Op::Max(first),
            Code::Min => Op::Min(first),
        }
    }

    /// The values that the operation brings.
    pub fn values(self) -> Values
        ensures { values_listed result ≡ values_of_op self }
    {
        match self {
            Op::Load => Values::None,
            Op::Store(value) => Values::One(value),
            Op::Swap(value) => Values::One(value),
            Op::Cas(expected, new) => Values::Two(expected, new),
            Op::Add(value) => Values::One(value),
            Op::And(value) => Values::One(value),
            Op::Or(value) => Values::One(value),
            Op::Xor(value) => Values::One(value),
            Op::Max(value) => Values::One(value),
            Op::Min(value) => Values::One(value),
        }
    }
}

/// What an operation is answered: `Ok` for a store, the old word for every other operation.
#[derive(Clone, Copy, Debug, PartialEq, Eq)]
pub enum Reply {
    Ok,
    Old(u64),
}

/// An operation as it is issued: an address of the shared memory, and what is done there.
#[derive(Clone, Copy, Debug, PartialEq, Eq)]
pub struct Operation {
    pub address: u32,
    pub op: Op,
}

/// A packet that asks a bank to perform an operation on one of its words.
#[derive(Clone, Copy, Debug, PartialEq, Eq)]
pub struct Request {
    /// The tile of the bank.
    pub destination: u32,
    /// The tile of the processor that asks.
    pub source: u32,
    pub tag: Tag,
    /// Which of the bank's words.
    pub word: u32,
    pub op: Op,
}

/// A packet that brings a bank's reply back.
#[derive(Clone, Copy, Debug, PartialEq, Eq)]
pub struct Response {
    /// The tile of the processor that asked.
    pub destination: u32,
    /// The tile of the bank.
    pub source: u32,
    pub tag: Tag,
    /// The number of the entry in the bank's service list, from 0.
    pub place: u32,
    pub code: Code,
    /// `Ok` exactly with the code of store.
    pub reply: Reply,
}

/// What goes over the network.
#[derive(Clone, Copy, Debug, PartialEq, Eq)]
pub enum Packet {
    Request(Request),
    Response(Response),
}
