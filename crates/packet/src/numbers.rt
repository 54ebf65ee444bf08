//! Operations, their values and replies by numbers, as flits, records and rows have them.

ghost use Rattle.std.specs.Prelude.{◌≡◌, ◌<◌};
ghost use Rattle.packet.specs.Numbers.{code_number, code_of_number, op_of_number, reply_number, reply_of_number};
ghost use Rattle.packet.specs.Spelling.{first_value, second_value, old_word};

use crate::kinds::{Code, Op, Reply, Values};

impl Code {
    /// The number of the operation, from 0 for a load to 9 for a minimum.
    pub fn number(self) -> u32
        ensures value { result ≡ code_number self }
        ensures below { result < 10 }
    {
        match self {
            Code::Load => 0,
            Code::Store => 1,
            Code::Swap => 2,
            Code::Cas => 3,
            Code::Add => 4,
            Code::And => 5,
            Code::Or => 6,
            Code::Xor => 7,
            Code::Max => 8,
            Code::Min => 9,
        }
    }

    /// The operation of a number; `None` exactly above 9.
    pub fn numbered(number: u32) -> Option<Code>
        ensures { result ≡ code_of_number number }
    {
        match number {
            0 => Some(Code::Load),
            1 => Some(Code::Store),
            2 => Some(Code::Swap),
            3 => Some(Code::Cas),
            4 => Some(Code::Add),
            5 => Some(Code::And),
            6 => Some(Code::Or),
            7 => Some(Code::Xor),
            8 => Some(Code::Max),
            9 => Some(Code::Min),
            _ => None,
        }
    }
}

impl Op {
    /// The operation of a number that brings these values, as many of them as it takes; `None` exactly
    /// above 9.
    pub fn numbered(number: u32, first: u64, second: u64) -> Option<Op>
        ensures { result ≡ op_of_number number first second }
    {
        match Code::numbered(number) {
            Some(code) => Some(Op::with(code, first, second)),
            None => None,
        }
    }

    /// The first value that the operation brings, 0 if it brings none.
    pub fn first_value(self) -> u64
        ensures { result ≡ first_value self }
    {
        match self.values() {
            Values::None => 0,
            Values::One(value) => value,
            Values::Two(value, _) => value,
        }
    }

    /// The second value that the operation brings, 0 if it brings fewer.
    pub fn second_value(self) -> u64
        ensures { result ≡ second_value self }
    {
        match self.values() {
            Values::None => 0,
            Values::One(_) => 0,
            Values::Two(_, value) => value,
        }
    }
}

impl Reply {
    /// The number of the reply: 0 for `ok`, 1 for an old word.
    pub fn number(self) -> u32
        ensures { result ≡ reply_number self }
    {
        match self {
            Reply::Ok => 0,
            Reply::Old(_) => 1,
        }
    }

    /// The reply of a number, which brings this word if it brings one; `None` exactly above 1.
    pub fn numbered(number: u32, word: u64) -> Option<Reply>
        ensures { result ≡ reply_of_number number word }
    {
        match number {
            0 => Some(Reply::Ok),
            1 => Some(Reply::Old(word)),
            _ => None,
        }
    }

    /// The old word that the reply brings, 0 for `ok`.
    pub fn old_word(self) -> u64
        ensures { result ≡ old_word self }
    {
        match self {
            Reply::Ok => 0,
            Reply::Old(word) => word,
        }
    }
}
