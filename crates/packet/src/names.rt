//! The words that name the operations in every text.

ghost use Rattle.std.specs.Prelude.{◌≡◌};
ghost use Rattle.packet.specs.Names.{arity, code_named, code_word};

use crate::kinds::Code;

impl Code {
    /// The word that names the operation in every text.
    pub fn word(self) -> &'static str
        ensures { result.now ≡ code_word self }
    {
        match self {
            Code::Load => "load",
            Code::Store => "store",
            Code::Swap => "swap",
            Code::Cas => "cas",
            Code::Add => "add",
            Code::And => "and",
            Code::Or => "or",
            Code::Xor => "xor",
            Code::Max => "max",
            Code::Min => "min",
        }
    }

    /// The operation that a word names.
    pub fn named(word: &[u8]) -> Option<Code>
        ensures { result ≡ code_named word.now }
    {
        match word {
            b"load" => Some(Code::Load),
            b"store" => Some(Code::Store),
            b"swap" => Some(Code::Swap),
            b"cas" => Some(Code::Cas),
            b"add" => Some(Code::Add),
            b"and" => Some(Code::And),
            b"or" => Some(Code::Or),
            b"xor" => Some(Code::Xor),
            b"max" => Some(Code::Max),
            b"min" => Some(Code::Min),
            _ => None,
        }
    }

    /// How many values stand behind the operation and its address: none to two.
    pub fn arity(self) -> usize
        ensures { result ≡ arity self }
    {
        match self {
            Code::Load => 0,
            Code::Cas => 2,
            _ => 1,
        }
    }
}
