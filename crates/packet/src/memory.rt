ghost use Rattle.std.specs.Prelude.{◌≡◌};
ghost use Rattle.packet.specs.Memory.{new_word, reply_to};

use crate::{Op, Reply};

/// Performs an operation on a word: the word that it leaves, and its reply. All modulo 2^64.
pub fn apply(op: Op, word: u64) -> (u64, Reply)
    ensures { result ≡ (new_word op word, reply_to op word) }
{
    match op {
        Op::Load => (word, Reply::Old(word)),
        Op::Store(value) => (value, Reply::Ok),
        Op::Swap(value) => (value, Reply::Old(word)),
        Op::Cas(expected, new) => (if word == expected { new } else { word }, Reply::Old(word)),
        Op::Add(value) => (word.wrapping_add(value), Reply::Old(word)),
        Op::And(value) => (word & value, Reply::Old(word)),
        Op::Or(value) => (word | value, Reply::Old(word)),
        Op::Xor(value) => (word ^ value, Reply::Old(word)),
        Op::Max(value) => (word.max(value), Reply::Old(word)),
        Op::Min(value) => (word.min(value), Reply::Old(word)),
    }
}
