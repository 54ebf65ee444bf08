//! The move that a line of a run text spells.

ghost use Rattle.std.specs.Prelude.{◌≡◌, ◌∷◌, [], map};
ghost use Rattle.network_run.specs.Spelled.{number_of_run, packet_move, spelled_packet};
ghost use Rattle.network_run.specs.Spelled.{spelled_channel, spelled_move};

use crate::reason::{MoveKeyword, RunReason};
use lexer::index;
use network_machine::{Move, Packet};

/// What a length spells that is too large.
const MOST_LENGTH: u32 = 1 << 31;

/// The number that a word spells where one belongs, of the word at this place of its line.
fn number_of_run(place: u32, word: &[u8]) -> Result<u32, RunReason>
    ensures { result ≡ number_of_run place word.now }
{
    index(word).ok_or(RunReason::NotNumber(place))
}

/// A packet of these numbers.
fn packet_move(from: u32, to: u32, length: u32) -> Result<Move, RunReason>
    ensures { result ≡ packet_move from to length }
{
    if length >= MOST_LENGTH {
        return Err(RunReason::LengthLimits);
    }
    Ok(Move::Send(Packet {
        from: from as usize,
        to: to as usize,
        length: u64::from(length),
    }))
}

/// The packet that three words give.
fn packet_of_words(a: &[u8], b: &[u8], c: &[u8]) -> Result<Move, RunReason>
    ensures { result ≡ spelled_packet (a.now ∷ b.now ∷ c.now ∷ []) }
{
    let from = number_of_run(1, a)?;
    let to = number_of_run(2, b)?;
    let length = number_of_run(3, c)?;
    packet_move(from, to, length)
}

/// The packet behind `send`.
fn spelled_packet(values: &[&[u8]]) -> Result<Move, RunReason>
    ensures { result ≡ spelled_packet (map (λ value. value.now) values.now) }
{
    match values {
        [a, b, c] => packet_of_words(a, b, c),
        _ => Err(RunReason::NumberCount(MoveKeyword::Send)),
    }
}

/// The one channel behind another keyword.
fn spelled_channel(keyword: MoveKeyword, values: &[&[u8]]) -> Result<usize, RunReason>
    ensures { result ≡ spelled_channel keyword (map (λ value. value.now) values.now) }
{
    match values {
        [a] => Ok(number_of_run(1, a)? as usize),
        _ => Err(RunReason::NumberCount(keyword)),
    }
}

/// The move of a keyword and the words behind it.
pub(crate) fn spelled_move(keyword: MoveKeyword, values: &[&[u8]]) -> Result<Move, RunReason>
    ensures { result ≡ spelled_move keyword (map (λ value. value.now) values.now) }
{
    match keyword {
        MoveKeyword::Send => spelled_packet(values),
        MoveKeyword::More => Ok(Move::More(spelled_channel(keyword, values)?)),
        MoveKeyword::Take => Ok(Move::Take(spelled_channel(keyword, values)?)),
        MoveKeyword::Put => Ok(Move::Put(spelled_channel(keyword, values)?)),
        MoveKeyword::Accept => Ok(Move::Accept(spelled_channel(keyword, values)?)),
        MoveKeyword::Credit => Ok(Move::Credit(spelled_channel(keyword, values)?)),
    }
}
