//! The text of a run and of its end.

ghost use Rattle.std.specs.Prelude.{◌≡◌, ◌++◌, ◌<◌, length, decimal, codes, IfOk, OnOk};
ghost use Rattle.network_text.specs.Lines.{first_lines};
ghost use Rattle.network_run.specs.Written.{move_words, move_line_at, moves_text, ending_line};
ghost use Rattle.network_run.specs.Written.{replay_line};

use crate::replaying::Replayed;
use itoa::Buffer;
use network_answer::verdict_text;
use network_judge::Verdict;
use network_machine::{Ending, Move, Packet};
use std::alloc::{AllocError, Allocator};

/// Adds a text and a number.
fn put_number<A: Allocator>(
    out: &mut Vec<u8, A>,
    before: &str,
    number: u64,
) -> Result<(), AllocError>
    ensures { OnOk result (out.new.items ≡ out.old.items ++ (before.now ++ decimal number)) }
{
    let mut digits = Buffer::new();
    out.extend_from_slice(before.as_bytes())?;
    out.extend_from_slice(digits.format(number).as_bytes())
}

/// Adds the words of a packet that is sent.
fn put_packet<A: Allocator>(out: &mut Vec<u8, A>, packet: Packet) -> Result<(), AllocError>
    ensures { OnOk result (out.new.items ≡ out.old.items ++ (codes "send " ++ decimal packet.from
        ++ (codes " " ++ decimal packet.to) ++ (codes " " ++ decimal packet.length))) }
{
    put_number(out, "send ", packet.from as u64)?;
    put_number(out, " ", packet.to as u64)?;
    put_number(out, " ", packet.length)
}

/// Adds the words of a move.
fn put_move<A: Allocator>(out: &mut Vec<u8, A>, of: Move) -> Result<(), AllocError>
    ensures { OnOk result (out.new.items ≡ out.old.items ++ move_words of) }
{
    match of {
        Move::Send(packet) => put_packet(out, packet),
        Move::More(x) => put_number(out, "more ", x as u64),
        Move::Take(x) => put_number(out, "take ", x as u64),
        Move::Put(x) => put_number(out, "put ", x as u64),
        Move::Accept(x) => put_number(out, "accept ", x as u64),
        Move::Credit(x) => put_number(out, "credit ", x as u64),
    }
}

/// Adds the line of the move at a place.
fn put_move_at<A: Allocator>(
    out: &mut Vec<u8, A>,
    moves: &[Move],
    k: usize,
) -> Result<(), AllocError>
    requires { k < length moves.now }
    ensures { OnOk result (out.new.items ≡ out.old.items ++ move_line_at moves.now k) }
{
    put_move(out, moves[k])?;
    out.extend_from_slice(b"\n")
}

/// The text of a run: a line for each move.
///
/// Errors: out of memory.
pub fn moves_text<A: Allocator + Copy>(alloc: A, moves: &[Move]) -> Result<Vec<u8, A>, AllocError>
    ensures { IfOk result (λ text. text.items ≡ moves_text moves.now) }
{
    let mut text = Vec::new(alloc);
    for k in 0..moves.len() {
        put_move_at(&mut text, moves, k)?;
    }
    Ok(text)
}

/// The line on how a run ends.
///
/// Errors: out of memory.
fn ending_text<A: Allocator + Copy>(alloc: A, ending: Ending) -> Result<Vec<u8, A>, AllocError>
    ensures { IfOk result (λ text. text.items ≡ ending_line ending) }
{
    let mut text = Vec::new(alloc);
    match ending {
        Ending::Locked => text.extend_from_slice(b"locked\n")?,
        Ending::Empty => text.extend_from_slice(b"empty\n")?,
        Ending::Goes(of) => {
            put_move(&mut text, of)?;
            text.extend_from_slice(b" may still happen\n")?;
        }
    }
    Ok(text)
}

/// The line on a replay: how its run ends, or the pair of the network that has no route.
///
/// Errors: out of memory.
pub fn replayed_text<A: Allocator + Copy>(
    alloc: A,
    replayed: Replayed,
) -> Result<Vec<u8, A>, AllocError>
    ensures { IfOk result (λ text. text.items ≡ replay_line replayed) }
{
    match replayed {
        Replayed::Ended(ending) => ending_text(alloc, ending),
        Replayed::NoRoute(r) => verdict_text(alloc, &Verdict::NoRoute(r)),
    }
}
