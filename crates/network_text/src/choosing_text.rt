//! The reader of network texts.

ghost use Rattle.std.specs.Prelude.{◌≡◌, true, IfOk};
ghost use Rattle.std.specs.Str.Lines.{lines};
ghost use Rattle.lexer.specs.Outcome.{Gives};
ghost use Rattle.network_text.specs.Choosing.{choosing_of_all, text_or_why};
ghost use Rattle.network_text.specs.ChoosingRead.{choosing_text_of, IsChoosingRead, MakesChoosing};

use crate::choosing::{Choosing, Routers};
use crate::reason::NetworkReason;
use lexer::{Refusal, first_words, next_line};
use std::alloc::Allocator;

/// The network of all lines.
fn choosing_of_all<A: Allocator + Copy>(
    alloc: A,
    reading: Choosing<A>,
) -> Result<Choosing<A>, NetworkReason>
    requires { IsChoosingRead reading }
    ensures value { MakesChoosing result (choosing_of_all (choosing_text_of reading)) }
    ensures read { IfOk result IsChoosingRead }
    ensures begun { IfOk result (λ c. c.fixed.begun ≡ true) }
{
    let mut reading = reading;
    if reading.fixed.kinds.is_empty() {
        return Err(NetworkReason::ChannelsMissing);
    }
    reading.fixed.begin(alloc)?;
    Ok(reading)
}

/// Reads a network text that may have such routers.
///
/// Errors: where and why its first bad line is refused, or that a request for memory was.
pub fn read_text_or_why<A: Allocator + Copy>(
    alloc: A,
    text: &[u8],
    routers: Routers,
) -> Result<Choosing<A>, Refusal<NetworkReason>>
    ensures value { Gives NetworkReason.Memory choosing_text_of result
        (text_or_why routers (lines text.now)) }
    ensures read { IfOk result IsChoosingRead }
    ensures begun { IfOk result (λ c. c.fixed.begun ≡ true) }
{
    let mut reading = Choosing::none(alloc);
    let mut number = 1u64;
    let mut rest = text;
    while let Some((line, after)) = next_line(rest) {
        let (words, count) = first_words(line);
        if let Err(reason) = reading.take_line(alloc, routers, &words[..count]) {
            return Err(Refusal::at(number, reason));
        }
        number += 1;
        rest = after;
    }
    match choosing_of_all(alloc, reading) {
        Ok(network) => Ok(network),
        Err(reason) => Err(Refusal::at(number, reason)),
    }
}
