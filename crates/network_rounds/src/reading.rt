//! The packets of a traffic text.

ghost use Rattle.std.specs.Prelude.{◌≡◌, map, IfOk, OnOk};
ghost use Rattle.std.specs.Str.Lines.{lines};
ghost use Rattle.lexer.specs.Outcome.{Gives, Makes};
ghost use Rattle.network_rounds.specs.Traffic.{HasTrafficLines, after_packet_words, traffic_or_why};
ghost use Rattle.network_rounds.specs.Traffic.{traffic_spec, with_packet, no_packets};

use crate::Timed;
use crate::reason::TrafficReason;
use crate::spelling::spelled_timed;
use lexer::{Refusal, first_words, next_line};
use std::alloc::{AllocError, Allocator, Global};

/// The packets of a traffic text, and the number of the line of each.
#[derive(Drop)]
pub struct Traffic<A: Allocator = Global> {
    pub packets: Vec<Timed, A>,
    pub lines: Vec<u64, A>,
}

impl<A: Allocator + Copy> Traffic<A> {
    /// No packet.
    fn none(alloc: A) -> Traffic<A>
        ensures { traffic_spec result ≡ no_packets }
    {
        Traffic {
            packets: Vec::new(alloc),
            lines: Vec::new(alloc),
        }
    }

    /// Adds the packet of a line.
    ///
    /// Errors: out of memory.
    fn push(&mut self, number: u64, timed: Timed) -> Result<(), AllocError>
        requires { HasTrafficLines (traffic_spec self.old) }
        ensures value { OnOk result
            (traffic_spec self.new ≡ with_packet (traffic_spec self.old) number timed) }
        ensures lines { OnOk result (HasTrafficLines (traffic_spec self.new)) }
    {
        self.packets.push(timed)?;
        self.lines.push(number)?;
        Ok(())
    }

    /// Takes what the words of the line of a number give.
    fn take(&mut self, number: u64, words: &[&[u8]]) -> Result<(), TrafficReason>
        requires { HasTrafficLines (traffic_spec self.old) }
        ensures value { Makes TrafficReason.Memory (traffic_spec self.new) result
            (after_packet_words (traffic_spec self.old) number (map (λ word. word.now) words.now)) }
        ensures lines { OnOk result (HasTrafficLines (traffic_spec self.new)) }
    {
        match words {
            [] => Ok(()),
            [[b'#', ..], ..] => Ok(()),
            _ => {
                let timed = spelled_timed(words)?;
                self.push(number, timed)?;
                Ok(())
            }
        }
    }
}

/// Reads a traffic text.
///
/// Errors: where and why its first bad line is refused, or that a request for memory was.
pub fn read_traffic<A: Allocator + Copy>(
    alloc: A,
    text: &[u8],
) -> Result<Traffic<A>, Refusal<TrafficReason>>
    ensures gives { Gives TrafficReason.Memory traffic_spec result
        (traffic_or_why (lines text.now)) }
    ensures lines { IfOk result (λ traffic. HasTrafficLines (traffic_spec traffic)) }
{
    let mut traffic = Traffic::none(alloc);
    let mut number = 1u64;
    let mut rest = text;
    while let Some((line, after)) = next_line(rest) {
        let (words, count) = first_words(line);
        if let Err(reason) = traffic.take(number, &words[..count]) {
            return Err(Refusal::at(number, reason));
        }
        number += 1;
        rest = after;
    }
    Ok(traffic)
}
