//! The sentence that says why a traffic text is refused.

use crate::reason::TrafficReason;
use lexer::{Filled, QuotedWords, Refusal};
use std::fmt;

/// Why a traffic text is refused, as a sentence: `traffic.txt:3: at 0 send 0 2 1: rounds are counted
/// from 1 to 2147483647`.
#[derive(Clone, Copy)]
pub struct TrafficSentence<'a> {
    /// The name of the text.
    pub name: &'a str,
    pub text: &'a [u8],
    pub refusal: Refusal<TrafficReason>,
}

/// The sentence of a reason, with its gaps.
fn text_of(reason: TrafficReason) -> &'static str {
    match reason {
        TrafficReason::NotPacket => "A: a line is `at round send from to length`",
        TrafficReason::NotNumber(_) => "W: a number belongs there",
        TrafficReason::RoundLimits => "A B: rounds are counted from 1 to 2147483647",
        TrafficReason::LengthLimits => "A B C D E F: a packet has 1 to 2147483647 flits",
        TrafficReason::NotJoined => "A B C D E F: no packets go between these channels",
        TrafficReason::Memory => "a request for memory was refused",
    }
}

/// The place of the word that a reason is about.
fn place_of(reason: TrafficReason) -> u32 {
    match reason {
        TrafficReason::NotNumber(place) => place,
        _ => 0,
    }
}

impl<'a> fmt::Display for TrafficSentence<'a> {
    fn fmt<W: fmt::Write>(&self, f: &mut fmt::Formatter<W>) -> fmt::Result {
        f.write_str(self.name)?;
        if self.refusal.line != 0 {
            write!(f, ":{}", self.refusal.line)?;
        }
        f.write_str(": ")?;
        let filled = Filled {
            text: text_of(self.refusal.reason),
            words: QuotedWords::of_line(self.text, self.refusal.line),
            place: place_of(self.refusal.reason),
            number: 0,
            other: 0,
            name: "",
        };
        write!(f, "{filled}")
    }
}
