//! The sentence that tells a reader why a run text is refused.

use crate::reason::{MoveKeyword, RunReason};
use lexer::{Filled, QuotedWords, Refusal};
use network_machine::Hindrance;
use std::fmt;

/// Why a run text is refused, as a sentence: `run.txt:3: put 5: channel 7 has no credit`.
#[derive(Clone, Copy)]
pub struct RunSentence<'a> {
    /// The name of the text.
    pub name: &'a str,
    pub text: &'a [u8],
    pub refusal: Refusal<RunReason>,
}

/// What stands behind a keyword.
fn numbers_text(keyword: MoveKeyword) -> &'static str {
    match keyword {
        MoveKeyword::Send => "stand two channels and a number of flits",
        _ => "stands one channel",
    }
}

/// The sentence of a hindrance, with its gaps.
fn hindrance_text(hindrance: Hindrance) -> &'static str {
    match hindrance {
        Hindrance::NoChannel(_) => "A B: the network has no such channel",
        Hindrance::NoInjection(_) => "A B: it is no injection channel",
        Hindrance::Ejection(_) => "A B: it is an ejection channel, from which no router takes",
        Hindrance::NoEjection(_) => "A B: it is no ejection channel",
        Hindrance::NotJoined(_, _) => "A B C: no packets go from channel N to channel M",
        Hindrance::NoFlit => "A B C D: a packet has a flit at least",
        Hindrance::InCourse(_) => "A B C D: the sender of channel N has a packet in course",
        Hindrance::NotInCourse(_) => "A B: the sender of channel N has no packet in course",
        Hindrance::NoCredit(_) => "A B: channel N has no credit",
        Hindrance::NotReturning(_) => "A B: no credit of channel N is on its way back",
        Hindrance::LatchFull(_) => "A B: the latch behind channel N is full",
        Hindrance::LatchEmpty(_) => "A B: the latch behind channel N is empty",
        Hindrance::Empty(_) => "A B: channel N is empty",
        Hindrance::Owned(_, _) => "A B: channel N belongs to a packet that comes from channel M",
        Hindrance::NoOutput(_) => "A B: the flit behind channel N has no output with a credit",
        Hindrance::NoAnswer(_) => "A B: channel N, on which the receiver answers, has no credit",
    }
}

/// The channels that a hindrance names.
fn channels_of(hindrance: Hindrance) -> (usize, usize) {
    match hindrance {
        Hindrance::NoFlit => (0, 0),
        Hindrance::NotJoined(x, y) | Hindrance::Owned(x, y) => (x, y),
        Hindrance::NoChannel(x)
        | Hindrance::NoInjection(x)
        | Hindrance::Ejection(x)
        | Hindrance::NoEjection(x)
        | Hindrance::InCourse(x)
        | Hindrance::NotInCourse(x)
        | Hindrance::NoCredit(x)
        | Hindrance::NotReturning(x)
        | Hindrance::LatchFull(x)
        | Hindrance::LatchEmpty(x)
        | Hindrance::Empty(x)
        | Hindrance::NoOutput(x)
        | Hindrance::NoAnswer(x) => (x, 0),
    }
}

/// The sentence of a reason, with its gaps.
fn text_of(reason: RunReason) -> &'static str {
    match reason {
        RunReason::UnknownKeyword => {
            "A: a line begins with send, more, take, put, accept or credit"
        }
        RunReason::NumberCount(_) => "A: behind it K",
        RunReason::NotNumber(_) => "W: a number belongs there",
        RunReason::LengthLimits => "A B C D: a packet has at most 2147483647 flits",
        RunReason::Hindered(hindrance) => hindrance_text(hindrance),
        RunReason::Memory => "a request for memory was refused",
    }
}

/// The place of the word that a reason is about, the channels that it names, and what it says to
/// stand behind a keyword.
fn gaps_of(reason: RunReason) -> (u32, (usize, usize), &'static str) {
    match reason {
        RunReason::NotNumber(place) => (place, (0, 0), ""),
        RunReason::NumberCount(keyword) => (0, (0, 0), numbers_text(keyword)),
        RunReason::Hindered(hindrance) => (0, channels_of(hindrance), ""),
        _ => (0, (0, 0), ""),
    }
}

impl<'a> fmt::Display for RunSentence<'a> {
    fn fmt<W: fmt::Write>(&self, f: &mut fmt::Formatter<W>) -> fmt::Result {
        f.write_str(self.name)?;
        if self.refusal.line != 0 {
            write!(f, ":{}", self.refusal.line)?;
        }
        f.write_str(": ")?;
        let (place, (number, other), name) = gaps_of(self.refusal.reason);
        let filled = Filled {
            text: text_of(self.refusal.reason),
            words: QuotedWords::of_line(self.text, self.refusal.line),
            place,
            number: number as u128,
            other: other as u128,
            name,
        };
        write!(f, "{filled}")
    }
}
