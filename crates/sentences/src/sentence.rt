use crate::before::earlier_line;
use lexer::{Filled, QuotedWords};
use packet::Code;
use script::{Agent, Keyword, TextReason};
use std::fmt;

/// Why a text has a fault at a line: `script.txt:12: address 300: the machine has the words 0 to 255`.
#[derive(Clone, Copy)]
pub struct Sentence<'a> {
    /// The name of the text.
    pub name: &'a str,
    pub text: &'a [u8],
    /// The line of the fault, from 1; 0 where a request for memory was refused.
    pub line: u64,
    pub reason: TextReason,
}

/// What stands behind a keyword.
fn numbers_text(keyword: Keyword) -> &'static str {
    match keyword {
        Keyword::Radix => "one to three numbers",
        Keyword::Dims => "one number",
        Keyword::Dateline => "one to three numbers",
        Keyword::Depth => "one number",
        Keyword::Tags => "one number",
        Keyword::Words => "one number",
        Keyword::Init => "an address and a value",
    }
}

/// What stands behind an operation of a script.
fn operands_text(operation: &[u8]) -> &'static str {
    if operation == b"fence".as_slice() {
        return "nothing";
    }
    match Code::named(operation) {
        Some(code) => match code.arity() {
            0 => "an address",
            1 => "an address and a value",
            _ => "an address and two values",
        },
        None => "an address, a value and a number of loads",
    }
}

/// The name of a kind of agents, and its choices.
fn agent_text(agent: Agent) -> &'static str {
    match agent {
        Agent::Processor => "a processor: its choices are send, take, credit, done and look",
        Agent::Router => "a router: its choices are take, put and credit, each with a number",
        Agent::Bank => "a bank: its choices are take, serve, send and credit",
    }
}

/// The name of a kind of agents.
fn kind_text(agent: Agent) -> &'static str {
    match agent {
        Agent::Processor => "processor",
        Agent::Router => "router",
        Agent::Bank => "bank",
    }
}

/// The text of a reason, with gaps for its numbers.
fn text_of(reason: TextReason) -> &'static str {
    match reason {
        TextReason::UnknownKeyword => {
            "A: a line begins with radix, dims, dateline, depth, tags, words or init"
        }
        TextReason::NumberCount(_) => "A: behind it stand K",
        TextReason::NotNumber(_) => "W: a number belongs there",
        TextReason::GivenTwice(_) => "A: it is given at line N already",
        TextReason::DatelineBefore(_) => {
            "dateline: it comes behind radix and dims, and K is not given yet"
        }
        TextReason::InitBefore(_) => {
            "init: it comes behind radix, dims, depth, tags and words, and K is not given yet"
        }
        TextReason::InitTwice(_) => { "address B: its opening word is given at line N already" }
        TextReason::Missing(_) => "the text ends without K",
        TextReason::RadixLimits(_) => "radix W: a radix is 2 to 8",
        TextReason::DimsLimits => "dims B: there are 1 to 3 dimensions",
        TextReason::TooManyTiles(_) => "N tiles: there are at most 64",
        TextReason::RadixCount(_, _) => {
            "N radices for M dimensions: one stands for all, or each has its own"
        }
        TextReason::DatelineCount(_, _) => { "N datelines for M dimensions: each has its own" }
        TextReason::DatelineLimits(_, _) => "dateline W: it is below its radix, which is N",
        TextReason::DepthLimits => "depth B: a depth is 1 to 8",
        TextReason::TagsLimits => "tags B: a processor has 1 to 16 tags",
        TextReason::WordsLimits => "words B: a memory has 1 to 65536 words",
        TextReason::AddressLimits(_, _) => "address W: the machine has the words 0 to N",
        TextReason::ValueLimits(_) => "value W: a value is below 2^64",
        TextReason::ProcessorAlone => "A: an operation belongs behind the processor",
        TextReason::UnknownOperation => "B: there is no such operation",
        TextReason::OperandCount => "B: behind it stands K",
        TextReason::NotValue(_) => "W: a number or last belongs there",
        TextReason::ProcessorLimits(_) => "processor A: the machine has the processors 0 to N",
        TextReason::SpinLimits => "W loads: a spin makes 1 to 4096",
        TextReason::LastFirst => "last: processor A has no operation before it",
        TextReason::ScriptLength(_) => { "N operations of processor A: a script has at most 4096" }
        TextReason::ScriptsLength(_) => { "N operations: all scripts together have at most 65536" }
        TextReason::StepCount => "a step is an agent, a choice, and for a router a number",
        TextReason::UnknownChoice => {
            "B: a choice is send, take, put, credit, serve, done or look"
        }
        TextReason::AgentLimits(_) => "agent A: the machine has the agents 0 to N",
        TextReason::NoChoice(_) => "B: agent A is K",
        TextReason::PortWanted => {
            "B: the number of an input or output belongs behind a router's choice"
        }
        TextReason::PortUnwanted(_) => { "B C: agent A is a K, whose choices have no number" }
        TextReason::PortLimits(_) => "B C: a router has the inputs and outputs 0 to N",
        TextReason::Memory => "a request for memory was refused while it was read",
    }
}

/// The place of the word that a reason is about.
fn place_of(reason: TextReason) -> u32 {
    match reason {
        TextReason::NotNumber(place) => place,
        TextReason::RadixLimits(place) => place,
        TextReason::DatelineLimits(place, _) => place,
        TextReason::AddressLimits(place, _) => place,
        TextReason::ValueLimits(place) => place,
        TextReason::NotValue(place) => place,
        TextReason::SpinLimits => 4,
        _ => 0,
    }
}

/// The number that is told of a refusal: a count, a limit, the last of so many, or the line before
/// that gave the same.
fn number_of(text: &[u8], line: u64, reason: TextReason) -> u64 {
    match reason {
        TextReason::TooManyTiles(tiles) => u64::from(tiles),
        TextReason::RadixCount(radices, _) => u64::from(radices),
        TextReason::DatelineCount(datelines, _) => u64::from(datelines),
        TextReason::DatelineLimits(_, radix) => u64::from(radix),
        TextReason::AddressLimits(_, words) => last_of(words),
        TextReason::ProcessorLimits(tiles) => last_of(tiles),
        TextReason::ScriptLength(operations) => u64::from(operations),
        TextReason::ScriptsLength(operations) => u64::from(operations),
        TextReason::AgentLimits(agents) => last_of(agents),
        TextReason::PortLimits(ports) => last_of(ports),
        _ => earlier_line(text, line, reason),
    }
}

/// The last of so many numbers from 0.
fn last_of(count: u32) -> u64 {
    u64::from(count.saturating_sub(1))
}

/// The number of dimensions that is told of a reason.
fn dims_of(reason: TextReason) -> u32 {
    match reason {
        TextReason::RadixCount(_, dims) => dims,
        TextReason::DatelineCount(_, dims) => dims,
        _ => 0,
    }
}

/// The name that is told of a reason; `operation` is the second word of the line.
fn name_of(reason: TextReason, operation: &[u8]) -> &'static str {
    match reason {
        TextReason::NumberCount(keyword) => numbers_text(keyword),
        TextReason::DatelineBefore(keyword) => keyword.word(),
        TextReason::InitBefore(keyword) => keyword.word(),
        TextReason::Missing(keyword) => keyword.word(),
        TextReason::OperandCount => operands_text(operation),
        TextReason::NoChoice(agent) => agent_text(agent),
        TextReason::PortUnwanted(agent) => kind_text(agent),
        _ => "",
    }
}

impl<'a> fmt::Display for Sentence<'a> {
    fn fmt<W: fmt::Write>(&self, f: &mut fmt::Formatter<W>) -> fmt::Result {
        f.write_str(self.name)?;
        if self.line != 0 {
            write!(f, ":{}", self.line)?;
        }
        f.write_str(": ")?;
        let words = QuotedWords::of_line(self.text, self.line);
        let filled = Filled {
            text: text_of(self.reason),
            words,
            place: place_of(self.reason),
            number: u128::from(number_of(self.text, self.line, self.reason)),
            other: u128::from(dims_of(self.reason)),
            name: name_of(self.reason, words.at(1).word),
        };
        write!(f, "{filled}")
    }
}

/// A tile that a machine hasn't, and how many it has: `tile 70: the machine has the tiles 0 to 63`.
#[derive(Clone, Copy)]
pub struct TileSentence {
    pub tile: u32,
    pub tiles: u32,
}

impl fmt::Display for TileSentence {
    fn fmt<W: fmt::Write>(&self, f: &mut fmt::Formatter<W>) -> fmt::Result {
        write!(
            f,
            "tile {}: the machine has the tiles 0 to {}",
            self.tile,
            self.tiles.saturating_sub(1)
        )
    }
}
