//! The sentence that tells a reader which rule a line breaks.

use crate::origin::Origin;
use crate::pieces::{Sentence, but, number, one, plain, two, up_to, words};
use crate::why::{Reason, WhyBad};
use packet::Reply;
use report_check::{Kind, Rule};
use std::fmt;

/// The word that lines of a kind begin with.
fn first_word(kind: Kind) -> &'static str {
    match kind {
        Kind::Header => "torusmem",
        Kind::Shape => "shape",
        Kind::Init => "init",
        Kind::Entry => "entry",
        Kind::Answer => "answer",
        Kind::Word => "word",
        Kind::Order => "order",
        Kind::End => "end",
    }
}

impl fmt::Display for Origin {
    fn fmt<W: fmt::Write>(&self, f: &mut fmt::Formatter<W>) -> fmt::Result {
        match self {
            Origin::Nothing => f.write_str("no line before names it"),
            Origin::Init(line) => write!(f, "init of line {line}"),
            Origin::Entry(line) => write!(f, "entry of line {line}"),
        }
    }
}

/// A reply as a report has it.
#[derive(Clone, Copy)]
struct Replied(Reply);

impl fmt::Display for Replied {
    fn fmt<W: fmt::Write>(&self, f: &mut fmt::Formatter<W>) -> fmt::Result {
        match self.0 {
            Reply::Ok => f.write_str("ok"),
            Reply::Old(word) => write!(f, "{word}"),
        }
    }
}

/// A reply that an operation doesn't give.
#[derive(Clone, Copy)]
struct WrongReply {
    found: Reply,
    expected: Reply,
    origin: Origin,
}

impl fmt::Display for WrongReply {
    fn fmt<W: fmt::Write>(&self, f: &mut fmt::Formatter<W>) -> fmt::Result {
        write!(f, "reply {}, but ", Replied(self.found))?;
        match self.expected {
            Reply::Ok => f.write_str("a store replies ok"),
            Reply::Old(word) => write!(f, "the word is {word} ({})", self.origin),
        }
    }
}

impl Reason {
    /// The sentence of a rule; None of those about replies, which have sentences of their own.
    fn sentence(self) -> Option<Sentence> {
        let sentence = match self.rule {
            Rule::BehindEnd => plain("nothing stands behind the line of the end"),
            Rule::NoEnd => plain("the report ends without `end complete` or `end incomplete`"),
            Rule::FirstLine => plain("a report begins with `torusmem 1` or `torusmem 2`"),
            Rule::SecondLine => plain("the second line of a report is its shape"),
            Rule::NoLineFeed => plain("the line ends without a line feed"),
            Rule::Spelling => plain("no line of a report is spelled so"),
            Rule::Place(kind) => Sentence(
                words(first_word(kind)),
                words(": lines of a later kind stand before it"),
                words(""),
            ),
            Rule::Version(found) => one("version ", found, ": there are the versions 1 and 2"),
            Rule::Radix(found) => one("radix ", found, ": a radix is 2 to 8"),
            Rule::Tiles(found) => one("", found, " tiles: there are at most 64"),
            Rule::Words(found) => one("words ", found, ": a memory has 1 to 65536 words"),
            Rule::Address { found, words } => up_to(
                "address ",
                found,
                ": the memory has the words 0 to ",
                u64::from(words),
            ),
            Rule::AddressOrder { found, least } => up_to(
                "address ",
                found,
                ", but the line before has address ",
                least,
            ),
            Rule::Zero { address } => one("address ", address, ": a word that is 0 has no line"),
            Rule::Bank { found, tiles } => up_to(
                "bank ",
                found,
                ": there are the banks 0 to ",
                u64::from(tiles),
            ),
            Rule::BankOrder { found, last } => but(
                "bank ",
                found,
                ", but the entry before is of bank ",
                u64::from(last),
            ),
            Rule::EntryPlace { found, expected } => but(
                "place ",
                found,
                ", but the next of the bank is ",
                expected,
            ),
            Rule::OrderPlace { found, expected } => but(
                "place ",
                found,
                ", but the next of the bank is ",
                expected,
            ),
            Rule::Source { found, tiles } => up_to(
                "processor ",
                found,
                ": there are the processors 0 to ",
                u64::from(tiles),
            ),
            Rule::Tag(found) => one("tag ", found, ": there are the tags 0 to 15"),
            Rule::EntryCount => plain("a report has at most 65536 entries"),
            Rule::Home { found, expected } => but(
                "bank ",
                found,
                ", but the home of the address is ",
                u64::from(expected),
            ),
            Rule::Newer => plain("version 1 has no and, or, xor, max and min"),
            Rule::Reply { .. } | Rule::AnswerReply { .. } => return None,
            Rule::NoneNewer => plain("version 2, but no entry is one of and, or, xor, max and min"),
            Rule::Index(found) => one("index ", found, ": an index is below 4096"),
            Rule::AnswerOrder { processor, index } => two(
                "answer ",
                u64::from(index),
                " of processor ",
                u64::from(processor),
                ": answers rise by processor and then by index",
            ),
            Rule::NoEntry { bank, place } => but(
                "there is no entry at place ",
                place,
                " of bank ",
                u64::from(bank),
            ),
            Rule::Processor { found, expected } => but(
                "processor ",
                found,
                ", but the entry is of processor ",
                u64::from(expected),
            ),
            Rule::AnsweredTwice { bank, place } => two(
                "the entry at place ",
                u64::from(place),
                " of bank ",
                u64::from(bank),
                " has an answer already",
            ),
            Rule::LeftOut { address, word } => two(
                "address ",
                u64::from(address),
                ": its word is ",
                word,
                ", and no line tells it",
            ),
            Rule::Word { found, expected } => two("word ", found, ", but it is ", expected, ""),
            Rule::ServedFirst { served, issued } => but(
                "served at ",
                served,
                ", but issued at ",
                u64::from(issued),
            ),
            Rule::AnsweredFirst { answered, served } => but(
                "served at ",
                served,
                ", but answered at ",
                u64::from(answered),
            ),
            Rule::Answered { told: true } => plain("an answer is numbered, but the entry has none"),
            Rule::Answered { told: false } => plain("no answer is numbered, but the entry has one"),
            Rule::ServiceOrder { found, least } => up_to(
                "served at ",
                found,
                ", but the line before is served at ",
                least,
            ),
            Rule::Event(found) => one("event ", found, ": events are 1 to 196608"),
            Rule::EventTwice(found) => one("event ", found, " is told already"),
            Rule::Unordered {
                bank,
                found,
                expected,
            } => Sentence(
                number("bank ", u64::from(bank)),
                number(" has ", expected),
                number(" entries, but order lines for ", found),
            ),
            Rule::Unanswered { bank, place } => two(
                "the entry at place ",
                place,
                " of bank ",
                u64::from(bank),
                " has no answer",
            ),
        };
        Some(sentence)
    }
}

impl fmt::Display for Reason {
    fn fmt<W: fmt::Write>(&self, f: &mut fmt::Formatter<W>) -> fmt::Result {
        match self.rule {
            Rule::Reply {
                found,
                expected,
                ..
            } => {
                let reply = WrongReply {
                    found,
                    expected,
                    origin: self.origin,
                };
                write!(f, "{reply}")
            }
            Rule::AnswerReply { found, expected } => write!(
                f,
                "reply {}, but the entry replies {}",
                Replied(found),
                Replied(expected)
            ),
            _ => match self.sentence() {
                None => Ok(()),
                Some(sentence) => write!(f, "{sentence}"),
            },
        }
    }
}

impl fmt::Display for WhyBad {
    fn fmt<W: fmt::Write>(&self, f: &mut fmt::Formatter<W>) -> fmt::Result {
        write!(f, "line {}: {}", self.line, self.reason)
    }
}
