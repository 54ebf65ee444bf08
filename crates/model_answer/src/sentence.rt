//! The sentences that say why a log is refused.

use lexer::{Filled, QuotedWords, Refusal};
use model_text::{LogKeyword, LogReason, WrongReply};
use packet::{Code, Reply};
use std::fmt;
use trace_lines::LineReason;
use trace_lines::wording::{behind_keyword, common_text, last_address, place_of};

/// Why a log is refused, as a reader sees it: the name of the text, the line, the words that stand
/// there, and what may stand there: `log.txt:3: wrote 0 1: the operation is a load, which writes nothing`.
#[derive(Clone, Copy)]
pub struct LogSentence<'a> {
    /// The name of the text.
    pub name: &'a str,
    pub text: &'a [u8],
    pub refusal: Refusal<LogReason>,
}

/// A reply of a log that isn't the one that is due: `reply 3 at line 9, but the word is 2 (line 4)`.
#[derive(Clone, Copy)]
pub struct WrongSentence {
    pub wrong: WrongReply,
}

/// What is said of a reason that a trace and a log have in common, with gaps.
fn line_text(reason: LineReason) -> &'static str {
    match reason {
        LineReason::NoTitle => "the first line of a log is log 1",
        LineReason::TitleMissing => "the text ends without log 1",
        LineReason::UnknownOperation => "C: an operation or fence belongs there",
        LineReason::OperandCount => "C: behind it K",
        LineReason::WordsTwice => "words: it is given already",
        LineReason::InitLate => "init: it comes before all made and final lines",
        LineReason::InitTwice => "address B: its opening word is given already",
        LineReason::ProcessorLimits => "a processor is below 4096",
        LineReason::OkUnwanted => "ok: the operation is no store: a number belongs there",
        LineReason::NumberUnwanted => "D: the operation is a store: ok belongs there",
        _ => common_text(reason),
    }
}

/// What is said of a reason, with gaps.
fn text_of(reason: LogReason) -> &'static str {
    match reason {
        LogReason::Line(why) => line_text(why),
        LogReason::UnknownKeyword => {
            "A: a line begins with words, init, made, wrote, read, served, replied, depends or final"
        }
        LogReason::WordCount(_) => "A: behind it K",
        LogReason::NotSource => "D: from or opening belongs there",
        LogReason::OperationsLimits => "A: a log has at most 4194304 operations",
        LogReason::AddressesLimits => {
            "address W: a log has operations on at most 1048576 addresses"
        }
        LogReason::NotMade(_) => "A: a processor that it names has made N operations so far",
        LogReason::FenceNamed => "A: it names a fence, and belongs to an operation on a word",
        LogReason::NotWrite => "A: it names a load where a write belongs",
        LogReason::NotLoad => "A: it names a write where a load belongs",
        LogReason::OtherWord => "read: the load and the write are on different words",
        LogReason::SourceTwice => "A: a line before says where the operation stands",
        LogReason::SourceMissing => {
            "made: no line says where it stands: wrote for a write, read or served for a load"
        }
        LogReason::RepliedTwice => "replied: the reply of the operation is given already",
        LogReason::ReplyMissing => "made: no replied line gives what the operation found",
        LogReason::NotAnnotation => {
            "C: behind its operands stand reserved of a load or conditional of a store, acquire, release, and rcpc behind these"
        }
        LogReason::NotFenceOrder => {
            "fence: behind it stands tso, or what is before and behind it, each r, w or rw"
        }
        LogReason::NotReserved => "conditional: no load reserved of the processor is left for it",
        LogReason::ReservedWord => "conditional: the load reserved before it is on another word",
        LogReason::NotOn => "D: on belongs there",
        LogReason::NotDependency => "F: address, data or control belongs there",
        LogReason::NotBehind => "depends: an operation depends on one before it",
        LogReason::GivesNothing =>
            "depends: a store gives its processor nothing, but a conditional one",
        LogReason::DataOfLoad => "depends: a load has no data that it writes",
        LogReason::FinalTwice => "address B: its final word is given already",
    }
}

/// What stands behind a keyword.
fn words_text(keyword: LogKeyword) -> &'static str {
    match keyword {
        LogKeyword::Made => "stand a processor and an operation",
        LogKeyword::Wrote => "stand a processor and an index",
        LogKeyword::Read => {
            "stand a processor and an index, then opening, or from, a processor and an index"
        }
        LogKeyword::Served => "stand a processor and an index",
        LogKeyword::Replied => "stand a processor, an index and a reply",
        LogKeyword::Depends => {
            "stand a processor and an index, on, an index before it, and address, data or control"
        }
        LogKeyword::Final => "stand an address and a value",
    }
}

/// What stands behind the operation that a word names.
fn operands_text(word: &[u8]) -> &'static str {
    match Code::named(word) {
        None => "stands nothing",
        Some(code) => match code.arity() {
            0 => "stands an address",
            1 => "stand an address and a value",
            _ => "stand an address and two values",
        },
    }
}

/// The name in what is said of a reason.
fn name_of(words: QuotedWords<'_>, reason: LogReason) -> &'static str {
    match reason {
        LogReason::Line(LineReason::WordCount(keyword)) => behind_keyword(keyword),
        LogReason::Line(LineReason::OperandCount) => operands_text(words.at(2).word),
        LogReason::WordCount(keyword) => words_text(keyword),
        _ => "",
    }
}

/// The place of the word that a reason is about.
fn place_in(words: QuotedWords<'_>, reason: LogReason) -> u32 {
    match reason {
        LogReason::Line(why) => place_of(why),
        LogReason::AddressesLimits => {
            if words.at(0).word == b"final".as_slice() {
                1
            } else {
                3
            }
        }
        _ => 0,
    }
}

/// The number in what is said of a reason: the last address, or a count.
fn number_of(reason: LogReason) -> u128 {
    match reason {
        LogReason::Line(why) => u128::from(last_address(why).unwrap_or(0)),
        LogReason::NotMade(made) => made as u128,
        _ => 0,
    }
}

impl<'a> fmt::Display for LogSentence<'a> {
    fn fmt<W: fmt::Write>(&self, f: &mut fmt::Formatter<W>) -> fmt::Result {
        let reason = self.refusal.reason;
        let words = QuotedWords::of_line(self.text, self.refusal.line);
        let said = Filled {
            text: text_of(reason),
            words,
            place: place_in(words, reason),
            number: number_of(reason),
            other: 0,
            name: name_of(words, reason),
        };
        match reason {
            LogReason::Line(LineReason::Memory) => write!(f, "{} {said}", self.name),
            LogReason::Line(LineReason::NoTitle) => {
                write!(f, "{}:{}: {words}: {said}", self.name, self.refusal.line)
            }
            _ => write!(f, "{}:{}: {said}", self.name, self.refusal.line),
        }
    }
}

impl fmt::Display for WrongSentence {
    fn fmt<W: fmt::Write>(&self, f: &mut fmt::Formatter<W>) -> fmt::Result {
        let name = if self.wrong.closing {
            "final word"
        } else {
            "reply"
        };
        match self.wrong.told.reply {
            Reply::Ok => write!(f, "{name} ok at line {}", self.wrong.told.line)?,
            Reply::Old(word) => write!(f, "{name} {word} at line {}", self.wrong.told.line)?,
        }
        write!(f, ", but the word is {}", self.wrong.word)?;
        match self.wrong.line {
            0 => f.write_str(" (opening)"),
            line => write!(f, " (line {line})"),
        }
    }
}
