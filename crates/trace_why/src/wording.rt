//! The wording of each reason for which a trace text is refused.

use crate::before::earlier_line;
use lexer::{Filled, QuotedWords, Refusal};
use packet::Code;
use trace_lines::LineReason;
use trace_lines::wording::{behind_keyword, common_text, last_address, place_of};
use trace_text::{Keyword, TraceReason};

/// What is said of a reason that a trace and a log have in common, with gaps.
fn line_text(reason: LineReason) -> &'static str {
    match reason {
        LineReason::NoTitle => "the first line of a trace text is trace 1K",
        LineReason::TitleMissing => "the text ends without trace 1",
        LineReason::UnknownOperation => "C: there is no such operation",
        LineReason::OperandCount => "C: behind it stands K",
        LineReason::WordsTwice => "words: it is given at line N already",
        LineReason::InitLate => "init: it comes before all issues, and one stands at line N",
        LineReason::InitTwice => "address B: its opening word is given at line N already",
        LineReason::ProcessorLimits => "processor B: a processor is below 4096",
        LineReason::OkUnwanted => {
            "ok: the operation is that of line N, which is no store: a number belongs there"
        }
        LineReason::NumberUnwanted => "D: the operation is the store of line N: ok belongs there",
        _ => common_text(reason),
    }
}

/// What is said of a reason, with gaps.
fn text_of(reason: TraceReason) -> &'static str {
    match reason {
        TraceReason::Line(why) => line_text(why),
        TraceReason::UnknownKeyword => "A: a line begins with words, init, issue or answer",
        TraceReason::WordCount(_) => "A: behind it K",
        TraceReason::OperationsLimits => "issue: a trace has at most 4194304 operations",
        TraceReason::AddressesLimits => {
            "address D: a trace has operations on at most 1048576 addresses"
        }
        TraceReason::NotIssued(_) => "answer B C: processor B has issued N K",
        TraceReason::AnsweredTwice => "answer B C: the operation is answered at line N already",
    }
}

/// What stands behind a keyword.
fn words_text(keyword: Keyword) -> &'static str {
    match keyword {
        Keyword::Issue => "stand a processor and an operation",
        Keyword::Answer => "stand a processor, an index and a reply",
    }
}

/// What stands behind the operation that a word names.
fn operands_text(word: &[u8]) -> &'static str {
    match Code::named(word).map_or(1, |code| code.arity()) {
        0 => "an address",
        1 => "an address and a value",
        _ => "an address and two values",
    }
}

/// What makes a trace text, where the first word of a text isn't that of a title.
fn maker_text(word: &[u8]) -> &'static str {
    match word {
        b"trace" => "",
        _ => "; tools/from_csv makes one from a table",
    }
}

/// The name in what is said of a reason.
fn name_of(words: QuotedWords<'_>, reason: TraceReason) -> &'static str {
    match reason {
        TraceReason::Line(LineReason::NoTitle) => maker_text(words.at(0).word),
        TraceReason::Line(LineReason::WordCount(keyword)) => behind_keyword(keyword),
        TraceReason::Line(LineReason::OperandCount) => operands_text(words.at(2).word),
        TraceReason::WordCount(keyword) => words_text(keyword),
        TraceReason::NotIssued(1) => "operation",
        TraceReason::NotIssued(_) => "operations",
        _ => "",
    }
}

/// The place of the word that a reason is about.
fn place_in(reason: TraceReason) -> u32 {
    match reason {
        TraceReason::Line(why) => place_of(why),
        _ => 0,
    }
}

/// The number in what is said of a refusal: the last address, a count, or a line before.
fn number_of(text: &[u8], refusal: Refusal<TraceReason>) -> u64 {
    match refusal.reason {
        TraceReason::Line(why) => match last_address(why) {
            Some(last) => last,
            None => earlier_line(text, refusal),
        },
        TraceReason::NotIssued(issued) => issued,
        _ => earlier_line(text, refusal),
    }
}

/// What is said of a refusal of a line of these words.
pub(crate) fn wording_of<'a>(
    text: &[u8],
    words: QuotedWords<'a>,
    refusal: Refusal<TraceReason>,
) -> Filled<'a> {
    Filled {
        text: text_of(refusal.reason),
        words,
        place: place_in(refusal.reason),
        number: u128::from(number_of(text, refusal)),
        other: 0,
        name: name_of(words, refusal.reason),
    }
}

/// What is said of a reason, with gaps, where the lines before are gone: no number of one of them.
fn passing_text(reason: TraceReason) -> &'static str {
    match reason {
        TraceReason::Line(LineReason::WordsTwice) => "words: it is given already",
        TraceReason::Line(LineReason::WordsLimits) => {
            "words B: a memory that is watched has 1 to 1048576 words"
        }
        TraceReason::Line(LineReason::InitLate) => "init: it comes before all issues",
        TraceReason::Line(LineReason::InitTwice) => "address B: its opening word is given already",
        TraceReason::Line(LineReason::OkUnwanted) => {
            "ok: the operation is no store: a number belongs there"
        }
        TraceReason::Line(LineReason::NumberUnwanted) => {
            "D: the operation is a store: ok belongs there"
        }
        TraceReason::OperationsLimits =>
            "issue: a trace that is watched has fewer than 2^62 operations",
        TraceReason::AnsweredTwice => "answer B C: the operation is answered already",
        _ => text_of(reason),
    }
}

/// What is said of a refusal of a line of these words, where the lines before it are gone.
pub fn passing_wording(words: QuotedWords<'_>, reason: TraceReason) -> Filled<'_> {
    let text = b"".as_slice();
    Filled {
        text: passing_text(reason),
        words,
        place: place_in(reason),
        number: u128::from(number_of(text, Refusal { line: 0, reason })),
        other: 0,
        name: name_of(words, reason),
    }
}
