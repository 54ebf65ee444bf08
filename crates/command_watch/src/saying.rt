//! The sentences that tell a reader how a watch ended.

use crate::ending::{End, Ended};
use crate::open_issue::{Given, OpenIssue};
use crate::stop::Stop;
use lexer::{QuotedWords, first_words};
use packet::Reply;
use std::alloc::{Allocator, Global};
use std::fmt;
use trace_lines::LineReason;
use trace_text::TraceReason;
use trace_why::{IssueLine, ReplyWord, passing_wording};

/// Why a watch ended at a line, as a reader sees it: `-:6: answer 1 0 0: no order gives 0 on word 5`, and
/// a line for each operation that is open on the word there; or why the line is refused.
#[derive(Clone, Copy)]
pub struct EndSentence<'a, A: Allocator = Global> {
    /// The name of the text.
    pub name: &'a str,
    pub ended: &'a Ended<A>,
}

/// Puts why a line is refused.
fn put_refusal<W: fmt::Write>(
    f: &mut fmt::Formatter<W>,
    text: &[u8],
    reason: TraceReason,
) -> fmt::Result {
    let (words, _) = first_words(text);
    let words = QuotedWords { words };
    if let TraceReason::Line(LineReason::NoTitle) = reason {
        write!(f, "{words}: ")?;
    }
    write!(f, "{}", passing_wording(words, reason))
}

/// Puts a line on each operation that is open on a word.
fn put_pending<W: fmt::Write>(
    f: &mut fmt::Formatter<W>,
    name: &str,
    pending: &[OpenIssue],
    address: u32,
) -> fmt::Result {
    for issue in pending {
        if issue.call.operation.address == address {
            write!(
                f,
                "\n{}:{}: {}: open there",
                name,
                issue.line,
                line_of(*issue)
            )?;
        }
    }
    Ok(())
}

/// How an operation was issued.
fn line_of(issue: OpenIssue) -> IssueLine {
    IssueLine {
        line: issue.line,
        processor: issue.processor,
        index: issue.index,
        operation: issue.call.operation,
    }
}

/// Puts which answer no order gives, and what is open on its word.
fn put_no_order<W: fmt::Write>(
    f: &mut fmt::Formatter<W>,
    name: &str,
    pending: &[OpenIssue],
    issue: OpenIssue,
    reply: Reply,
) -> fmt::Result {
    let address = issue.call.operation.address;
    let reply = ReplyWord { reply };
    let (p, index) = (issue.processor, issue.index);
    write!(
        f,
        "answer {p} {index} {reply}: no order gives {reply} on word {address}"
    )?;
    write!(
        f,
        "\n{}:{}: {}: it is answered there",
        name,
        issue.line,
        line_of(issue)
    )?;
    put_pending(f, name, pending, address)
}

impl<'a, A: Allocator> fmt::Display for EndSentence<'a, A> {
    fn fmt<W: fmt::Write>(&self, f: &mut fmt::Formatter<W>) -> fmt::Result {
        let ended = self.ended;
        write!(f, "{}:{}: ", self.name, ended.line)?;
        match ended.end {
            End::Linearizable => f.write_str("one order explains all answers"),
            End::TooLong => f.write_str(
                "a line of a trace that is watched has at most 65536 bytes",
            ),
            End::Unread(_) => f.write_str("it can't be read"),
            End::Stopped(Stop::Refused(reason)) => put_refusal(f, &ended.text, reason),
            End::Stopped(Stop::TooMany) => {
                f.write_str("too many configurations; linearize judges the whole trace")
            }
            End::Stopped(Stop::NoTrace) => f.write_str("the event is none of a trace"),
            End::Stopped(Stop::NoOrder) => match ended.watching.reading.given {
                Given::Answer(issue, reply) => {
                    put_no_order(f, self.name, &ended.watching.reading.pending, issue, reply)
                }
                _ => f.write_str("no order explains it"),
            },
        }
    }
}
