//! The words in which a reader sees a certificate.

use crate::certified::{ConflictSentence, OperationLine};
use crate::printed::{ReplyWord, Values};
use std::alloc::Allocator;
use std::fmt;
use trace_zones::conflict::{Before, Conflict};
use trace_zones::zone::Zone;

/// An event, and its line.
#[derive(Clone, Copy)]
struct Moment {
    event: usize,
    line: u64,
}

/// When a word was there: from the first answer that tells it, or from the beginning, to the last issue of what sees
/// it. Where that issue comes first, it was there at some time from this to the answer.
#[derive(Clone, Copy)]
struct Span {
    first: Option<Moment>,
    last: Moment,
}

/// The operation that an event issues, if it is among these.
fn operation_of(cited: &[OperationLine], event: usize) -> Option<OperationLine> {
    for operation in cited {
        if operation.event == event {
            return Some(*operation);
        }
    }
    None
}

/// When the operation of an event is issued.
fn issue_of(cited: &[OperationLine], event: usize) -> Moment {
    Moment {
        event,
        line: operation_of(cited, event).map_or(0, |operation| operation.issue.line),
    }
}

/// When the operation of an event is answered, if it is.
fn answer_of(cited: &[OperationLine], event: usize) -> Option<Moment> {
    let answer = operation_of(cited, event)?.answer?;
    Some(Moment {
        event: answer.event,
        line: answer.line,
    })
}

/// When a set was there that is seen first so, and last so.
fn span_of(cited: &[OperationLine], first: Before, last: Before) -> Span {
    Span {
        first: match first.first() {
            Some(event) => answer_of(cited, event),
            None => None,
        },
        last: issue_of(cited, last.second()),
    }
}

impl fmt::Display for Span {
    fn fmt<W: fmt::Write>(&self, f: &mut fmt::Formatter<W>) -> fmt::Result {
        let last = self.last;
        match self.first {
            None => write!(f, "from the beginning to line {}", last.line),
            Some(first) if first.line == last.line => write!(f, "at line {}", last.line),
            Some(first) if first.event < last.event => {
                write!(f, "from line {} to {}", first.line, last.line)
            }
            Some(first) => write!(f, "at some time from line {} to {}", last.line, first.line),
        }
    }
}

/// What is said of a value that two operations found and left.
fn once_text(entry: Option<usize>) -> &'static str {
    match entry {
        Some(_) => "which was written once",
        None => "which was there once, at first",
    }
}

/// What is said of values that no operation may have written.
fn unwritten_text(count: usize) -> &'static str {
    if count > 1 {
        "which nothing writes up to its answer but what found one of them"
    } else {
        "which nothing writes up to its answer"
    }
}

impl<'a, A: Allocator> ConflictSentence<'a, A> {
    /// Puts that each of two zones was there before the other.
    fn put_crossed<W: fmt::Write>(
        &self,
        f: &mut fmt::Formatter<W>,
        one: Values<'_>,
        other: Values<'_>,
        before: Before,
        behind: Before,
    ) -> fmt::Result {
        if let Before::Atomic { event } = before {
            let from = issue_of(&self.cited, event).line;
            let span = span_of(&self.cited, behind, behind);
            let told = match span.first {
                Some(first) => first.line,
                None => span.last.line,
            };
            return write!(
                f,
                "line {} changed word {} from {} to {}, but {} was there by line {}, and {} behind it, at line {}",
                from, self.address, one, other, other, told, one, span.last.line
            );
        }
        write!(
            f,
            "{} was word {} {}, and {} {}: neither can be first",
            one,
            self.address,
            span_of(&self.cited, before, behind),
            other,
            span_of(&self.cited, behind, before)
        )
    }

    /// Puts what the certificate says.
    fn put_why<W: fmt::Write>(&self, f: &mut fmt::Formatter<W>) -> fmt::Result {
        match &self.why {
            Conflict::Crossed {
                one,
                other,
                before,
                behind,
            } => self.put_crossed(f, values(one), values(other), *before, *behind),
            Conflict::Early { zone, writer } => write!(
                f,
                "line {} found {} and was answered before line {}, which alone writes it",
                issue_of(&self.cited, zone.reader).line,
                values(zone),
                issue_of(&self.cited, *writer).line
            ),
            Conflict::Unwritten { zone } => write!(
                f,
                "line {} found {}, {}",
                issue_of(&self.cited, zone.reader).line,
                values(zone),
                unwritten_text(zone.words.len())
            ),
            Conflict::Twice {
                zone,
                first,
                second,
            } => write!(
                f,
                "lines {} and {} both found {}, {}",
                issue_of(&self.cited, *first).line,
                issue_of(&self.cited, *second).line,
                values(zone),
                once_text(zone.entry)
            ),
        }
    }
}

/// The values of a zone.
fn values<A: Allocator>(zone: &Zone<A>) -> Values<'_> {
    Values {
        values: &zone.words,
    }
}

/// Whether the event of an operation is that of one of these.
fn is_among(operations: &[OperationLine], event: usize) -> bool {
    operation_of(operations, event).is_some()
}

impl fmt::Display for OperationLine {
    fn fmt<W: fmt::Write>(&self, f: &mut fmt::Formatter<W>) -> fmt::Result {
        write!(f, "{}: {}: ", self.issue.line, self.issue)?;
        match self.answer {
            None => f.write_str("no answer yet"),
            Some(answer) => {
                let reply = ReplyWord {
                    reply: answer.reply,
                };
                write!(f, "{reply}")?;
                if answer.line == self.issue.line {
                    return Ok(());
                }
                write!(f, " at line {}", answer.line)
            }
        }
    }
}

impl<'a, A: Allocator> fmt::Display for ConflictSentence<'a, A> {
    fn fmt<W: fmt::Write>(&self, f: &mut fmt::Formatter<W>) -> fmt::Result {
        write!(f, "{}: ", self.name)?;
        self.put_why(f)?;
        for place in 0..self.cited.len() {
            let operation = self.cited[place];
            if !is_among(&self.cited[..place], operation.event) {
                write!(f, "\n{}:{}", self.name, operation)?;
            }
        }
        Ok(())
    }
}
