//! The sentences that tell a reader why a trace has no order.

ghost use Rattle.std.specs.Prelude.{◌≡◌, ℕ, List, true, false, Some, IfOk, IfSome, MatchOption};
ghost use Rattle.std.specs.Prelude.{Contains, slice_get};
ghost use Rattle.std.specs.Str.Lines.{lines};
ghost use Rattle.trace_laws.specs.Traces.{TraceIssuesAt};
ghost use Rattle.trace_text.specs.Traced.{trace_of};
ghost use Rattle.trace_why.specs.declared.calls.CallAt.{CallAt};
ghost use Rattle.trace_why.specs.Told.{IsLineOf, AreLinesOf, TellsNoOrder};

use crate::calls::CallAt;
use crate::printed::{ReplyWord, Values};
use crate::why::{WhyNot, why_not};
use lexer::Named;
use packet::{Operation, Values as OpValues};
use std::alloc::{AllocError, Allocator, Global};
use std::fmt;
use trace_text::{TraceText, read_trace};

/// An operation, as the text of a trace issues it.
#[derive(Clone, Copy)]
pub struct IssueLine {
    /// The line that issues it.
    pub line: u64,
    pub processor: u32,
    /// How many operations of this processor were issued before.
    pub index: u64,
    pub operation: Operation,
}

/// Why a trace has no order from a line on, as a reader sees it:
/// `trace.txt:6: answer 1 0 0: no order gives 0: word 5 can be 17`, and a line for each operation that is
/// open on the word there.
#[derive(Drop)]
pub struct NoOrderSentence<'a, A: Allocator = Global> {
    /// The name of the text.
    pub name: &'a str,
    /// The line of the answer.
    pub line: u64,
    pub why: WhyNot<A>,
    /// Of each operation that is open how it is issued.
    pub pending: Vec<IssueLine, A>,
}

/// The most events that are gone through for all values together, about.
const MOST_EVENTS: usize = 1 << 23;

/// How many values are tried for an answer behind so many events: 8 to 4096.
fn tries(events: usize) -> usize {
    if events >= MOST_EVENTS / 8 {
        return 8;
    }
    if events <= MOST_EVENTS / 4096 {
        return 4096;
    }
    MOST_EVENTS / events
}

/// Whether an event is of this line.
fn is_of_line(lines: &[u64], event: usize, line: u64) -> bool
    ensures yes { result ≡ true → slice_get lines.now event ≡ Some line }
    ensures no { result ≡ false → slice_get lines.now event ≡ Some line → ⊥ }
{
    match lines.get(event).copied() {
        Some(found) => found == line,
        None => false,
    }
}

/// The first event of a line.
pub(crate) fn event_at(lines: &[u64], line: u64) -> Option<usize>
    ensures { MatchOption result
        ((k : ℕ) → slice_get lines.now k ≡ Some line → ⊥)
        (λ k. slice_get lines.now k ≡ Some line) }
{
    for k in 0..lines.len() {
        if is_of_line(lines, k, line) {
            return Some(k);
        }
    }
    None
}

/// How the text of a trace issues an operation.
pub(crate) fn line_of<A: Allocator>(trace: &TraceText<A>, call: CallAt) -> IssueLine
    requires { TraceIssuesAt trace.now.events call.event call.call }
    ensures { IsLineOf trace.now call result }
{
    let _events = trace.events();
    let lines = trace.lines();
    let line = lines[call.event];
    let issued = trace.issued();
    let known = issued[call.call.id as usize];
    IssueLine {
        line,
        processor: known.processor,
        index: known.index,
        operation: call.call.operation,
    }
}

/// How the text of a trace issues some operations.
fn lines_of<A: Allocator + Copy>(
    alloc: A,
    trace: &TraceText<A>,
    calls: &[CallAt],
) -> Result<Vec<IssueLine, A>, AllocError>
    requires { (c : CallAt) → Contains calls.now c
        → TraceIssuesAt trace.now.events c.event c.call }
    ensures { IfOk result (λ found. AreLinesOf trace.now calls.now found.items) }
{
    let mut found = Vec::new(alloc);
    for call in calls {
        found.push(line_of(trace, *call))?;
    }
    Ok(found)
}

/// Why a trace has no order from the answer of a line on; `None` where the text has a fault or the line
/// no answer, or too many values had to be tried, or one isn't decided with at most `bound`
/// configurations of a word at once, or memory was refused.
pub fn no_order_sentence<'a, A: Allocator + Copy>(
    alloc: A,
    trace: Named<'a>,
    line: u64,
    bound: u64,
) -> Option<NoOrderSentence<'a, A>>
    ensures name { IfSome result (λ s. s.name.now ≡ trace.entry.name.now) }
    ensures told { IfSome result (TellsNoOrder (lines trace.entry.text.now) line) }
{
    let Ok(text) = read_trace(alloc, trace.text) else {
        return None;
    };
    sentence_on(alloc, trace.name, &text, line, bound)
}

/// Why a trace that is read has no order from the answer of a line on; `None` where `no_order_sentence` has
/// none.
fn sentence_on<'a, A: Allocator + Copy>(
    alloc: A,
    name: &'a str,
    trace: &TraceText<A>,
    line: u64,
    bound: u64,
) -> Option<NoOrderSentence<'a, A>>
    ensures name { IfSome result (λ s. s.name.now ≡ name.entry.now) }
    ensures told { (lines : List (List ℕ)) → trace_of lines ≡ Ok trace.now
        → IfSome result (TellsNoOrder lines line) }
{
    let event = event_at(trace.lines(), line)?;
    let Ok(Some(why)) = why_not(alloc, trace, event, tries(event), bound as usize) else {
        return None;
    };
    let Ok(pending) = lines_of(alloc, trace, &why.pending) else {
        return None;
    };
    Some(NoOrderSentence {
        name,
        line,
        why,
        pending,
    })
}

impl fmt::Display for IssueLine {
    fn fmt<W: fmt::Write>(&self, f: &mut fmt::Formatter<W>) -> fmt::Result {
        let op = self.operation.op;
        write!(
            f,
            "issue {} {} {}",
            self.processor,
            op.code().word(),
            self.operation.address
        )?;
        match op.values() {
            OpValues::None => Ok(()),
            OpValues::One(value) => write!(f, " {value}"),
            OpValues::Two(expected, new) => write!(f, " {expected} {new}"),
        }
    }
}

/// How the operation of a number is issued, which is among those that are open.
fn issue_of(pending: &[CallAt], issues: &[IssueLine], id: u64) -> Option<IssueLine> {
    for i in 0..pending.len() {
        if pending[i].call.id == id {
            return issues.get(i).copied();
        }
    }
    None
}

/// Puts a line on each operation that is open; the one of this number is answered.
fn put_open<W: fmt::Write>(
    f: &mut fmt::Formatter<W>,
    name: &str,
    pending: &[CallAt],
    issues: &[IssueLine],
    id: u64,
) -> fmt::Result {
    for i in 0..issues.len() {
        let issue = issues[i];
        let which = match pending.get(i) {
            Some(call) if call.call.id == id => "it is answered there",
            _ => "open there",
        };
        write!(f, "\n{}:{}: {}: {}", name, issue.line, issue, which)?;
    }
    Ok(())
}

/// Puts the answer to an operation, if it is known how that is issued.
fn put_answer<W: fmt::Write>(
    f: &mut fmt::Formatter<W>,
    issue: Option<IssueLine>,
    reply: ReplyWord,
) -> fmt::Result {
    match issue {
        Some(issue) => write!(f, "answer {} {} {}: ", issue.processor, issue.index, reply),
        None => Ok(()),
    }
}

impl<'a, A: Allocator> fmt::Display for NoOrderSentence<'a, A> {
    fn fmt<W: fmt::Write>(&self, f: &mut fmt::Formatter<W>) -> fmt::Result {
        let reply = ReplyWord {
            reply: self.why.reply,
        };
        write!(f, "{}:{}: ", self.name, self.line)?;
        let issue = issue_of(&self.why.pending, &self.pending, self.why.id);
        put_answer(f, issue, reply)?;
        let values = Values {
            values: &self.why.values,
        };
        write!(
            f,
            "no order gives {}: word {} can be {}",
            reply, self.why.address, values
        )?;
        put_open(f, self.name, &self.why.pending, &self.pending, self.why.id)
    }
}
