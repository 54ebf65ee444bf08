//! What the lines of a trace text give, one after the other.

ghost use Rattle.std.specs.Prelude.{◌≡◌, map, IfOk};
ghost use Rattle.lexer.specs.Outcome.{Makes};
ghost use Rattle.trace_text.specs.Lines.{HasProcessor};
ghost use Rattle.trace_text.specs.Traced.{after_line_words, no_trace_read, with_given};
ghost use Rattle.trace_text.specs.Views.{trace_so_far};

use crate::issue_numbers::IssueNumbers;
use crate::issued::Issued;
use crate::line::{TraceLine, read_line};
use crate::reason::TraceReason;
use std::alloc::{AllocError, Allocator};
use std::collections::BTreeMap;
use trace_laws::Event;
use trace_lines::{Head, LineReason};

/// The most words that a memory has.
const MOST_WORDS: u64 = 1 << 32;

/// What the lines so far gave.
#[derive(Drop)]
pub(crate) struct Reading<A: Allocator> {
    /// The head: the line `trace 1`, the number of words and the opening words.
    pub(crate) head: Head<A>,
    /// The places of addresses among those that operations are on.
    pub(crate) places: BTreeMap<u32, u32, A>,
    /// The addresses that operations are on, by place.
    pub(crate) addresses: Vec<u32, A>,
    /// The operations of each processor, by their numbers.
    pub(crate) numbers: IssueNumbers<A>,
    /// The operations by number.
    pub(crate) issued: Vec<Issued, A>,
    pub(crate) events: Vec<Event, A>,
    /// The line of each event.
    pub(crate) lines: Vec<u64, A>,
}

impl<A: Allocator + Copy> Reading<A> {
    /// Nothing is given.
    pub(crate) fn none(alloc: A) -> Result<Reading<A>, AllocError>
        ensures { IfOk result (λ r. trace_so_far r ≡ no_trace_read) }
    {
        let numbers = IssueNumbers::none(alloc)?;
        Ok(Reading {
            head: Head::none(alloc),
            places: BTreeMap::new(alloc),
            addresses: Vec::new(alloc),
            numbers,
            issued: Vec::new(alloc),
            events: Vec::new(alloc),
            lines: Vec::new(alloc),
        })
    }

    /// Takes what the words of a line give.
    pub(crate) fn take(&mut self, line: u64, words: &[&[u8]]) -> Result<(), TraceReason>
        ensures { Makes (TraceReason.Line LineReason.Memory) (trace_so_far self.new) result
            (after_line_words (trace_so_far self.old) line (map (λ word. word.now) words.now)) }
    {
        let is_late = !self.issued.is_empty();
        let given = read_line(&mut self.head, MOST_WORDS, is_late, words)?;
        self.take_line(line, given)
    }

    /// Takes what a line gives.
    fn take_line(&mut self, line: u64, given: TraceLine) -> Result<(), TraceReason>
        requires { HasProcessor given }
        ensures { Makes (TraceReason.Line LineReason.Memory) (trace_so_far self.new) result
            (with_given (trace_so_far self.old) line given) }
    {
        match given {
            TraceLine::Nothing => Ok(()),
            TraceLine::Issue {
                processor,
                operation,
            } => self.add_issue(line, processor, operation),
            TraceLine::Answer {
                processor,
                index,
                told,
            } => self.answer_of_index(line, processor, index, told),
        }
    }
}
