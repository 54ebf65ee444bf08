//! What the lines of a trace give, one after the other, while it comes.

ghost use Rattle.std.specs.Prelude.{◌≡◌, map, IfOk};
ghost use Rattle.lexer.specs.Outcome.{Makes};
ghost use Rattle.command_watch.specs.Stream.{after_stream_line, given_in_stream, nothing_streamed};
ghost use Rattle.command_watch.specs.Views.{stream_of};

use crate::open_issue::{Given, OpenIssue};
use std::alloc::{AllocError, Allocator};
use trace_lines::{Head, LineReason};
use trace_text::{TraceLine, TraceReason, read_line};

/// The most words that a memory has whose trace is watched.
const MOST_WORDS: u64 = 1 << 20;

/// What the lines so far gave: of the operations those that are open.
#[derive(Drop)]
pub struct StreamReading<A: Allocator> {
    /// The head: the line `trace 1`, the number of words and the opening words.
    pub head: Head<A>,
    /// How many operations each of 4096 processors has issued.
    pub counts: Vec<u64, A>,
    /// How many operations were issued.
    pub issued: u64,
    /// The operations that aren't answered, in the order of issue.
    pub pending: Vec<OpenIssue, A>,
    /// What the last line gave to be judged.
    pub given: Given,
}

impl<A: Allocator + Copy> StreamReading<A> {
    /// Nothing is given.
    pub fn none(alloc: A) -> Result<StreamReading<A>, AllocError>
        ensures { IfOk result (λ r. stream_of r ≡ nothing_streamed) }
    {
        let counts = vec![in alloc; 0u64; 4096]?;
        Ok(StreamReading {
            head: Head::none(alloc),
            counts,
            issued: 0,
            pending: Vec::new(alloc),
            given: Given::Nothing,
        })
    }

    /// Takes what the words of the line of a number give.
    pub fn take(&mut self, line: u64, words: &[&[u8]]) -> Result<(), TraceReason>
        ensures { Makes (TraceReason.Line LineReason.Memory) (stream_of self.new) result
            (after_stream_line (stream_of self.old) line (map (λ word. word.now) words.now)) }
    {
        let is_late = self.issued != 0;
        let given = read_line(&mut self.head, MOST_WORDS, is_late, words)?;
        self.take_line(line, given)
    }

    /// Takes what a line gives.
    pub(crate) fn take_line(&mut self, line: u64, given: TraceLine) -> Result<(), TraceReason>
        ensures { Makes (TraceReason.Line LineReason.Memory) (stream_of self.new) result
            (given_in_stream (stream_of self.old) line given) }
    {
        match given {
            TraceLine::Nothing => {
                self.given = Given::Nothing;
                Ok(())
            }
            TraceLine::Issue {
                processor,
                operation,
            } => self.add_issue(line, processor, operation),
            TraceLine::Answer {
                processor,
                index,
                told,
            } => self.answer(processor, index, told),
        }
    }
}
