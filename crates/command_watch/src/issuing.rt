//! Issues and answers as a trace gives them while it comes.

ghost use Rattle.std.specs.Prelude.{◌≡◌, Some, slice_get};
ghost use Rattle.lexer.specs.Outcome.{Makes};
ghost use Rattle.command_watch.specs.Stream.{answer_of_pending, closed_issue, with_pending_issue};
ghost use Rattle.command_watch.specs.Stream.{why_not_pending};
ghost use Rattle.command_watch.specs.Views.{stream_of};

use crate::open_issue::{Given, OpenIssue, count_of, place_of, set_count_of};
use crate::stream::StreamReading;
use packet::Operation;
use std::alloc::Allocator;
use trace_laws::Call;
use trace_lines::{LineReason, reply_read, unwanted_reply};
use trace_text::TraceReason;

impl<A: Allocator + Copy> StreamReading<A> {
    /// Adds an operation.
    pub(crate) fn add_issue(
        &mut self,
        line: u64,
        p: u32,
        operation: Operation,
    ) -> Result<(), TraceReason>
        ensures { Makes (TraceReason.Line LineReason.Memory) (stream_of self.new) result
            (with_pending_issue (stream_of self.old) line p operation) }
    {
        let id = self.issued;
        let index = count_of(&self.counts, p);
        if id >= 1 << 62 || index >= 1 << 62 {
            return Err(TraceReason::OperationsLimits);
        }
        let issue = OpenIssue {
            processor: p,
            index,
            call: Call { id, operation },
            line,
        };
        if self.pending.push(issue).is_err() {
            return Err(TraceReason::Line(LineReason::Memory));
        }
        set_count_of(&mut self.counts, p, index + 1);
        self.issued = id + 1;
        self.given = Given::Issue(issue);
        Ok(())
    }

    /// Why an operation of a processor isn't open: it is answered, or it was never issued.
    fn why_not_open(&self, p: u32, index: u128) -> TraceReason
        ensures { result ≡ why_not_pending (stream_of self.now) p index }
    {
        let count = count_of(&self.counts, p);
        if index < count as u128 {
            TraceReason::AnsweredTwice
        } else {
            TraceReason::NotIssued(count)
        }
    }

    /// An operation of a processor is answered.
    pub(crate) fn answer(
        &mut self,
        p: u32,
        index: u128,
        told: Option<u128>,
    ) -> Result<(), TraceReason>
        ensures { Makes (TraceReason.Line LineReason.Memory) (stream_of self.new) result
            (answer_of_pending (stream_of self.old) p index told) }
    {
        let why = self.why_not_open(p, index);
        let Some(place) = place_of(&self.pending, p, index) else {
            return Err(why);
        };
        let Some(issue) = self.pending.get(place).copied() else {
            return Err(why);
        };
        self.close(place, issue, told)
    }

    /// The open operation at a place is answered.
    fn close(
        &mut self,
        place: usize,
        issue: OpenIssue,
        told: Option<u128>,
    ) -> Result<(), TraceReason>
        requires { slice_get self.old.pending.items place ≡ Some issue }
        ensures { Makes (TraceReason.Line LineReason.Memory) (stream_of self.new) result
            (closed_issue (stream_of self.old) place issue told) }
    {
        if let Some(reason) = unwanted_reply(issue.call.operation.op.code(), told) {
            return Err(TraceReason::Line(reason));
        }
        let reply = reply_read(told)?;
        self.pending.remove(place);
        self.given = Given::Answer(issue, reply);
        Ok(())
    }
}
