//! Reads a trace text.

ghost use Rattle.std.specs.Prelude.{◌≡◌, ℕ, true, false, length, slice_index, IfOk, IfErr};
ghost use Rattle.std.specs.Str.Lines.{lines};
ghost use Rattle.packet.specs.declared.kinds.Reply.{Reply};
ghost use Rattle.lexer.specs.Outcome.{Gives as GivesOrWhy};
ghost use Rattle.lexer.specs.Faults.{Gives};
ghost use Rattle.trace_laws.specs.declared.event.Call.{Call};
ghost use Rattle.trace_laws.specs.Traces.{IsTrace, TraceIssuesAt, TraceAnswersAt};
ghost use Rattle.trace_text.specs.Allowed.{IsAllowed, trace_answered_so};
ghost use Rattle.trace_text.specs.Findings.{TellsFinding, IsUnfound};
ghost use Rattle.trace_text.specs.Kept.{IsKnownAs};
ghost use Rattle.trace_text.specs.Renumbered.{IsRenumbered};
ghost use Rattle.trace_text.specs.Traced.{trace_of, trace_or_why, opening_of};

use crate::issued::Issued;
use crate::linearize::{Finding, Unfound};
use crate::numbering::RenumberedTrace;
use crate::reading::Reading;
use crate::reason::TraceReason;
use lexer::{LineFault, Refusal, first_words, next_line};
use packet::Reply;
use std::alloc::{AllocError, Allocator, Global};
use std::marker::Model;
use trace_laws::Event;
use trace_lines::LineReason;

/// A trace as its text gives it.
#[derive(Drop)]
pub struct TraceText<A: Allocator = Global> {
    reading: Reading<A>,
}

impl<A: Allocator> Model for TraceText<A> {
    ghost use Rattle.trace_text.specs.Traced.{TraceSpec};

    ghost Value = { TraceSpec };

    ghost use Rattle.trace_text.specs.Inside.{trace_of_fields, IsTraceText};

    ghost view = { trace_of_fields };

    ghost invariant = { IsTraceText };
}

impl<A: Allocator> TraceText<A> {
    /// The number of words of the memory, 1 to 2^32.
    pub fn words(&self) -> u64
        ensures { result ≡ self.now.words }
    {
        self.reading.head.words()
    }

    /// The operations in the order of issue.
    pub fn issued(&self) -> &[Issued]
        ensures { result.now ≡ self.now.issued }
    {
        &self.reading.issued
    }

    /// The events: an issue has the number of the issues before it.
    pub fn events(&self) -> &[Event]
        ensures value { result.now ≡ self.now.events }
        ensures trace { IsTrace self.now.words self.now.events }
        ensures known { (i : ℕ) (call : Call) → TraceIssuesAt self.now.events i call
            → IsKnownAs self.now.issued call }
    {
        &self.reading.events
    }

    /// The line of each event.
    pub fn lines(&self) -> &[u64]
        ensures value { result.now ≡ self.now.lines }
        ensures each { length self.now.lines ≡ length self.now.events }
    {
        &self.reading.lines
    }

    /// The word that an address holds at first, 0 where the memory has no such address.
    pub fn opening(&self, address: u32) -> u64
        ensures { result ≡ slice_index (opening_of self.now) address }
    {
        self.reading.head.opening(address)
    }
}

impl<A: Allocator + Copy> TraceText<A> {
    /// Judges the trace, with at most so many configurations of a word at once: an order that explains
    /// it as it is written, or the line of the first event up to which none does.
    ///
    /// Errors: the line of the answer before which a word has more configurations, the line of the issue
    /// beside 64 operations that are open on its word, or out of memory.
    pub fn linearize(&self, alloc: A, bound: usize) -> Result<Finding<A>, Unfound>
        ensures unfound { IfErr result (IsUnfound self.now bound) }
        ensures found { IfOk result (λ finding. TellsFinding self.now bound finding) }
    {
        self.reading.linearize(alloc, bound)
    }

    /// Whether an operation may be answered so at an event that answers it, which is counted from 0: the
    /// events before it and this answer are linearizable. It is decided with at most so many
    /// configurations of a word at once.
    ///
    /// Errors: those of `linearize`, of the trace of these events.
    pub fn allows(
        &self,
        alloc: A,
        event: usize,
        id: u64,
        reply: Reply,
        bound: usize,
    ) -> Result<bool, Unfound>
        requires { (told : Reply) × TraceAnswersAt self.now.events event id told }
        ensures yes { IfOk result (λ b. b ≡ true
            → IsAllowed (opening_of self.now) self.now.events event id reply) }
        ensures no { IfOk result (λ b. b ≡ false
            → IsAllowed (opening_of self.now) self.now.events event id reply → ⊥) }
        ensures unfound { IfErr result
            (IsUnfound (trace_answered_so self.now event id reply) bound) }
    {
        self.reading.allows(alloc, event, id, reply, bound)
    }

    /// The trace over the words alone that its operations name.
    pub fn renumbered(&self, alloc: A) -> Result<RenumberedTrace<A>, AllocError>
        ensures trace { IfOk result (λ r. IsTrace (length r.opening.items) r.events.items) }
        ensures same { IfOk result (λ r. IsRenumbered self.now r.opening.items r.events.items) }
    {
        self.reading.renumbered(alloc)
    }
}

/// Reads a trace text.
///
/// Errors: where and why its first bad line is refused, or that a request for memory was.
pub fn read_trace_or_why<A: Allocator + Copy>(
    alloc: A,
    text: &[u8],
) -> Result<TraceText<A>, Refusal<TraceReason>>
    ensures { GivesOrWhy (TraceReason.Line LineReason.Memory) (λ t. t) result
        (trace_or_why (lines text.now)) }
{
    let Ok(mut reading) = Reading::none(alloc) else {
        return Err(Refusal::at(0, TraceReason::Line(LineReason::Memory)));
    };
    let mut number = 1u64;
    let mut rest = text;
    while let Some((line, after)) = next_line(rest) {
        let (words, count) = first_words(line);
        if let Err(reason) = reading.take(number, &words[..count]) {
            return Err(Refusal::at(number, reason));
        }
        number += 1;
        rest = after;
    }
    if let Some(reason) = reading.head.missing() {
        return Err(Refusal::at(number, TraceReason::Line(reason)));
    }
    Ok(TraceText { reading })
}

/// Reads a trace text.
///
/// Errors: the first fault and its line, or `Fault::Memory` at line 0.
pub fn read_trace<A: Allocator + Copy>(alloc: A, text: &[u8]) -> Result<TraceText<A>, LineFault>
    ensures { Gives (λ t. t) result (trace_of (lines text.now)) }
{
    match read_trace_or_why(alloc, text) {
        Ok(trace) => Ok(trace),
        Err(refusal) => Err(LineFault::from(refusal)),
    }
}
