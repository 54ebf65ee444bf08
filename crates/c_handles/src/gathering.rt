//! What the records so far gave.

ghost use Rattle.std.specs.Prelude.{◌≡◌, ◌<◌, ◌++◌, ◌∷◌, [], true, false, IfOk, IfErr, OnOk};
ghost use Rattle.std.specs.Prelude.{slice_get, slice_set};
ghost use Rattle.std.specs.List.{slice_index_or};
ghost use Rattle.lexer.specs.Outcome.{Makes};
ghost use Rattle.c_handles.specs.Gathered.{answer_added, answer_gathered, issue_gathered};
ghost use Rattle.c_handles.specs.Gathered.{after_record, is_replied};
ghost use Rattle.c_handles.specs.Gathered.{nothing_gathered, gathered_issue};
ghost use Rattle.c_handles.specs.Views.{gathered_of};

use crate::record::{EventRecord, is_reply_to};
use packet::{Operation, Reply};
use std::alloc::{AllocError, Allocator};
use torus::Fault;
use trace_laws::{Call, Event};
use trace_text::IssueNumbers;

/// What the records so far gave.
#[derive(Drop)]
pub(crate) struct Gathering<A: Allocator> {
    /// The operations of each processor, by their numbers.
    pub(crate) numbers: IssueNumbers<A>,
    /// For each event whether it is an issue that is answered.
    pub(crate) answered: Vec<bool, A>,
    pub(crate) events: Vec<Event, A>,
}

/// Whether the event at a place issues an operation that a reply goes with.
fn is_replied(events: &[Event], at: u64, reply: Reply) -> bool
    ensures { result ≡ is_replied (slice_get events.now at) reply }
{
    match events.get(at as usize).copied() {
        Some(Event::Issue(call)) => is_reply_to(call.operation.op, reply),
        Some(Event::Answer(_, _)) => false,
        None => false,
    }
}

/// Whether the event at a place is an issue that is answered.
fn is_answered(answered: &[bool], at: u64) -> bool
    ensures { result ≡ slice_index_or answered.now at false }
{
    answered.get(at as usize).copied().unwrap_or(false)
}

impl<A: Allocator + Copy> Gathering<A> {
    /// Nothing is given.
    pub(crate) fn none(alloc: A) -> Result<Gathering<A>, AllocError>
        ensures { IfOk result (λ g. gathered_of g ≡ nothing_gathered) }
    {
        Ok(Gathering {
            numbers: IssueNumbers::none(alloc)?,
            answered: Vec::new(alloc),
            events: Vec::new(alloc),
        })
    }

    /// Takes what a record gives, over a memory of so many words.
    pub(crate) fn take(&mut self, words: usize, event: EventRecord) -> Result<(), Fault>
        ensures { Makes Fault.Memory (gathered_of self.new) result
            (after_record words (gathered_of self.old) event) }
    {
        match event.kind {
            0 => self.take_issue(words, event),
            1 => self.take_answer(event),
            _ => Err(Fault::Line),
        }
    }

    /// Takes an issue.
    fn take_issue(&mut self, words: usize, event: EventRecord) -> Result<(), Fault>
        ensures { Makes Fault.Memory (gathered_of self.new) result
            (issue_gathered words (gathered_of self.old) event) }
    {
        let Some(op) = event.op() else {
            return Err(Fault::Line);
        };
        if event.processor >= 4096 {
            return Err(Fault::Processor);
        }
        if event.address as usize >= words {
            return Err(Fault::Address);
        }
        let address = event.address;
        self.add_issue(event.processor, Operation { address, op })
    }

    /// Adds an operation.
    fn add_issue(&mut self, p: u32, operation: Operation) -> Result<(), Fault>
        requires { p < 4096 }
        ensures value { OnOk result
            (gathered_of self.new ≡ gathered_issue (gathered_of self.old) p operation) }
        ensures memory { IfErr result (λ e. e ≡ Fault.Memory) }
    {
        let id = self.events.len() as u64;
        self.numbers.add(p, id)?;
        self.note(Event::Issue(Call { id, operation }))
    }

    /// Adds an event, which isn't an issue that is answered.
    fn note(&mut self, event: Event) -> Result<(), Fault>
        ensures numbers { self.new.numbers ≡ self.old.numbers }
        ensures answered { OnOk result
            (self.new.answered.items ≡ self.old.answered.items ++ false ∷ []) }
        ensures events { OnOk result (self.new.events.items ≡ self.old.events.items ++ event ∷ []) }
        ensures memory { IfErr result (λ e. e ≡ Fault.Memory) }
    {
        if self.answered.push(false).is_err() {
            return Err(Fault::Memory);
        }
        if self.events.push(event).is_err() {
            return Err(Fault::Memory);
        }
        Ok(())
    }

    /// Takes an answer.
    fn take_answer(&mut self, event: EventRecord) -> Result<(), Fault>
        ensures { Makes Fault.Memory (gathered_of self.new) result
            (answer_gathered (gathered_of self.old) event) }
    {
        let Some(reply) = event.reply() else {
            return Err(Fault::Line);
        };
        if event.processor >= 4096 {
            return Err(Fault::Processor);
        }
        let Some(number) = self
            .numbers
            .number(event.processor, u128::from(event.index))
        else {
            return Err(Fault::Range);
        };
        self.answer_added(number, reply)
    }

    /// Adds the answer to the operation of this number.
    fn answer_added(&mut self, number: u64, reply: Reply) -> Result<(), Fault>
        ensures { Makes Fault.Memory (gathered_of self.new) result
            (answer_added (gathered_of self.old) number reply) }
    {
        if !is_replied(&self.events, number, reply) {
            return Err(Fault::Line);
        }
        if is_answered(&self.answered, number) {
            return Err(Fault::Setting);
        }
        mark(&mut self.answered, number);
        self.note(Event::Answer(number, reply))
    }
}

/// Marks the event at a place as an issue that is answered.
fn mark(answered: &mut [bool], at: u64)
    ensures { answered.new ≡ slice_set answered.old at true }
{
    if (at as usize) < answered.len() {
        answered[at as usize] = true;
    }
}
