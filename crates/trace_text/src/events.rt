//! Issues and answers as a trace text gives them.

ghost use Rattle.std.specs.Prelude.{◌≡◌, ◌<◌, ◌^◌, ◌++◌, ◌∷◌, [], Some, length, OnOk};
ghost use Rattle.std.specs.Prelude.{IfErr, slice_get, slice_set};
ghost use Rattle.lexer.specs.Outcome.{Makes};
ghost use Rattle.trace_lines.specs.Head.{with_value};
ghost use Rattle.trace_text.specs.Traced.{add_issue, answer_of_index, add_answer, placed};
ghost use Rattle.trace_text.specs.Traced.{with_event};
ghost use Rattle.trace_text.specs.Views.{trace_so_far};

use crate::issued::Issued;
use crate::reading::Reading;
use crate::reason::TraceReason;
use packet::{Operation, Reply};
use std::alloc::Allocator;
use std::collections::BTreeMap;
use trace_laws::{Call, Event};
use trace_lines::{LineReason, reply_read, unwanted_reply};

/// The operation of a number.
fn issued_at(issued: &[Issued], number: u64) -> Option<Issued>
    ensures { result ≡ slice_get issued.now number }
{
    issued.get(number as usize).copied()
}

/// Gives the operation of a number its reply.
fn set_reply(issued: &mut [Issued], number: u64, known: Issued, reply: Reply)
    requires { slice_get issued.old number ≡ Some known }
    ensures { issued.new ≡ slice_set issued.old number (record known { reply = Some reply }) }
{
    issued[number as usize] = Issued {
        processor: known.processor,
        index: known.index,
        operation: known.operation,
        reply: Some(reply),
    };
}

/// Gives an address the next place.
fn add_place<A: Allocator + Copy>(
    places: &mut BTreeMap<u32, u32, A>,
    addresses: &mut Vec<u32, A>,
    address: u32,
) -> Result<(), TraceReason>
    requires { length addresses.old.items < 2 ^ 20 }
    ensures places { OnOk result (places.new.entries
        ≡ with_value places.old.entries address (length addresses.old.items)) }
    ensures addresses { OnOk result
        (addresses.new.items ≡ addresses.old.items ++ address ∷ []) }
    ensures memory { IfErr result (λ e. e ≡ TraceReason.Line LineReason.Memory) }
{
    let place = addresses.len() as u32;
    if places.insert(address, place).is_err() {
        return Err(TraceReason::Line(LineReason::Memory));
    }
    if addresses.push(address).is_err() {
        return Err(TraceReason::Line(LineReason::Memory));
    }
    Ok(())
}

impl<A: Allocator + Copy> Reading<A> {
    /// Adds an operation.
    pub(crate) fn add_issue(
        &mut self,
        line: u64,
        p: u32,
        operation: Operation,
    ) -> Result<(), TraceReason>
        requires { p < 4096 }
        ensures { Makes (TraceReason.Line LineReason.Memory) (trace_so_far self.new) result
            (add_issue (trace_so_far self.old) line p operation) }
    {
        let number = self.issued.len();
        if number >= 1 << 22 {
            return Err(TraceReason::OperationsLimits);
        }
        self.place(operation.address)?;
        let id = number as u64;
        let index = self.numbers.count(p);
        if self.numbers.add(p, id).is_err() {
            return Err(TraceReason::Line(LineReason::Memory));
        }
        let issued = Issued {
            processor: p,
            index,
            operation,
            reply: None,
        };
        if self.issued.push(issued).is_err() {
            return Err(TraceReason::Line(LineReason::Memory));
        }
        self.note(line, Event::Issue(Call { id, operation }))
    }

    /// Gives an address a place, where it has none.
    fn place(&mut self, address: u32) -> Result<(), TraceReason>
        ensures { Makes (TraceReason.Line LineReason.Memory) (trace_so_far self.new) result
            (placed (trace_so_far self.old) address) }
    {
        if self.places.contains_key(&address) {
            return Ok(());
        }
        let place = self.addresses.len();
        if place >= 1 << 20 {
            return Err(TraceReason::AddressesLimits);
        }
        add_place(&mut self.places, &mut self.addresses, address)
    }

    /// Adds an event.
    fn note(&mut self, line: u64, event: Event) -> Result<(), TraceReason>
        ensures value { OnOk result
            (trace_so_far self.new ≡ with_event (trace_so_far self.old) line event) }
        ensures memory { IfErr result (λ e. e ≡ TraceReason.Line LineReason.Memory) }
    {
        if self.events.push(event).is_err() {
            return Err(TraceReason::Line(LineReason::Memory));
        }
        if self.lines.push(line).is_err() {
            return Err(TraceReason::Line(LineReason::Memory));
        }
        Ok(())
    }

    /// An operation of a processor is answered.
    pub(crate) fn answer_of_index(
        &mut self,
        line: u64,
        p: u32,
        index: u128,
        told: Option<u128>,
    ) -> Result<(), TraceReason>
        requires { p < 4096 }
        ensures { Makes (TraceReason.Line LineReason.Memory) (trace_so_far self.new) result
            (answer_of_index (trace_so_far self.old) line p index told) }
    {
        let too_few = TraceReason::NotIssued(self.numbers.count(p));
        let Some(number) = self.numbers.number(p, index) else {
            return Err(too_few);
        };
        let Some(issued) = issued_at(&self.issued, number) else {
            return Err(too_few);
        };
        self.add_answer(line, number, issued, told)
    }

    /// Adds the answer to the operation of this number.
    fn add_answer(
        &mut self,
        line: u64,
        number: u64,
        issued: Issued,
        told: Option<u128>,
    ) -> Result<(), TraceReason>
        requires { slice_get self.old.issued.items number ≡ Some issued }
        ensures { Makes (TraceReason.Line LineReason.Memory) (trace_so_far self.new) result
            (add_answer (trace_so_far self.old) line number issued told) }
    {
        if let Some(reason) = unwanted_reply(issued.operation.op.code(), told) {
            return Err(TraceReason::Line(reason));
        }
        if issued.reply.is_some() {
            return Err(TraceReason::AnsweredTwice);
        }
        let reply = reply_read(told)?;
        set_reply(&mut self.issued, number, issued, reply);
        self.note(line, Event::Answer(number, reply))
    }
}
