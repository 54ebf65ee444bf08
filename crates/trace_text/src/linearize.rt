//! Judges the trace of a text: the words that its operations name are numbered from 0 for it.

ghost use Rattle.std.specs.Prelude.{◌≡◌, true, false, map, IfOk, IfErr};
ghost use Rattle.std.specs.List.{slice_index_or};
ghost use Rattle.packet.specs.declared.kinds.Reply.{Reply};
ghost use Rattle.trace_laws.specs.Traces.{TraceAnswersAt};
ghost use Rattle.trace_text.specs.Allowed.{IsAllowed, trace_answered_so};
ghost use Rattle.trace_text.specs.Findings.{TellsFinding, IsUnfound, trace_read, place_of_address};
ghost use Rattle.trace_text.specs.Findings.{placed_address, opening_words_at, unfound_at};
ghost use Rattle.trace_text.specs.Kept.{IsKeptIssue};
ghost use Rattle.trace_text.specs.Renumbered.{moved_call, moved_event};
ghost use Rattle.trace_text.specs.Traced.{opening_of};
ghost use Rattle.trace_text.specs.Views.{trace_so_far};

use crate::reading::Reading;
use packet::{Operation, Reply};
use std::alloc::{AllocError, Allocator};
use std::collections::BTreeMap;
use trace_judge::judge::{Verdict, decide, judge};
use trace_judge::undecided::Undecided;
use trace_laws::{Call, Event};
use trace_lines::Head;

/// What the trace of a text is judged to be.
#[derive(Drop)]
pub enum Finding<A: Allocator> {
    /// It is linearizable, in this order; the numbers of the operations count the issues before them.
    Linearizable(Vec<Call, A>),
    /// It isn't, from the event of this line on: what comes before it is.
    No { line: u64 },
    /// It isn't: with the event of this line no order explains it any more. Whether one explains what comes before isn't
    /// decided, for this reason.
    NoBy { line: u64, why: Unfound },
}

/// Why the trace of a text is not judged.
#[derive(Clone, Copy)]
pub enum Unfound {
    /// A request for memory was refused.
    Memory,
    /// At the answer of this line a word has more configurations than were allowed.
    Configurations { line: u64 },
    /// At the issue of this line more than 64 operations are open on one word.
    Operations { line: u64 },
}

/// The place of an address, 0 where it has none.
fn place_of<A: Allocator>(places: &BTreeMap<u32, u32, A>, address: u32) -> u32
    ensures { result ≡ place_of_address places.now.entries address }
{
    places.get(&address).copied().unwrap_or(0)
}

/// The address at a place, 0 where there is none.
fn address_at(addresses: &[u32], place: u32) -> u32
    ensures { result ≡ placed_address addresses.now place }
{
    addresses.get(place as usize).copied().unwrap_or(0)
}

/// An event with the place of its address.
fn moved<A: Allocator>(places: &BTreeMap<u32, u32, A>, event: Event) -> Event
    ensures { result ≡ moved_event (place_of_address places.now.entries) event }
{
    match event {
        Event::Issue(call) => Event::Issue(Call {
            id: call.id,
            operation: Operation {
                address: place_of(places, call.operation.address),
                op: call.operation.op,
            },
        }),
        Event::Answer(id, reply) => Event::Answer(id, reply),
    }
}

/// Events with the places of their addresses.
pub(crate) fn moved_events<A: Allocator + Copy>(
    alloc: A,
    places: &BTreeMap<u32, u32, A>,
    events: &[Event],
) -> Result<Vec<Event, A>, AllocError>
    ensures { IfOk result
        (λ v. v.items ≡ map (moved_event (place_of_address places.now.entries)) events.now) }
{
    let mut all = Vec::new(alloc);
    for i in 0..events.len() {
        all.push(moved(places, events[i]))?;
    }
    Ok(all)
}

/// The opening words at some addresses.
pub(crate) fn opening_words_at<A: Allocator + Copy>(
    alloc: A,
    head: &Head<A>,
    addresses: &[u32],
) -> Result<Vec<u64, A>, AllocError>
    ensures { IfOk result (λ v. v.items ≡ opening_words_at head.now.inits addresses.now) }
{
    let mut words = Vec::new(alloc);
    for i in 0..addresses.len() {
        words.push(head.opening(addresses[i]))?;
    }
    Ok(words)
}

/// A call with the address of its place.
fn named(addresses: &[u32], call: Call) -> Call
    ensures { result ≡ moved_call (placed_address addresses.now) call }
{
    Call {
        id: call.id,
        operation: Operation {
            address: address_at(addresses, call.operation.address),
            op: call.operation.op,
        },
    }
}

/// Calls with the addresses of their places.
fn named_calls<A: Allocator + Copy>(
    alloc: A,
    addresses: &[u32],
    calls: &[Call],
) -> Result<Vec<Call, A>, AllocError>
    ensures { IfOk result
        (λ v. v.items ≡ map (moved_call (placed_address addresses.now)) calls.now) }
{
    let mut all = Vec::new(alloc);
    for i in 0..calls.len() {
        all.push(named(addresses, calls[i]))?;
    }
    Ok(all)
}

impl From<AllocError> for Unfound {
    ghost use Rattle.trace_text.specs.declared.linearize.Unfound.TheVariants.{Memory as Refused};

    ghost from_gives = { λ _ e. e ≡ Refused };

    fn from(_refused: AllocError) -> Unfound {
        Unfound::Memory
    }
}

/// The line of an event, 0 where there is none.
fn line_at(lines: &[u64], event: usize) -> u64
    ensures { result ≡ slice_index_or lines.now event 0 }
{
    lines.get(event).copied().unwrap_or(0)
}

/// Why a trace is not judged, at its line.
fn at_line(lines: &[u64], why: Undecided) -> Unfound
    ensures { result ≡ unfound_at lines.now why }
{
    match why {
        Undecided::Memory => Unfound::Memory,
        Undecided::Configurations { event } => Unfound::Configurations {
            line: line_at(lines, event),
        },
        Undecided::Operations { event } => Unfound::Operations {
            line: line_at(lines, event),
        },
    }
}

impl<A: Allocator + Copy> Reading<A> {
    /// Judges the trace, with at most so many configurations of a word at once.
    pub(crate) fn linearize(&self, alloc: A, bound: usize) -> Result<Finding<A>, Unfound>
        requires { IsKeptIssue (trace_so_far self.now) }
        ensures unfound { IfErr result (IsUnfound (trace_read (trace_so_far self.now)) bound) }
        ensures found { IfOk result
            (λ finding. TellsFinding (trace_read (trace_so_far self.now)) bound finding) }
    {
        let opening = opening_words_at(alloc, &self.head, &self.addresses)?;
        let events = moved_events(alloc, &self.places, &self.events)?;
        match judge(alloc, &opening, &events, bound) {
            Ok(Verdict::Linearizable(order)) => {
                let order = named_calls(alloc, &self.addresses, &order)?;
                Ok(Finding::Linearizable(order))
            }
            Ok(Verdict::No { event }) => Ok(Finding::No {
                line: line_at(&self.lines, event),
            }),
            Ok(Verdict::NoBy { event, why }) => Ok(Finding::NoBy {
                line: line_at(&self.lines, event),
                why: at_line(&self.lines, why),
            }),
            Err(why) => Err(at_line(&self.lines, why)),
        }
    }

    /// Whether an operation may be answered so at an event that answers it, decided with at most so many
    /// configurations of a word at once.
    pub(crate) fn allows(
        &self,
        alloc: A,
        event: usize,
        id: u64,
        reply: Reply,
        bound: usize,
    ) -> Result<bool, Unfound>
        requires kept { IsKeptIssue (trace_so_far self.now) }
        requires answered { (told : Reply) × TraceAnswersAt self.now.events.items event id told }
        ensures yes { IfOk result (λ b. b ≡ true → IsAllowed
            (opening_of (trace_read (trace_so_far self.now))) self.now.events.items event id
            reply) }
        ensures no { IfOk result (λ b. b ≡ false → IsAllowed
            (opening_of (trace_read (trace_so_far self.now))) self.now.events.items event id reply
            → ⊥) }
        ensures unfound { IfErr result (IsUnfound (trace_answered_so
            (trace_read (trace_so_far self.now)) event id reply) bound) }
    {
        let opening = opening_words_at(alloc, &self.head, &self.addresses)?;
        let mut events = moved_events(alloc, &self.places, &self.events[..event])?;
        if events.push(Event::Answer(id, reply)).is_err() {
            return Err(Unfound::Memory);
        }
        match decide(alloc, &opening, &events, bound) {
            Ok(order) => Ok(order.is_some()),
            Err(why) => Err(at_line(&self.lines, why)),
        }
    }
}
