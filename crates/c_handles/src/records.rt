//! The trace that records are.

ghost use Rattle.std.specs.Prelude.{◌≡◌, ◌<◌, IfOk, Some, length, slice_get};
ghost use Rattle.lexer.specs.Faults.{Gives};
ghost use Rattle.trace_laws.specs.Traces.{IsTrace};
ghost use Rattle.c_handles.specs.Gathered.{trace_of_records};

use crate::fault::fault_at;
use crate::gathering::Gathering;
use crate::record::EventRecord;
use lexer::LineFault;
use std::alloc::Allocator;
use torus::Fault;
use trace_laws::Event;

/// The record at a place.
fn record_at(records: &[EventRecord], place: usize) -> EventRecord
    requires { place < length records.now }
    ensures { slice_get records.now place ≡ Some result }
{
    records[place]
}

/// The trace that records are, over a memory of so many words; the number of an operation is the place
/// of its issue among them.
///
/// Errors: the fault of the first record that can't stand, with its place from 0; or `Fault::Memory`,
/// with 0.
pub fn trace_of_records<A: Allocator + Copy>(
    alloc: A,
    words: usize,
    records: &[EventRecord],
) -> Result<Vec<Event, A>, LineFault>
    ensures value { Gives (λ v. v.items) result (trace_of_records words records.now) }
    ensures trace { IfOk result (λ v. IsTrace words v.items) }
{
    let Ok(mut gathering) = Gathering::none(alloc) else {
        return Err(fault_at(Fault::Memory, 0));
    };
    for place in 0..records.len() {
        let event = record_at(records, place);
        if let Err(fault) = gathering.take(words, event) {
            return Err(fault_at(fault, place as u64));
        }
    }
    Ok(gathering.events)
}
