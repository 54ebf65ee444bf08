//! The judge of traces, as C sees it.

ghost use Rattle.std.specs.Prelude.{◌≡◌, ◌⊎◌, IfOk, length};
ghost use Rattle.trace_laws.specs.Traces.{IsTrace};
ghost use Rattle.c_handles.specs.Gathered.{trace_of_records};
ghost use Rattle.torusmem_c.specs.Room.{LacksMemory};
ghost use Rattle.torusmem_c.specs.Traces.{PutsOrder, TellsTrace, TellsUnjudged, TellsVerdict, numbers_in};
ghost use Rattle.torusmem_c.specs.Traces.{undecided_outcome};

use crate::outcome::{Code, Outcome, fault_outcome, no_memory};
use crate::room::put_over;
use c_handles::{EventRecord, trace_of_records};
use std::alloc::{AllocError, Global};
use trace_judge::Undecided;
use trace_judge::judge::{Verdict, judge};
use trace_laws::{Call, Event};

/// The numbers of an order's operations.
fn numbers_in(alloc: Global, order: &[Call]) -> Result<Vec<u64>, AllocError>
    ensures { IfOk result (λ numbers. numbers.items ≡ numbers_in order.now) }
{
    order.iter().map(|call| call.id).collect(alloc)
}

/// What C sees of the reason why a trace is not judged.
fn undecided_outcome(why: Undecided) -> Outcome
    ensures { result ≡ undecided_outcome why }
{
    match why {
        Undecided::Memory => no_memory(),
        Undecided::Configurations { event } => Outcome::of(Code::TooMany, event as u64),
        Undecided::Operations { event } => Outcome::of(Code::TooOpen, event as u64),
    }
}

/// Puts an order into a buffer, unless memory is refused, or tells the event up to which there is none, or why
/// that isn't decided.
fn put_verdict(alloc: Global, verdict: &Verdict<Global>, out: &mut [u64]) -> Outcome
    ensures { PutsOrder verdict.now out.old out.new result ⊎ LacksMemory out.old out.new result }
{
    match verdict {
        Verdict::Linearizable(order) => match numbers_in(alloc, order.as_slice()) {
            Ok(numbers) => put_over(numbers.as_slice(), out),
            Err(_) => no_memory(),
        },
        Verdict::No { event } => Outcome::of(Code::NotLinearizable, *event as u64),
        Verdict::NoBy { why, .. } => undecided_outcome(*why),
    }
}

/// Judges a trace, and puts an order that explains it into a buffer.
fn put_judged(
    alloc: Global,
    opening: &[u64],
    trace: &[Event],
    configurations: u64,
    out: &mut [u64],
) -> Outcome
    requires { IsTrace (length opening.now) trace.now }
    ensures { (TellsVerdict Global opening.now trace.now configurations out.old out.new result
        ⊎ TellsUnjudged opening.now trace.now configurations out.old out.new result)
        ⊎ LacksMemory out.old out.new result }
{
    match judge(alloc, opening, trace, configurations as usize) {
        Ok(verdict) => put_verdict(alloc, &verdict, out),
        Err(why) => undecided_outcome(why),
    }
}

/// Judges the trace that records are, over a memory that opens with these words, with at most so many
/// configurations of a word at once, and puts an order that explains it into a buffer, as the places
/// of its operations' issues among the records.
///
/// Errors: the first record that can't stand, or out of memory. The buffer is as it was then.
#[unsafe(no_mangle)]
pub extern "C" fn torusmem_linearize(
    alloc: Global,
    opening: &[u64],
    events: &[EventRecord],
    configurations: u64,
    out: &mut [u64],
) -> Outcome
    ensures { TellsTrace Global opening.now (trace_of_records (length opening.now) events.now)
        configurations out.old out.new result ⊎ LacksMemory out.old out.new result }
{
    let trace = match trace_of_records(alloc, opening.len(), events) {
        Ok(trace) => trace,
        Err(fault) => return fault_outcome(fault),
    };
    put_judged(alloc, opening, trace.as_slice(), configurations, out)
}
