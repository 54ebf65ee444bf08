//! The event up to which no order explains a part of a trace.

ghost use Rattle.std.specs.Prelude.{IfOk, length};
ghost use Rattle.trace_laws.specs.Orders.{IsLinearizable};
ghost use Rattle.trace_laws.specs.Traces.{IsTrace};
ghost use Rattle.trace_answer.specs.Parts.{IsBadEvent, IsBrokenAt, IsExplained, part_of};

use crate::part::{kept_events, stands_for};
use std::alloc::{AllocError, Allocator};
use trace_judge::judge::{Verdict, judge};
use trace_laws::Event;
use trace_text::TraceText;

/// The first event up to which no order explains a trace that none explains, or one of which it isn't decided whether it
/// is the first, with at most so many configurations of a word at once.
///
/// Errors: memory.
fn bad_event<A: Allocator + Copy>(
    alloc: A,
    opening: &[u64],
    events: &[Event],
    bound: usize,
) -> Result<usize, AllocError>
    requires trace { IsTrace (length opening.now) events.now }
    requires none { IsLinearizable opening.now events.now → ⊥ }
    ensures { IfOk result (IsBadEvent opening.now events.now bound) }
{
    match judge(alloc, opening, events, bound) {
        Ok(Verdict::Linearizable(_)) => unreachable!(),
        Ok(Verdict::No { event }) => Ok(event),
        Ok(Verdict::NoBy { event, .. }) => Ok(event),
        Err(why) => {
            let _stands = stands_for(why)?;
            Ok(events.len() - 1)
        }
    }
}

/// The first event up to which no order explains a part of a trace that none explains, or one of which it isn't decided
/// whether it is the first, with at most so many configurations of a word at once. It is counted among those of the part.
///
/// Errors: memory.
pub(crate) fn broken_at<A: Allocator + Copy>(
    alloc: A,
    trace: &TraceText<A>,
    kept: &[bool],
    bound: usize,
) -> Result<usize, AllocError>
    requires { IsExplained (part_of trace.now kept.now) → ⊥ }
    ensures { IfOk result (IsBrokenAt (part_of trace.now kept.now) bound) }
{
    let over = trace.renumbered(alloc)?;
    let events = kept_events(alloc, kept, &over.events)?;
    let event = bad_event(alloc, &over.opening, &events, bound)?;
    Ok(event)
}
