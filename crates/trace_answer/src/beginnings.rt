//! Parts of a trace to begin with, where a small one is looked for.

ghost use Rattle.std.specs.Prelude.{◌≡◌, true, IfOk, length, replicate};

use crate::closed::{is_lacking, note_answered, note_kept, unanswered_found};
use crate::part::id_of;
use std::alloc::{AllocError, Allocator};
use trace_laws::Event;
use trace_text::{Issued, TraceText};
use trace_zones::cited::cited_events;
use trace_zones::found::{Shown, look};

/// All operations.
///
/// Errors: memory.
pub(crate) fn all_kept<A: Allocator + Copy>(
    alloc: A,
    trace: &TraceText<A>,
) -> Result<Vec<bool, A>, AllocError>
    ensures { IfOk result (λ kept. kept.items ≡ replicate (length trace.now.issued) true) }
{
    vec![in alloc; true; trace.issued().len()]
}

/// Keeps an operation.
fn keep(kept: &mut [bool], k: usize) {
    if let Some(flag) = kept.get_mut(k) {
        *flag = true;
    }
}

/// Keeps what may have left what the operations found that are kept, and what those found, as far as one look at each event,
/// the last one first, finds it. Answers whether it found some.
///
/// Errors: memory.
fn close_once<A: Allocator + Copy>(
    alloc: A,
    issued: &[Issued],
    events: &[Event],
    kept: &mut [bool],
) -> Result<bool, AllocError> {
    let mut is_more = false;
    let mut found = unanswered_found(alloc, issued, kept)?;
    let mut i = events.len();
    'events: while i > 0 {
        i -= 1;
        if let Some(event) = events.get(i).copied() {
            if is_lacking(&found, issued, kept, event) {
                is_more = true;
                let id = id_of(event) as usize;
                keep(kept, id);
                note_kept(&mut found, issued, kept, id)?;
            }
            note_answered(&mut found, issued, kept, event)?;
        }
    }
    Ok(is_more)
}

/// How many looks are taken.
const LOOKS: u32 = 64;

/// Keeps what may have left what the operations found that are kept, and what those found, as far as these looks find it.
///
/// Errors: memory.
fn close<A: Allocator + Copy>(
    alloc: A,
    trace: &TraceText<A>,
    kept: &mut [bool],
) -> Result<(), AllocError> {
    for _ in 0..LOOKS {
        if !close_once(alloc, trace.issued(), trace.events(), kept)? {
            return Ok(());
        }
    }
    Ok(())
}

/// The event of a line, if there is one.
fn event_of<A: Allocator>(trace: &TraceText<A>, line: u64) -> Option<usize> {
    trace.lines().iter().position(|known| *known == line)
}

/// The events that a certificate cites which is guessed of the events up to one.
///
/// Errors: memory.
fn cited_up_to<A: Allocator + Copy>(
    alloc: A,
    trace: &TraceText<A>,
    event: usize,
) -> Result<Vec<usize, A>, AllocError> {
    let whole = trace.renumbered(alloc)?;
    if event >= whole.events.len() {
        return Ok(Vec::new(alloc));
    }
    match look(alloc, &whole.opening, &whole.events[..event + 1])? {
        Shown::Conflict { word: _word, why } => cited_events(alloc, &why),
        _ => Ok(Vec::new(alloc)),
    }
}

/// The operations that a certificate cites which no order explains up to a line, with what may have left what they found;
/// none where none is guessed.
///
/// Errors: memory.
pub(crate) fn cited_kept<A: Allocator + Copy>(
    alloc: A,
    trace: &TraceText<A>,
    line: u64,
) -> Result<Vec<bool, A>, AllocError> {
    let mut kept = vec![in alloc; false; trace.issued().len()]?;
    let Some(event) = event_of(trace, line) else {
        return Ok(kept);
    };
    let cited = cited_up_to(alloc, trace, event)?;
    for k in 0..cited.len() {
        if let Some(event) = trace.events().get(cited[k]).copied() {
            keep(&mut kept, id_of(event) as usize);
        }
    }
    close(alloc, trace, &mut kept)?;
    Ok(kept)
}

/// The address of the operation of an event.
fn address_of<A: Allocator>(trace: &TraceText<A>, event: usize) -> Option<u32> {
    let id = id_of(trace.events().get(event).copied()?);
    Some(trace.issued().get(id as usize).copied()?.operation.address)
}

/// Keeps the last operations on the word of an event that are issued up to it, so many of them.
fn keep_last<A: Allocator>(trace: &TraceText<A>, kept: &mut [bool], end: usize, count: usize) {
    let address = address_of(trace, end);
    let mut more = count;
    let mut event = end;
    'events: while event > 0 && more > 0 {
        if let Some(Event::Issue(call)) = trace.events().get(event).copied()
            && address_of(trace, event) == address
        {
            keep(kept, call.id as usize);
            more -= 1;
        }
        event -= 1;
    }
}

/// The operation that the event of a line answers, the last ones on its word that are issued before it, so many of them, and
/// what may have left what these found; none where the line has no event.
///
/// Errors: memory.
pub(crate) fn near_kept<A: Allocator + Copy>(
    alloc: A,
    trace: &TraceText<A>,
    line: u64,
    count: usize,
) -> Result<Vec<bool, A>, AllocError> {
    let mut kept = vec![in alloc; false; trace.issued().len()]?;
    let Some(end) = event_of(trace, line) else {
        return Ok(kept);
    };
    if let Some(event) = trace.events().get(end).copied() {
        keep(&mut kept, id_of(event) as usize);
    }
    keep_last(trace, &mut kept, end, count);
    close(alloc, trace, &mut kept)?;
    Ok(kept)
}
