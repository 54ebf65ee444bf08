//! Whether an order explains a part of a trace.

ghost use Rattle.std.specs.Prelude.{◌≡◌, ◌⊎◌, true, false, IfOk, length};
ghost use Rattle.trace_judge.specs.declared.undecided.Undecided.TheVariants.{Memory};
ghost use Rattle.trace_laws.specs.Orders.{IsLinearizable};
ghost use Rattle.trace_laws.specs.Traces.{IsTrace};
ghost use Rattle.trace_answer.specs.Kept.{id_of, is_of_kept, kept_events};
ghost use Rattle.trace_answer.specs.Parts.{IsExplained, IsOpenTrace, IsUnshown};
ghost use Rattle.trace_answer.specs.Parts.{PartBreaks, PartStands, part_of};

use crate::closed::is_closed;
use state_search::PartJudge;
use std::alloc::{AllocError, Allocator};
use trace_judge::Undecided;
use trace_judge::judge::decide;
use trace_laws::Event;
use trace_text::TraceText;

/// The number of an event's operation.
pub(crate) fn id_of(event: Event) -> u64
    ensures { result ≡ id_of event }
{
    match event {
        Event::Issue(call) => call.id,
        Event::Answer(id, _) => id,
    }
}

/// Whether an event's operation is kept.
pub(crate) fn is_of_kept(kept: &[bool], event: Event) -> bool
    ensures { result ≡ is_of_kept kept.now event }
{
    kept.get(id_of(event) as usize).copied().unwrap_or(false)
}

/// The events of the operations that are kept.
pub(crate) fn kept_events<A: Allocator + Copy>(
    alloc: A,
    kept: &[bool],
    events: &[Event],
) -> Result<Vec<Event, A>, AllocError>
    ensures { IfOk result (λ all. all.items ≡ kept_events kept.now events.now) }
{
    let mut all = Vec::new(alloc);
    for i in 0..events.len() {
        if is_of_kept(kept, events[i]) {
            all.push(events[i])?;
        }
    }
    Ok(all)
}

/// Answers that a trace isn't shown to have no order, where it isn't decided for a reason that isn't memory.
///
/// Errors: memory.
pub(crate) fn stands_for(why: Undecided) -> Result<bool, AllocError>
    ensures { IfOk result (λ b. (b ≡ false) × (why ≡ Memory → ⊥)) }
{
    match why {
        Undecided::Memory => Err(AllocError),
        Undecided::Configurations { .. } => Ok(false),
        Undecided::Operations { .. } => Ok(false),
    }
}

/// Whether no order explains some events over these opening words, decided with at most so many configurations of a word
/// at once.
///
/// Errors: memory.
fn is_unexplained<A: Allocator + Copy>(
    alloc: A,
    opening: &[u64],
    events: &[Event],
    bound: usize,
) -> Result<bool, AllocError>
    requires { IsTrace (length opening.now) events.now }
    ensures yes { IfOk result (λ b. b ≡ true → IsLinearizable opening.now events.now → ⊥) }
    ensures no { IfOk result (λ b. b ≡ false → IsLinearizable opening.now events.now
        ⊎ IsUnshown opening.now events.now bound) }
{
    match decide(alloc, opening, events, bound) {
        Ok(order) => Ok(order.is_none()),
        Err(why) => stands_for(why),
    }
}

/// Whether no order explains a part of a trace, decided with at most so many configurations of a word at
/// once.
///
/// Errors: memory.
fn has_no_order<A: Allocator + Copy>(
    alloc: A,
    trace: &TraceText<A>,
    kept: &[bool],
    bound: usize,
) -> Result<bool, AllocError>
    ensures yes { IfOk result (λ b. b ≡ true → IsExplained (part_of trace.now kept.now) → ⊥) }
    ensures no { IfOk result (λ b. b ≡ false → IsExplained (part_of trace.now kept.now)
        ⊎ IsOpenTrace (part_of trace.now kept.now) bound) }
{
    let over = trace.renumbered(alloc)?;
    let events = kept_events(alloc, kept, &over.events)?;
    is_unexplained(alloc, &over.opening, &events, bound)
}

/// Whether a part keeps all that may have left what it found, and no order explains it, decided with at most so many
/// configurations of a word at once.
///
/// Errors: memory.
fn is_breaking<A: Allocator + Copy>(
    alloc: A,
    trace: &TraceText<A>,
    kept: &[bool],
    bound: usize,
) -> Result<bool, AllocError>
    ensures yes { IfOk result (λ b. b ≡ true → PartBreaks trace.now kept.now) }
    ensures no { IfOk result (λ b. b ≡ false → PartStands trace.now bound kept.now) }
{
    if !is_closed(alloc, trace.issued(), trace.events(), kept)? {
        return Ok(false);
    }
    let is_broken = has_no_order(alloc, trace, kept, bound)?;
    Ok(is_broken)
}

/// The judge of parts of a trace, with at most so many configurations of a word at once.
#[derive(Clone, Copy)]
pub(crate) struct TraceJudge<'a, A: Allocator> {
    pub(crate) trace: &'a TraceText<A>,
    pub(crate) bound: usize,
}

impl<'a, A: Allocator + Copy> PartJudge<A> for TraceJudge<'a, A> {
    ghost breaks = { λ judge kept. PartBreaks judge.trace.now kept };

    ghost stands = { λ judge kept. PartStands judge.trace.now judge.bound kept };

    fn is_broken(&self, alloc: A, kept: &[bool], left: &mut u32) -> Result<bool, AllocError> {
        *left -= 1;
        is_breaking(alloc, self.trace, kept, self.bound)
    }
}
