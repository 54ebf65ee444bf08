//! Why an answer is not one that a single memory gives.

ghost use Rattle.std.specs.Prelude.{◌≡◌, true, false, ◌<◌, ◌↔◌, ℕ, IfOk, IfErr, MatchOption};
ghost use Rattle.std.specs.Prelude.{Contains};
ghost use Rattle.std.specs.List.Sorted.{IsStrictlyIncreasing};
ghost use Rattle.packet.specs.declared.kinds.Reply.{Reply};
ghost use Rattle.packet.specs.declared.kinds.Reply.TheVariants.{Old};
ghost use Rattle.trace_laws.specs.Traces.{TraceAnswersAt};
ghost use Rattle.trace_judge.specs.Stops.{IsAnAnswer};
ghost use Rattle.trace_text.specs.Allowed.{IsAllowed};
ghost use Rattle.trace_text.specs.Traced.{opening_of};
ghost use Rattle.trace_why.specs.declared.calls.CallAt.{CallAt};
ghost use Rattle.trace_why.specs.Calls.{AreOpenOn, IsAnsweredAtEvent};
ghost use Rattle.trace_why.specs.Why.{TellsWhyNot, IsUntold};

use crate::answers::add_answers;
use crate::calls::{CallAt, issue_before};
use crate::open::open_on;
use crate::start::start;
use crate::untold::Untold;
use crate::values::reach;
use packet::Reply;
use std::alloc::Allocator;
use trace_laws::Event;
use trace_text::TraceText;

/// Why no order explains a trace with an answer: what else may be told there.
#[derive(Drop)]
pub struct WhyNot<A: Allocator> {
    /// The number of the operation that is answered.
    pub id: u64,
    pub reply: Reply,
    /// The word that it is on.
    pub address: u32,
    /// The operations that are open on the word before the answer, in the order of issue; the one that is
    /// answered is among them.
    pub pending: Vec<CallAt, A>,
    /// The values that an answer may tell there, rising.
    pub values: Vec<u64, A>,
}

/// Values that an answer to an operation may tell at an event, and maybe others.
fn candidates<A: Allocator + Copy>(
    alloc: A,
    trace: &TraceText<A>,
    event: usize,
    issue: CallAt,
    pending: &[CallAt],
    tries: usize,
) -> Result<Vec<u64, A>, Untold>
    requires answered { IsAnsweredAtEvent trace.now.events event issue }
    requires pending { AreOpenOn trace.now.events event issue.call.operation.address pending.now }
    ensures all { IfOk result (λ values. (v : ℕ)
        → IsAllowed (opening_of trace.now) trace.now.events event issue.call.id (Old v)
        → Contains values.items v) }
    ensures untold { (most : ℕ) → IfErr result (IsUntold trace.now event tries most) }
{
    let events = trace.events();
    let address = issue.call.operation.address;
    let (from, mut values) = start(alloc, trace, issue.event, address)?;
    add_answers(events, from, event, address, &mut values, tries)?;
    reach(alloc, &mut values, pending, tries)?;
    Ok(values)
}

/// Whether an answer may tell a value.
fn may_tell<A: Allocator + Copy>(
    alloc: A,
    trace: &TraceText<A>,
    event: usize,
    id: u64,
    value: u64,
    bound: usize,
) -> Result<bool, Untold>
    requires { (told : Reply) × TraceAnswersAt trace.now.events event id told }
    ensures yes { IfOk result (λ b. b ≡ true
        → IsAllowed (opening_of trace.now) trace.now.events event id (Old value)) }
    ensures no { IfOk result (λ b. b ≡ false
        → IsAllowed (opening_of trace.now) trace.now.events event id (Old value) → ⊥) }
    ensures untold { (tries : ℕ) → IfErr result (IsUntold trace.now event tries bound) }
{
    match trace.allows(alloc, event, id, Reply::Old(value), bound) {
        Ok(may) => Ok(may),
        Err(why) => Err(Untold::Undecided(why)),
    }
}

/// Those of some values that an answer may tell.
fn allowed<A: Allocator + Copy>(
    alloc: A,
    trace: &TraceText<A>,
    event: usize,
    id: u64,
    values: &[u64],
    bound: usize,
) -> Result<Vec<u64, A>, Untold>
    requires { (told : Reply) × TraceAnswersAt trace.now.events event id told }
    ensures exact { IfOk result (λ kept. (v : ℕ) → Contains kept.items v ↔ (Contains values.now v
        × IsAllowed (opening_of trace.now) trace.now.events event id (Old v))) }
    ensures untold { (tries : ℕ) → IfErr result (IsUntold trace.now event tries bound) }
{
    let mut kept = Vec::new(alloc);
    for value in values {
        if may_tell(alloc, trace, event, id, *value, bound)? {
            if kept.push(*value).is_err() {
                return Err(Untold::Memory);
            }
        }
    }
    Ok(kept)
}

/// Sorts values, and leaves out those that are there twice.
fn sort<A: Allocator>(values: &mut Vec<u64, A>)
    ensures rising { IsStrictlyIncreasing values.new.items }
    ensures same { (v : ℕ) → Contains values.new.items v ↔ Contains values.old.items v }
{
    values.sort_unstable();
    values.dedup();
}

/// The values that an answer to an operation may tell at an event, rising.
fn values_of<A: Allocator + Copy>(
    alloc: A,
    trace: &TraceText<A>,
    event: usize,
    issue: CallAt,
    pending: &[CallAt],
    tries: usize,
    bound: usize,
) -> Result<Vec<u64, A>, Untold>
    requires answered { IsAnsweredAtEvent trace.now.events event issue }
    requires pending { AreOpenOn trace.now.events event issue.call.operation.address pending.now }
    ensures exact { IfOk result (λ values. (v : ℕ) → Contains values.items v
        ↔ IsAllowed (opening_of trace.now) trace.now.events event issue.call.id (Old v)) }
    ensures rising { IfOk result (λ values. IsStrictlyIncreasing values.items) }
    ensures untold { IfErr result (IsUntold trace.now event tries bound) }
{
    let tried = candidates(alloc, trace, event, issue, pending, tries)?;
    let mut values = allowed(alloc, trace, event, issue.call.id, &tried, bound)?;
    sort(&mut values);
    Ok(values)
}

/// What an answer may tell at an event that answers an operation, and what is open on its word there;
/// `None` where the event is no answer. At most `tries` values are tried, each with at most `bound`
/// configurations of a word at once.
///
/// Errors: too many values, or one with which the trace up to the event isn't decided, or out of memory.
pub fn why_not<A: Allocator + Copy>(
    alloc: A,
    trace: &TraceText<A>,
    event: usize,
    tries: usize,
    bound: usize,
) -> Result<Option<WhyNot<A>>, Untold>
    ensures told { IfOk result (λ found. MatchOption found
        (IsAnAnswer trace.now.events event → ⊥) (TellsWhyNot trace.now event)) }
    ensures untold { IfErr result (IsUntold trace.now event tries bound) }
{
    let events = trace.events();
    if event >= events.len() {
        return Ok(None);
    }
    let Event::Answer(id, reply) = events[event] else {
        return Ok(None);
    };
    let Some(issue) = issue_before(events, event, id) else {
        return Ok(None);
    };
    let address = issue.call.operation.address;
    let pending = open_on(alloc, events, event, address)?;
    let values = values_of(alloc, trace, event, issue, &pending, tries, bound)?;
    Ok(Some(WhyNot {
        id,
        reply,
        address,
        pending,
        values,
    }))
}
