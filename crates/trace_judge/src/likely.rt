//! A trace that likely has an order: what explains it explains the trace that it is made from.

ghost use Rattle.std.specs.Prelude.{◌≡◌, ◌⊎◌, ◌<◌, ◌∷◌, ◌++◌, ℕ, List, [], true, Some, IfOk, OnOk};
ghost use Rattle.std.specs.Prelude.{MatchOption};
ghost use Rattle.std.specs.Prelude.{length, slice_get};
ghost use Rattle.packet.specs.declared.kinds.Reply.{Reply};
ghost use Rattle.trace_laws.specs.declared.event.Event.TheVariants.{Answer};
ghost use Rattle.trace_laws.specs.declared.event.Event.{Event};
ghost use Rattle.trace_laws.specs.Orders.{IsOrder};
ghost use Rattle.trace_laws.specs.Traces.{IsTrace, TraceAnswersAt};
ghost use Rattle.trace_laws.specs.Unanswered.{IssuesUnanswered};
ghost use Rattle.trace_judge.specs.Guesses.{IsLikely, IsKeptOrLeft, HasGuessedAnswer};

use crate::reading::promise_of;
use crate::sights::{Guess, guess_of};
use packet::Reply;
use std::alloc::{AllocError, Allocator};
use trace_guess::guess::guessed_order;
use trace_laws::{Call, Event};

/// Whether there are as many answers as issues.
pub fn are_all_answered(events: &[Event]) -> bool {
    let mut open = 0u64;
    for i in 0..events.len() {
        open = match events[i] {
            Event::Issue(_) => open.wrapping_add(1),
            Event::Answer(..) => open.wrapping_sub(1),
        };
    }
    open == 0
}

/// Whether nothing is answered.
pub fn is_silent(events: &[Event]) -> bool
    ensures { result ≡ true → (i id : ℕ) (reply : Reply) →
        TraceAnswersAt events.now i id reply → ⊥ }
{
    for i in 0..events.len() {
        if let Event::Answer(..) = events[i] {
            return false;
        }
    }
    true
}

/// Whether an event issues an operation that is never answered.
fn is_left(opening: &[u64], events: &[Event], k: usize) -> bool
    requires trace { IsTrace (length opening.now) events.now }
    requires inside { k < length events.now }
    ensures { result ≡ true → (event : Event) → slice_get events.now k ≡ Some event
        → IssuesUnanswered events.now event }
{
    let Event::Issue(call) = events[k] else {
        return false;
    };
    promise_of(events, k + 1, call.id).is_none()
}

/// Event k at the end, unless it is to be left out and issues an operation that is never answered.
fn keep<A: Allocator>(
    likely: &mut Vec<Event, A>,
    opening: &[u64],
    events: &[Event],
    k: usize,
    left: bool,
) -> Result<(), AllocError>
    requires trace { IsTrace (length opening.now) events.now }
    requires inside { k < length events.now }
    ensures { OnOk result (IsKeptOrLeft events.now k likely.old.items likely.new.items) }
{
    if left && is_left(opening, events, k) {
        return Ok(());
    }
    likely.push(events[k])?;
    Ok(())
}

/// An answer at the end, if there is one.
fn answer<A: Allocator>(
    likely: &mut Vec<Event, A>,
    behind: Option<(u64, Reply)>,
) -> Result<(), AllocError>
    ensures { OnOk result (HasGuessedAnswer likely.old.items likely.new.items) }
{
    if let Some((id, reply)) = behind {
        likely.push(Event::Answer(id, reply))?;
    }
    Ok(())
}

/// The events of a trace, as they are guessed: without some issues of operations that are never answered, and
/// with some answers more.
fn guessed<A: Allocator + Copy>(
    alloc: A,
    opening: &[u64],
    events: &[Event],
    guess: &Guess<A>,
) -> Result<Vec<Event, A>, AllocError>
    requires { IsTrace (length opening.now) events.now }
    ensures { IfOk result (λ v. IsLikely events.now events.now v.items) }
{
    let mut likely = Vec::new(alloc);
    for k in 0..events.len() {
        let left = guess.left.get(k).copied().unwrap_or(false);
        keep(&mut likely, opening, events, k, left)?;
        answer(&mut likely, guess.behind.get(k).copied().unwrap_or(None))?;
    }
    Ok(likely)
}

/// The answers behind the last event at the end.
fn answer_rest<A: Allocator>(
    likely: &mut Vec<Event, A>,
    behind: &[Option<(u64, Reply)>],
    from: usize,
) -> Result<(), AllocError>
    ensures { OnOk result ((whole events : List Event) → IsLikely whole events likely.old.items
        → IsLikely whole events likely.new.items) }
{
    for k in from..behind.len() {
        answer(likely, behind[k])?;
    }
    Ok(())
}

/// A trace that likely has an order, if the trace does. Operations that are never answered and of which it is
/// unclear whether they took effect may do so in it; or that is guessed too, if so asked.
pub fn likely<A: Allocator + Copy>(
    alloc: A,
    opening: &[u64],
    events: &[Event],
    unclear: bool,
) -> Result<Vec<Event, A>, AllocError>
    requires { IsTrace (length opening.now) events.now }
    ensures { IfOk result (λ v. IsLikely events.now events.now v.items) }
{
    let guess = guess_of(alloc, opening, events, unclear)?;
    let mut other = guessed(alloc, opening, events, &guess)?;
    answer_rest(&mut other, &guess.behind, events.len())?;
    Ok(other)
}

/// How many slots and kinds of operations are looked at for a guess at most.
const MOST_LOOKS: u64 = 1 << 30;

/// With fewer configurations of a word no order is guessed, and no zones are looked at.
pub(crate) const GUESSED: usize = 1024;

/// An order that explains the trace, if one is guessed. `None` is a guess too.
pub fn try_guess<A: Allocator + Copy>(
    alloc: A,
    opening: &[u64],
    events: &[Event],
    bound: usize,
) -> Result<Option<Vec<Call, A>>, AllocError>
    requires { IsTrace (length opening.now) events.now }
    ensures { IfOk result (λ found. MatchOption found (Unit {0})
        (λ order. IsOrder opening.now events.now order.items)) }
{
    if bound < GUESSED {
        return Ok(None);
    }
    guessed_order(alloc, opening, events, MOST_LOOKS)
}
