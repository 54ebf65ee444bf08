//! An order of a trace, found with or without a guess.

ghost use Rattle.std.specs.Prelude.{◌≡◌, ◌<◌, ◌+◌, ℕ, List, true, IfOk, IfErr, MatchOption, length};
ghost use Rattle.std.specs.Prelude.{Some, None};
ghost use Rattle.trace_laws.specs.Traces.{IsTrace};
ghost use Rattle.trace_laws.specs.Orders.{IsOrder, IsLinearizable};
ghost use Rattle.trace_judge.specs.Stops.{IsBeginning, IsUndecided, TellsMany};
ghost use Rattle.trace_judge.specs.Verdicts.{IsGoodUntil};

use crate::in_turns::{deep_within, find_in_turns};
use crate::likely::{GUESSED, are_all_answered, is_silent, likely, try_guess};
use crate::order::{Ended, find_order};
use crate::quick::{is_narrow, quick_order};
use crate::trace::is_trace;
use crate::undecided::Undecided;
use crate::zoned::seen_by_zones;
use std::alloc::{AllocError, Allocator};
use trace_laws::{Call, Event};

/// How many configurations of a word a likely trace may have at once.
const LIKELY: usize = 10_000;

/// With as many looks as so many configurations get, an order is searched depth first before a likely trace is made.
const EARLY: usize = 1 << 14;

/// An order that explains the trace, if a likely one has an order.
fn try_likely<A: Allocator + Copy>(
    alloc: A,
    opening: &[u64],
    events: &[Event],
    unclear: bool,
    bound: usize,
) -> Result<Option<Vec<Call, A>>, AllocError>
    requires { IsTrace (length opening.now) events.now }
    ensures { IfOk result (λ found. MatchOption found (Unit {0})
        (λ order. IsOrder opening.now events.now order.items)) }
{
    let other = likely(alloc, opening, events, unclear)?;
    if !is_trace(opening.len(), &other) {
        return Ok(None);
    }
    let mut ended = Ended::default();
    let found = find_order(
        alloc,
        opening,
        &other,
        &other,
        bound.min(LIKELY),
        &mut ended,
    );
    match found {
        Ok(order) => Ok(order),
        Err(_) => Ok(None),
    }
}

/// An order that explains the trace: none of its operations, if nothing is answered; or one that is guessed; or, if
/// operations are never answered, one that is soon found depth first, or one of a likely trace, if that has one.
fn likely_order<A: Allocator + Copy>(
    alloc: A,
    opening: &[u64],
    events: &[Event],
    bound: usize,
) -> Result<Option<Vec<Call, A>>, AllocError>
    requires { IsTrace (length opening.now) events.now }
    ensures { IfOk result (λ found. MatchOption found (Unit {0})
        (λ order. IsOrder opening.now events.now order.items)) }
{
    if is_silent(events) {
        return Ok(Some(Vec::new(alloc)));
    }
    if let Some(order) = try_guess(alloc, opening, events, bound)? {
        return Ok(Some(order));
    }
    if are_all_answered(events) {
        return Ok(None);
    }
    if bound >= GUESSED
        && let Some(order) = deep_within(alloc, opening, events, bound.min(EARLY))?
    {
        return Ok(Some(order));
    }
    if let Some(order) = try_likely(alloc, opening, events, false, bound)? {
        return Ok(Some(order));
    }
    try_likely(alloc, opening, events, true, bound)
}

/// A trace of more events is searched quickly first, and then put in the order of its zones, where it has one: that takes less
/// time than a guess.
const LONG: usize = 1 << 14;

/// An order that explains the trace, if one is guessed, or zones give this one.
fn choose<A: Allocator + Copy>(
    alloc: A,
    opening: &[u64],
    events: &[Event],
    bound: usize,
    given: Option<Vec<Call, A>>,
) -> Result<Option<Vec<Call, A>>, AllocError>
    requires trace { IsTrace (length opening.now) events.now }
    requires given { MatchOption given (Unit {0})
        (λ order. IsOrder opening.now events.now order.items) }
    ensures { IfOk result (λ found. MatchOption found (Unit {0})
        (λ order. IsOrder opening.now events.now order.items)) }
{
    let Some(order) = given else {
        return likely_order(alloc, opening, events, bound);
    };
    if order.is_empty() || events.len() > LONG {
        return Ok(Some(order));
    }
    if let Some(guessed) = try_guess(alloc, opening, events, bound)? {
        return Ok(Some(guessed));
    }
    Ok(Some(order))
}

/// Notes that zones are in conflict: nothing comes before the first event.
fn note_conflict(opening: &[u64], events: &[Event], ended: &mut Ended)
    requires { IsLinearizable opening.now events.now → ⊥ }
    ensures { IsGoodUntil opening.now events.now ended.new.event }
{
    *ended = Ended {
        event: 0,
        guess: 0,
        zoned: true,
    };
}

/// An order that explains the trace, if there is one, found with or without a guess; else the event at which
/// the search ended is noted, or that zones are in conflict.
pub(crate) fn explain<A: Allocator + Copy>(
    alloc: A,
    opening: &[u64],
    events: &[Event],
    bound: usize,
    ended: &mut Ended,
) -> Result<Option<Vec<Call, A>>, Undecided>
    requires { IsTrace (length opening.now) events.now }
    ensures undecided { IfErr result (IsUndecided events.now) }
    ensures full { IfErr result (TellsMany opening.now events.now bound) }
    ensures ended { IfOk result (λ found. found ≡ None
        → IsGoodUntil opening.now events.now ended.new.event) }
    ensures decided { IfOk result (λ found. MatchOption found
        (IsLinearizable opening.now events.now → ⊥)
        (λ order. IsOrder opening.now events.now order.items)) }
{
    if events.len() > LONG
        && is_narrow(events)
        && let Some(found) = quick_order(alloc, opening, events, bound, ended)?
    {
        return Ok(found);
    }
    let seen = seen_by_zones(alloc, opening, events, bound)?;
    if seen.conflict {
        note_conflict(opening, events, ended);
        return Ok(None);
    }
    if let Some(order) = choose(alloc, opening, events, bound, seen.order)? {
        return Ok(Some(order));
    }
    let early = if are_all_answered(events) { 0 } else { EARLY };
    find_in_turns(alloc, opening, events, early, bound, ended)
}

/// How beginnings of a trace are looked at: whether by zones, and then with how many guesses that may still be in vain.
#[derive(Clone, Copy)]
pub(crate) struct Ways {
    pub by_zones: bool,
    pub guesses: u32,
}

/// An order that explains a beginning, if one is guessed; nothing, if too many guesses were in vain.
fn guess_again<A: Allocator + Copy>(
    alloc: A,
    opening: &[u64],
    events: &[Event],
    bound: usize,
    ways: &mut Ways,
) -> Result<Option<Vec<Call, A>>, AllocError>
    requires { IsTrace (length opening.now) events.now }
    ensures { IfOk result (λ found. MatchOption found (Unit {0})
        (λ order. IsOrder opening.now events.now order.items)) }
{
    if ways.guesses == 0 {
        return Ok(None);
    }
    let found = likely_order(alloc, opening, events, bound)?;
    if found.is_none() {
        ways.guesses = ways.guesses.saturating_sub(1);
    }
    Ok(found)
}

/// An order that explains a beginning of a trace, if there is one; where zones are asked, found with or without a
/// guess.
pub(crate) fn explain_beginning<A: Allocator + Copy>(
    alloc: A,
    opening: &[u64],
    events: &[Event],
    whole: &[Event],
    bound: usize,
    ways: &mut Ways,
) -> Result<Option<Vec<Call, A>>, Undecided>
    requires trace { IsTrace (length opening.now) events.now }
    requires beginning { IsBeginning events.now whole.now }
    ensures undecided { IfErr result (IsUndecided whole.now) }
    ensures full { IfErr result (TellsMany opening.now whole.now bound) }
    ensures decided { IfOk result (λ found. MatchOption found
        (IsLinearizable opening.now events.now → ⊥)
        (λ order. IsOrder opening.now events.now order.items)) }
{
    if ways.by_zones {
        let seen = seen_by_zones(alloc, opening, events, bound)?;
        if seen.conflict {
            return Ok(None);
        }
        if let Some(order) = seen.order {
            return Ok(Some(order));
        }
        if let Some(order) = guess_again(alloc, opening, events, bound, ways)? {
            return Ok(Some(order));
        }
    }
    let mut ended = Ended::default();
    find_order(alloc, opening, events, whole, bound, &mut ended)
}
