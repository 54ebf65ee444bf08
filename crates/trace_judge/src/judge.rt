//! The decision, with an order or with the first event that has none.

ghost use Rattle.std.specs.Prelude.{◌≡◌, ◌<◌, ◌+◌, ℕ, List, true, IfOk, IfErr, MatchOption, length};
ghost use Rattle.std.specs.Prelude.{Some, None};
ghost use Rattle.trace_laws.specs.Traces.{IsTrace};
ghost use Rattle.trace_laws.specs.Orders.{IsOrder, IsLinearizable};
ghost use Rattle.trace_judge.specs.Stops.{IsUndecided, TellsMany};
ghost use Rattle.trace_judge.specs.Verdicts.{IsBadBeginning, IsGoodUntil, TellsTraceVerdict};

use crate::explain::{Ways, explain, explain_beginning};
use crate::order::{Ended, find_order};
use crate::stuck::between;
use crate::undecided::Undecided;
use crate::zoned::{before_conflict, seen_by_zones};
use std::alloc::{AllocError, Allocator};
use trace_laws::{Call, Event};

/// What a trace is judged to be.
#[derive(Drop)]
pub enum Verdict<A: Allocator> {
    /// It is linearizable, in this order.
    Linearizable(Vec<Call, A>),
    /// It isn't, from this event on, counted from 0: what comes before the event is, and with it no
    /// order explains the trace any more.
    No { event: usize },
    /// It isn't: with this event, counted from 0, no order explains it any more. Whether one explains what comes before
    /// the event isn't decided, for this reason.
    NoBy { event: usize, why: Undecided },
}

/// The beginning to look at first where a trace has no order.
fn first_guess<A: Allocator + Copy>(
    alloc: A,
    opening: &[u64],
    events: &[Event],
    ended: Ended,
) -> Result<usize, AllocError> {
    if ended.zoned {
        before_conflict(alloc, opening, events)
    } else {
        Ok(ended.guess.max(ended.event.saturating_add(1)))
    }
}

/// An order that explains the trace, if there is one, found with at most so many configurations of a
/// word at once. An `Err` says why it isn't decided, and where: an answer at which a word has more
/// configurations, or an issue beside 64 open operations
/// on its word of which, as of it, all are answered in the trace, or none is.
pub fn decide<A: Allocator + Copy>(
    alloc: A,
    opening: &[u64],
    events: &[Event],
    bound: usize,
) -> Result<Option<Vec<Call, A>>, Undecided>
    requires { IsTrace (length opening.now) events.now }
    ensures undecided { IfErr result (IsUndecided events.now) }
    ensures full { IfErr result (TellsMany opening.now events.now bound) }
    ensures decided { IfOk result (λ found. MatchOption found
        (IsLinearizable opening.now events.now → ⊥)
        (λ order. IsOrder opening.now events.now order.items)) }
{
    let mut ended = Ended::default();
    explain(alloc, opening, events, bound, &mut ended)
}

/// How many orders of beginnings are guessed in vain.
const MOST_IN_VAIN: u32 = 2;

/// How many events a beginning has that no order explains: one more than come before zones are in conflict, if they are
/// there; or as many as are given.
fn shorter<A: Allocator + Copy>(
    alloc: A,
    opening: &[u64],
    events: &[Event],
    bound: usize,
    before: usize,
    bad: usize,
) -> Result<usize, AllocError>
    requires trace { IsTrace (length opening.now) events.now }
    requires bad { IsBadBeginning opening.now events.now bad }
    ensures { IfOk result (IsBadBeginning opening.now events.now) }
{
    if before >= bad || before + 1 == bad {
        return Ok(bad);
    }
    let seen = seen_by_zones(alloc, opening, &events[..before + 1], bound)?;
    if seen.conflict {
        Ok(before + 1)
    } else {
        Ok(bad)
    }
}

/// The verdict on a trace of which a beginning of so many events has no order, and another isn't decided for this reason.
///
/// Errors: out of memory, if that is the reason.
fn no_by<A: Allocator>(
    opening: &[u64],
    events: &[Event],
    bound: usize,
    bad: usize,
    why: Undecided,
) -> Result<Verdict<A>, AllocError>
    requires bad { IsBadBeginning opening.now events.now bad }
    requires unjudged { IsUndecided events.now why }
    requires full { TellsMany opening.now events.now bound why }
    ensures { IfOk result (TellsTraceVerdict opening.now events.now bound) }
{
    let event = bad - 1;
    match why {
        Undecided::Memory => Err(AllocError),
        Undecided::Configurations { .. } => Ok(Verdict::NoBy { event, why }),
        Undecided::Operations { .. } => Ok(Verdict::NoBy { event, why }),
    }
}

/// The verdict on a trace that has no order: the first event up to which none explains it, or one that is no earlier, where
/// a beginning isn't decided. A beginning that ends before the event at which a search ended has an order.
///
/// Errors: out of memory.
fn first_bad<A: Allocator + Copy>(
    alloc: A,
    opening: &[u64],
    events: &[Event],
    bound: usize,
    ended: Ended,
) -> Result<Verdict<A>, AllocError>
    requires trace { IsTrace (length opening.now) events.now }
    requires none { IsLinearizable opening.now events.now → ⊥ }
    requires good { IsGoodUntil opening.now events.now ended.event }
    ensures { IfOk result (TellsTraceVerdict opening.now events.now bound) }
{
    // Most often the first bad event is the one at which the search ended, or the one that is guessed: look there, and
    // from there in growing steps.
    let mut good = ended.event;
    let mut bad = events.len();
    let first = first_guess(alloc, opening, events, ended)?;
    let mut guess = first;
    let mut step = 1usize;
    let mut ways = Ways {
        by_zones: ended.zoned,
        guesses: MOST_IN_VAIN,
    };
    while good + 1 < bad {
        let middle = between(good, bad, guess);
        let beginning = &events[..middle];
        let found = match explain_beginning(alloc, opening, beginning, events, bound, &mut ways) {
            Ok(found) => found,
            Err(why) => {
                let bad = shorter(alloc, opening, events, bound, first, bad)?;
                return no_by(opening, events, bound, bad, why);
            }
        };
        if found.is_some() {
            good = middle;
            guess = good.saturating_add(step);
            step = step.saturating_mul(2);
        } else {
            bad = middle;
            guess = good.saturating_add(1);
            step = 1;
        }
    }
    Ok(Verdict::No { event: good })
}

/// The verdict on a trace that has no order, by the search alone.
///
/// Errors: as those of `judge`.
fn first_bad_by_search<A: Allocator + Copy>(
    alloc: A,
    opening: &[u64],
    events: &[Event],
    bound: usize,
) -> Result<Verdict<A>, Undecided>
    requires trace { IsTrace (length opening.now) events.now }
    requires none { IsLinearizable opening.now events.now → ⊥ }
    ensures { IfOk result (TellsTraceVerdict opening.now events.now bound) }
{
    let mut ended = Ended::default();
    let _none = find_order(alloc, opening, events, events, bound, &mut ended)?;
    let verdict = first_bad(alloc, opening, events, bound, ended)?;
    Ok(verdict)
}

/// Whether a verdict leaves open which event is the first bad one.
fn is_open<A: Allocator>(verdict: &Verdict<A>) -> bool {
    match verdict {
        Verdict::NoBy { .. } => true,
        _ => false,
    }
}

/// The verdict on a trace that has no order, as `first_bad` finds it; or by the search alone, where zones are in conflict, a
/// beginning isn't decided with them, and the search decides all.
///
/// Errors: out of memory.
fn first_bad_either_way<A: Allocator + Copy>(
    alloc: A,
    opening: &[u64],
    events: &[Event],
    bound: usize,
    ended: Ended,
) -> Result<Verdict<A>, AllocError>
    requires trace { IsTrace (length opening.now) events.now }
    requires none { IsLinearizable opening.now events.now → ⊥ }
    requires good { IsGoodUntil opening.now events.now ended.event }
    ensures { IfOk result (TellsTraceVerdict opening.now events.now bound) }
{
    let verdict = first_bad(alloc, opening, events, bound, ended)?;
    if !ended.zoned || !is_open(&verdict) {
        return Ok(verdict);
    }
    match first_bad_by_search(alloc, opening, events, bound) {
        Ok(other) if !is_open(&other) => Ok(other),
        Ok(_) => Ok(verdict),
        Err(Undecided::Memory) => Err(AllocError),
        Err(_) => Ok(verdict),
    }
}

/// Judges a trace over a memory that opens with these words, with at most so many configurations
/// of a word at once: an order that explains it, or the first event up to which none does, or, where a beginning isn't
/// decided, a later one. An `Err` says why the trace isn't decided.
pub fn judge<A: Allocator + Copy>(
    alloc: A,
    opening: &[u64],
    events: &[Event],
    bound: usize,
) -> Result<Verdict<A>, Undecided>
    requires { IsTrace (length opening.now) events.now }
    ensures unjudged { IfErr result (IsUndecided events.now) }
    ensures full { IfErr result (TellsMany opening.now events.now bound) }
    ensures judged { IfOk result (λ verdict.
        TellsTraceVerdict opening.now events.now bound verdict) }
{
    let mut ended = Ended::default();
    if let Some(order) = explain(alloc, opening, events, bound, &mut ended)? {
        return Ok(Verdict::Linearizable(order));
    }
    let verdict = first_bad_either_way(alloc, opening, events, bound, ended)?;
    Ok(verdict)
}
