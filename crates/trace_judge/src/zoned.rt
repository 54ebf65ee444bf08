//! What zones show of a trace.

ghost use Rattle.std.specs.Prelude.{◌≤◌, ◌<◌, IfOk, length};
ghost use Rattle.trace_laws.specs.Traces.{IsTrace};
ghost use Rattle.trace_judge.specs.Verdicts.{TellsZoned};

use crate::likely::GUESSED;
use crate::stuck::between;
use std::alloc::{AllocError, Allocator};
use trace_guess::explained::explained;
use trace_laws::{Call, Event};
use trace_zones::found::{Shown, look};

/// What zones show of a trace: whether they are in conflict, so that no order explains it; and an order that does, if
/// they give one.
#[derive(Drop)]
pub struct Zoned<A: Allocator> {
    pub conflict: bool,
    pub order: Option<Vec<Call, A>>,
}

/// What zones show of a trace, if so many configurations of a word are allowed that they are looked at. That they show
/// nothing is a guess.
pub fn seen_by_zones<A: Allocator + Copy>(
    alloc: A,
    opening: &[u64],
    events: &[Event],
    bound: usize,
) -> Result<Zoned<A>, AllocError>
    requires { IsTrace (length opening.now) events.now }
    ensures { IfOk result (TellsZoned opening.now events.now) }
{
    let mut zoned = Zoned {
        conflict: false,
        order: None,
    };
    if bound < GUESSED {
        return Ok(zoned);
    }
    let seen = look(alloc, opening, events)?;
    match seen {
        Shown::Conflict {
            word: _word,
            why: _why,
        } => {
            zoned.conflict = true;
            Ok(zoned)
        }
        Shown::Listing(listing) => {
            zoned.order = explained(alloc, opening, events, &listing.issues, &listing.places)?;
            Ok(zoned)
        }
        Shown::Nothing => Ok(zoned),
    }
}

/// Whether zones are in conflict: a guess.
fn are_in_conflict<A: Allocator + Copy>(
    alloc: A,
    opening: &[u64],
    events: &[Event],
) -> Result<bool, AllocError> {
    match look(alloc, opening, events)? {
        Shown::Conflict { .. } => Ok(true),
        _ => Ok(false),
    }
}

/// How many events of a trace come before the first one with which zones are in conflict, as far as halving finds it:
/// a guess.
pub fn before_conflict<A: Allocator + Copy>(
    alloc: A,
    opening: &[u64],
    events: &[Event],
) -> Result<usize, AllocError> {
    let mut good = 0usize;
    let mut bad = events.len();
    if bad == 0 {
        return Ok(0);
    }
    while good + 1 < bad {
        let middle = between(good, bad, 0);
        if are_in_conflict(alloc, opening, &events[..middle])? {
            bad = middle;
        } else {
            good = middle;
        }
    }
    Ok(good)
}
