//! Guesses where the first bad event is, for a trace that isn't linearizable: nothing rests on it.

ghost use Rattle.std.specs.Prelude.{◌<◌, ◌≤◌, ◌+◌, length};

use crate::bits::has;
use trace_laws::{Branch, Event, Open};

/// The slots whose operations have taken effect in some branch.
fn taken_in(branches: &[Branch]) -> u128 {
    let mut taken = 0;
    for branch in branches {
        taken |= branch.config.taken;
    }
    taken
}

/// The earlier of two operations, by their numbers.
fn earlier(first: Option<u64>, id: u64) -> u64 {
    match first {
        Some(other) => other.min(id),
        None => id,
    }
}

/// Where no branch stands, the first operation beside the answered one that is answered later, and took
/// effect in none of these.
pub fn stuck_in(
    stands: bool,
    table: &[Option<Open>],
    branches: &[Branch],
    answered: usize,
) -> Option<u64>
    requires { length table.now ≤ 128 }
{
    if stands {
        return None;
    }
    let taken = taken_in(branches);
    let mut first = None;
    for slot in 0..table.len() {
        if let Some(opened) = table[slot]
            && slot != answered
            && opened.promise.is_some()
            && !has(taken, slot)
        {
            first = Some(earlier(first, opened.call.id));
        }
    }
    first
}

/// The event at which this operation is answered, from event k on; or event k.
pub fn answer_from(events: &[Event], k: usize, stuck: Option<u64>) -> usize {
    let Some(id) = stuck else {
        return k;
    };
    for event in k..events.len() {
        if let Event::Answer(other, _) = events[event]
            && other == id
        {
            return event;
        }
    }
    k
}

/// The beginning to look at next, between a good one and a bad one: one that is guessed, or half way.
pub fn between(good: usize, bad: usize, guess: usize) -> usize
    requires { good + 1 < bad }
    ensures above { good < result }
    ensures below { result < bad }
{
    if good < guess && guess < bad {
        guess
    } else {
        good + (bad - good) / 2
    }
}
