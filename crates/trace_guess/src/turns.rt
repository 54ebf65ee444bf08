//! The turns in which operations take effect, and the order that they give.

ghost use Rattle.std.specs.Prelude.{◌<◌, ◌≤◌, IfOk, MatchOption, length};
ghost use Rattle.trace_laws.specs.Orders.{IsOrder};
ghost use Rattle.trace_laws.specs.Traces.{IsTrace};

use crate::explained::explained;
use crate::pairs::{number_at, set_number};
use std::alloc::{AllocError, Allocator};
use trace_laws::{Call, Event};

/// Of each event the first operation that takes effect before it, by the event of its issue, and of each operation
/// the next one there.
#[derive(Drop)]
pub(crate) struct Turns<A: Allocator> {
    firsts: Vec<Option<usize>, A>,
    nexts: Vec<Option<usize>, A>,
}

/// The operations of an order, by the events of their issues, and of each event the place of its operation.
#[derive(Drop)]
struct Guess<A: Allocator> {
    issues: Vec<usize, A>,
    places: Vec<usize, A>,
}

/// The turns where nothing takes effect before one of so many events.
pub(crate) fn no_turns<A: Allocator + Copy>(
    alloc: A,
    events: usize,
) -> Result<Turns<A>, AllocError> {
    Ok(Turns {
        firsts: vec![in alloc; None; events]?,
        nexts: vec![in alloc; None; events]?,
    })
}

impl<A: Allocator> Turns<A> {
    /// Notes that an operation takes effect before an event, ahead of those noted there.
    pub(crate) fn put(&mut self, issue: usize, event: usize) {
        let next = number_at(&self.firsts, event);
        set_number(&mut self.nexts, issue, next);
        set_number(&mut self.firsts, event, Some(issue));
    }
}

impl<A: Allocator + Copy> Guess<A> {
    /// Adds an operation.
    fn add(&mut self, issue: usize) -> Result<(), AllocError> {
        if issue < self.places.len() {
            self.places[issue] = self.issues.len();
        }
        self.issues.push(issue)?;
        Ok(())
    }

    /// Adds the operations that take effect before an event.
    fn add_all(&mut self, turns: &Turns<A>, first: Option<usize>) -> Result<(), AllocError> {
        let mut next = first;
        for _ in 0..turns.nexts.len() {
            let Some(issue) = next else {
                return Ok(());
            };
            if self.issues.len() >= self.places.len() {
                return Ok(());
            }
            self.add(issue)?;
            next = number_at(&turns.nexts, issue);
        }
        Ok(())
    }

    /// Each answer has the place of its operation.
    fn place_answers(&mut self, events: &[Event], partners: &[Option<usize>]) {
        for k in 0..events.len() {
            if let Event::Answer(..) = events[k]
                && let Some(issue) = number_at(partners, k)
                && issue < self.places.len()
                && k < self.places.len()
            {
                self.places[k] = self.places[issue];
            }
        }
    }
}

/// The order in which operations take their turns.
fn guess_of<A: Allocator + Copy>(
    alloc: A,
    events: &[Event],
    partners: &[Option<usize>],
    turns: &Turns<A>,
) -> Result<Guess<A>, AllocError> {
    let mut guess = Guess {
        issues: Vec::new(alloc),
        places: vec![in alloc; 0usize; events.len()]?,
    };
    for k in 0..events.len() {
        guess.add_all(turns, number_at(&turns.firsts, k))?;
    }
    guess.place_answers(events, partners);
    Ok(guess)
}

/// The order in which operations take their turns, if it explains the trace.
pub(crate) fn order_of<A: Allocator + Copy>(
    alloc: A,
    opening: &[u64],
    events: &[Event],
    partners: &[Option<usize>],
    turns: &Turns<A>,
) -> Result<Option<Vec<Call, A>>, AllocError>
    requires { IsTrace (length opening.now) events.now }
    ensures { IfOk result (λ found. MatchOption found (Unit {0})
        (λ order. IsOrder opening.now events.now order.items)) }
{
    let guess = guess_of(alloc, events, partners, turns)?;
    explained(alloc, opening, events, &guess.issues, &guess.places)
}
