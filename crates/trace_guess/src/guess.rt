//! An order of a trace, if one is guessed.

ghost use Rattle.std.specs.Prelude.{◌<◌, ◌≤◌, IfOk, MatchOption, length};
ghost use Rattle.trace_laws.specs.Orders.{IsOrder};
ghost use Rattle.trace_laws.specs.Traces.{IsTrace};

use crate::pairs::partners_of;
use crate::plan::plan_of;
use crate::search::{Search, search_of};
use crate::seen::{Seen, seen_of};
use crate::turns::{Turns, no_turns, order_of};
use crate::values::values_of;
use crate::words::by_word;
use std::alloc::{AllocError, Allocator};
use trace_laws::{Call, Event};

/// How many slots and kinds of operations a search looks at for each event at most.
const LOOKS: u64 = 1 << 15;

/// The turns that searches came to; where they have been, and how many slots and kinds they may still look at.
#[derive(Drop)]
struct Searches<A: Allocator> {
    turns: Turns<A>,
    seen: Seen<A>,
    looks: u64,
}

impl<A: Allocator + Copy> Searches<A> {
    /// Notes the turns that a search came to, the last one first.
    fn note(&mut self, search: &Search<A>) {
        for n in 0..search.turns.len() {
            let turn = search.turns[search.turns.len() - 1 - n];
            self.turns.put(turn.issue, turn.event);
        }
    }

    /// Searches over one word, and notes the turns. Says whether the search came to the end.
    fn search(
        &mut self,
        alloc: A,
        word: u64,
        events: &[Event],
        partners: &[Option<usize>],
        mine: &[usize],
    ) -> Result<bool, AllocError> {
        let mut values = values_of(alloc, events, partners, mine)?;
        let Some(mut plan) = plan_of(alloc, &mut values, events, partners, mine)? else {
            return Ok(false);
        };
        if values.wild.is_empty() {
            plan.note_dues(alloc, values.numbers.len(), values.place_of(Some(word)))?;
        }
        let mut search = search_of(alloc, word, plan, values, self.looks)?;
        if !search.run(&mut self.seen)? {
            return Ok(false);
        }
        self.looks = search.looks;
        self.note(&search);
        Ok(true)
    }
}

/// The turns of all words, if the search over each came to the end, with so many looks at slots and kinds at most.
fn turns_of<A: Allocator + Copy>(
    alloc: A,
    opening: &[u64],
    events: &[Event],
    partners: &[Option<usize>],
    most: u64,
) -> Result<Option<Turns<A>>, AllocError> {
    let listed = by_word(alloc, opening.len(), events, partners)?;
    let looks = (events.len() as u64).saturating_mul(LOOKS);
    let mut searches = Searches {
        turns: no_turns(alloc, events.len())?,
        seen: seen_of(alloc, events.len())?,
        looks: looks.min(most),
    };
    for word in 0..opening.len() {
        if !searches.search(alloc, opening[word], events, partners, listed.of(word))? {
            return Ok(None);
        }
    }
    Ok(Some(searches.turns))
}

/// An order that explains the trace, if one is guessed with so many looks at slots and kinds of operations at most.
pub fn guessed_order<A: Allocator + Copy>(
    alloc: A,
    opening: &[u64],
    events: &[Event],
    most: u64,
) -> Result<Option<Vec<Call, A>>, AllocError>
    requires { IsTrace (length opening.now) events.now }
    ensures { IfOk result (λ found. MatchOption found (Unit {0})
        (λ order. IsOrder opening.now events.now order.items)) }
{
    let partners = partners_of(alloc, events)?;
    let Some(turns) = turns_of(alloc, opening, events, &partners, most)? else {
        return Ok(None);
    };
    order_of(alloc, opening, events, &partners, &turns)
}
