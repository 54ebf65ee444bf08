//! An order of a trace, if one is found depth first.

ghost use Rattle.std.specs.Prelude.{◌<◌, ◌≤◌, IfOk, MatchOption, length};
ghost use Rattle.trace_laws.specs.Orders.{IsOrder};
ghost use Rattle.trace_laws.specs.Traces.{IsTrace};

pub use crate::depth::First;
use crate::depth::depth_of;
use crate::pairs::partners_of;
use crate::row::row_of;
use crate::seen::seen_with;
use crate::turns::{Turns, no_turns, order_of};
use crate::words::by_word;
use std::alloc::{AllocError, Allocator};
use trace_laws::{Call, Event};

/// How many looks at operations there are for each place of the memo, and how many places it has at most.
const FOR_ONE: u64 = 8;

const PLACES: u64 = 1 << 22;

/// The turns of all words, if the searches over them come to their ends with so many looks at operations.
fn turns_of<A: Allocator + Copy>(
    alloc: A,
    opening: &[u64],
    events: &[Event],
    partners: &[Option<usize>],
    first: First,
    looks: u64,
) -> Result<Option<Turns<A>>, AllocError> {
    let listed = by_word(alloc, opening.len(), events, partners)?;
    let mut turns = no_turns(alloc, events.len())?;
    let mut seen = seen_with(alloc, (looks / FOR_ONE).min(PLACES) as usize)?;
    let mut left = looks;
    for word in 0..opening.len() {
        let row = row_of(alloc, events, partners, listed.of(word))?;
        let mut depth = depth_of(alloc, opening[word], row, first, left);
        if !depth.run(&mut seen)? {
            return Ok(None);
        }
        depth.note(&mut turns);
        left = depth.looks;
    }
    Ok(Some(turns))
}

/// An order that explains the trace, if one is found depth first, with so many looks at operations. `None` is a guess.
///
/// Errors: out of memory.
pub fn deep_order<A: Allocator + Copy>(
    alloc: A,
    opening: &[u64],
    events: &[Event],
    first: First,
    looks: u64,
) -> Result<Option<Vec<Call, A>>, AllocError>
    requires { IsTrace (length opening.now) events.now }
    ensures { IfOk result (λ found. MatchOption found (Unit {0})
        (λ order. IsOrder opening.now events.now order.items)) }
{
    let partners = partners_of(alloc, events)?;
    let Some(turns) = turns_of(alloc, opening, events, &partners, first, looks)? else {
        return Ok(None);
    };
    order_of(alloc, opening, events, &partners, &turns)
}
