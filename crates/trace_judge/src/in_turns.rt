//! The search over all configurations of each word in turns with a search depth first: so a verdict takes little longer
//! than by the better of both.

ghost use Rattle.std.specs.Prelude.{◌≡◌, None, IfOk, IfErr, MatchOption, length};
ghost use Rattle.trace_laws.specs.Traces.{IsTrace};
ghost use Rattle.trace_laws.specs.Orders.{IsOrder, IsLinearizable};
ghost use Rattle.trace_judge.specs.Stops.{IsUndecided, TellsMany};
ghost use Rattle.trace_judge.specs.Verdicts.{IsGoodUntil};

use crate::likely::GUESSED;
use crate::order::{Ended, find_order};
use crate::undecided::Undecided;
use std::alloc::{AllocError, Allocator};
use trace_guess::deep::{First, deep_order};
use trace_laws::{Call, Event};

/// How many configurations of a word the first turn allows: wherever an order is guessed, one is searched
/// for depth first, too.
const LEAST: usize = GUESSED - 1;

/// How many times as many each later turn allows.
const MORE: usize = 4;

/// How many turns there are before the last.
const TURNS: u32 = 10;

/// How many operations are looked at, depth first, for each configuration that a turn allows.
const LOOKS: u64 = 1 << 8;

/// An order that explains the trace, if one is found depth first, with some looks for each of so many configurations:
/// first with the operations tried first that are issued first, then with those that are answered first.
pub(crate) fn deep_within<A: Allocator + Copy>(
    alloc: A,
    opening: &[u64],
    events: &[Event],
    share: usize,
) -> Result<Option<Vec<Call, A>>, AllocError>
    requires { IsTrace (length opening.now) events.now }
    ensures { IfOk result (λ found. MatchOption found (Unit {0})
        (λ order. IsOrder opening.now events.now order.items)) }
{
    let looks = (share as u64).saturating_mul(LOOKS);
    if let Some(order) = deep_order(alloc, opening, events, First::Issued, looks)? {
        return Ok(Some(order));
    }
    deep_order(alloc, opening, events, First::Answered, looks)
}

/// An order that explains the trace, if there is one, found by one turn of either search, the one depth first where more
/// looks are allowed than it had before; else the event at which the search ended is noted.
fn take_turn<A: Allocator + Copy>(
    alloc: A,
    opening: &[u64],
    events: &[Event],
    early: usize,
    share: usize,
    ended: &mut Ended,
) -> Result<Option<Vec<Call, A>>, Undecided>
    requires { IsTrace (length opening.now) events.now }
    ensures undecided { IfErr result (IsUndecided events.now) }
    ensures ended { IfOk result (λ found. found ≡ None
        → IsGoodUntil opening.now events.now ended.new.event) }
    ensures decided { IfOk result (λ found. MatchOption found
        (IsLinearizable opening.now events.now → ⊥)
        (λ order. IsOrder opening.now events.now order.items)) }
{
    if share > early
        && let Some(order) = deep_within(alloc, opening, events, share)?
    {
        return Ok(Some(order));
    }
    find_order(alloc, opening, events, events, share, ended)
}

/// An order that explains the trace, where a turn with fewer configurations than are allowed decides it.
///
/// Errors: out of memory.
fn take_turns<A: Allocator + Copy>(
    alloc: A,
    opening: &[u64],
    events: &[Event],
    early: usize,
    bound: usize,
    ended: &mut Ended,
) -> Result<Option<Option<Vec<Call, A>>>, AllocError>
    requires { IsTrace (length opening.now) events.now }
    ensures { IfOk result (λ some. MatchOption some (Unit {0}) (λ found.
        (found ≡ None → IsGoodUntil opening.now events.now ended.new.event)
        × MatchOption found (IsLinearizable opening.now events.now → ⊥)
        (λ order. IsOrder opening.now events.now order.items))) }
{
    let mut share = LEAST;
    for _ in 0..TURNS {
        if share >= bound {
            return Ok(None);
        }
        match take_turn(alloc, opening, events, early, share, ended) {
            Ok(found) => return Ok(Some(found)),
            Err(Undecided::Memory) => return Err(AllocError),
            Err(_) => share = share.saturating_mul(MORE),
        }
    }
    Ok(None)
}

/// An order that explains the trace, if there is one; else the event at which the search ended is noted. Depth first, one was
/// searched for before with the looks of so many configurations.
pub(crate) fn find_in_turns<A: Allocator + Copy>(
    alloc: A,
    opening: &[u64],
    events: &[Event],
    early: usize,
    bound: usize,
    ended: &mut Ended,
) -> Result<Option<Vec<Call, A>>, Undecided>
    requires { IsTrace (length opening.now) events.now }
    ensures undecided { IfErr result (IsUndecided events.now) }
    ensures full { IfErr result (TellsMany opening.now events.now bound) }
    ensures ended { IfOk result (λ found. found ≡ None
        → IsGoodUntil opening.now events.now ended.new.event) }
    ensures decided { IfOk result (λ found. MatchOption found
        (IsLinearizable opening.now events.now → ⊥)
        (λ order. IsOrder opening.now events.now order.items)) }
{
    if let Some(found) = take_turns(alloc, opening, events, early, bound, ended)? {
        return Ok(found);
    }
    find_order(alloc, opening, events, events, bound, ended)
}
