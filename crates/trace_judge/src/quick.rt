//! The search over all configurations of each word, given up where they are many in the mean: a long trace that is not
//! crowded is decided without a guess.

ghost use Rattle.std.specs.Prelude.{◌≡◌, None, IfOk, MatchOption, length};
ghost use Rattle.trace_laws.specs.Traces.{IsTrace};
ghost use Rattle.trace_laws.specs.Orders.{IsOrder, IsLinearizable};
ghost use Rattle.trace_judge.specs.Searched.{HasSearched};
ghost use Rattle.trace_judge.specs.Verdicts.{IsGoodUntil};

use crate::order::{Ended, order_found};
use crate::search::{Search, start};
use crate::stuck::answer_from;
use crate::undecided::Undecided;
use std::alloc::{AllocError, Allocator};
use trace_laws::{Call, Event};

/// How many configurations a word may have at once.
const AT_ONCE: usize = 1 << 12;

/// How many configurations may be found for each event, in the mean.
const IN_THE_MEAN: u64 = 25;

/// How many operations may be open at each event, in the mean: the search looks for each answer from its issue on.
const OPEN_IN_THE_MEAN: u64 = 128;

/// Whether each operation is answered, and few are open at once: so the search reads each event few times.
pub(crate) fn is_narrow(events: &[Event]) -> bool {
    let mut open = 0u64;
    let mut looks = 0u64;
    for i in 0..events.len() {
        open = match events[i] {
            Event::Issue(_) => open.wrapping_add(1),
            Event::Answer(..) => open.wrapping_sub(1),
        };
        looks = looks.saturating_add(open);
    }
    open == 0 && looks <= (events.len() as u64).saturating_mul(OPEN_IN_THE_MEAN)
}

/// Goes through the events, as long as each word has a branch, and notes the event that left none; nothing, if it gives up.
///
/// Errors: out of memory.
fn run_quickly<A: Allocator + Copy>(
    alloc: A,
    opening: &[u64],
    events: &[Event],
    bound: usize,
    ended: &mut Ended,
) -> Result<Option<Option<Search<A>>>, AllocError>
    requires { IsTrace (length opening.now) events.now }
    ensures { IfOk result (λ some. MatchOption some (Unit {0}) (λ found.
        (found ≡ None → IsGoodUntil opening.now events.now ended.new.event)
        × MatchOption found (IsLinearizable opening.now events.now → ⊥)
        (λ search. HasSearched opening.now events.now events.now (length events.now) search))) }
{
    let mut search = start(alloc, opening, events, events)?;
    let most = (events.len() as u64).saturating_mul(IN_THE_MEAN);
    for k in 0..events.len() {
        if search.found > most {
            return Ok(None);
        }
        match search.step(alloc, opening, events, events, k, bound) {
            Ok(true) => {}
            Ok(false) => {
                *ended = Ended {
                    event: k,
                    guess: answer_from(events, k, search.stuck),
                    zoned: false,
                };
                return Ok(Some(None));
            }
            Err(Undecided::Memory) => return Err(AllocError),
            Err(_) => return Ok(None),
        }
    }
    Ok(Some(Some(search)))
}

/// An order that explains the trace, if there is one, or that there is none, and then the event at which the search ended is
/// noted; nothing, if words have many configurations.
///
/// Errors: out of memory.
pub(crate) fn quick_order<A: Allocator + Copy>(
    alloc: A,
    opening: &[u64],
    events: &[Event],
    bound: usize,
    ended: &mut Ended,
) -> Result<Option<Option<Vec<Call, A>>>, AllocError>
    requires { IsTrace (length opening.now) events.now }
    ensures { IfOk result (λ some. MatchOption some (Unit {0}) (λ found.
        (found ≡ None → IsGoodUntil opening.now events.now ended.new.event)
        × MatchOption found (IsLinearizable opening.now events.now → ⊥)
        (λ order. IsOrder opening.now events.now order.items))) }
{
    let Some(decided) = run_quickly(alloc, opening, events, bound.min(AT_ONCE), ended)? else {
        return Ok(None);
    };
    let Some(search) = decided else {
        return Ok(Some(None));
    };
    let order = order_found(alloc, &search, opening, events, events)?;
    Ok(Some(Some(order)))
}
