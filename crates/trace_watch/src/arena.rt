//! Finds what an answer makes of many states of a word in an arena, which is let go at once.

ghost use Rattle.std.specs.Prelude.{◌≡◌, IfErr, IfOk};
ghost use Rattle.trace_watch.specs.States.{configs_of};
ghost use Rattle.trace_watch.specs.declared.watch.Full.TheVariants.{Configurations};
ghost use Rattle.trace_watch.specs.Matchings.{AreDistinctPartners};
ghost use Rattle.trace_watch.specs.Crowds.{AreFew, IsOverfullCrowd};
ghost use Rattle.trace_watch.specs.Closed.{IsAnsweredBy};

use crate::copying::states_copied;
use crate::releasing::gathered;
use crate::state::State;
use crate::watch::Full;
use bumpalo::Bump;
use packet::Reply;
use std::alloc::Allocator;
use trace_laws::Call;

/// The bytes of an arena's first chunk.
const FIRST_BYTES: usize = 1 << 12;

/// So many states lead to few others, mostly, which aren't worth a chunk.
const FEW_STATES: usize = 4;

/// The states of a word after one of its open operations was answered so, found in an arena.
fn answered_in_arena<A: Allocator + Copy>(
    alloc: A,
    states: &[State<A>],
    calls: &[Call],
    call: Call,
    reply: Reply,
    bound: usize,
) -> Result<Vec<State<A>, A>, Full>
    ensures answered { IfOk result (λ v. IsAnsweredBy call reply calls.now (configs_of states.now)
        (configs_of v.items)) }
    ensures full { IfErr result (λ full. full ≡ Configurations
        → IsOverfullCrowd calls.now bound (configs_of states.now)) }
    ensures few { IfOk result (λ v. AreDistinctPartners calls.now
        → AreFew call.id calls.now bound (configs_of states.now)) }
{
    let arena = Bump::try_with_capacity(alloc, FIRST_BYTES)?;
    let kept = gathered(&arena, states, calls, call, reply, bound)?;
    let copies = states_copied(alloc, &kept)?;
    Ok(copies)
}

/// The states of a word after one of its open operations was answered so.
pub(crate) fn answered<A: Allocator + Copy>(
    alloc: A,
    states: &[State<A>],
    calls: &[Call],
    call: Call,
    reply: Reply,
    bound: usize,
) -> Result<Vec<State<A>, A>, Full>
    ensures answered { IfOk result (λ v. IsAnsweredBy call reply calls.now (configs_of states.now)
        (configs_of v.items)) }
    ensures full { IfErr result (λ full. full ≡ Configurations
        → IsOverfullCrowd calls.now bound (configs_of states.now)) }
    ensures few { IfOk result (λ v. AreDistinctPartners calls.now
        → AreFew call.id calls.now bound (configs_of states.now)) }
{
    if states.len() <= FEW_STATES {
        return gathered(alloc, states, calls, call, reply, bound);
    }
    answered_in_arena(alloc, states, calls, call, reply, bound)
}
