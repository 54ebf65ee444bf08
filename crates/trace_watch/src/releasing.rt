//! What an answer makes of the states of a word.

ghost use Rattle.std.specs.Prelude.{◌≡◌, ◌<◌, ℕ, List, true, false, IfErr, IfOk, OnOk, length};
ghost use Rattle.trace_watch.specs.States.{Config, config_of, configs_of};
ghost use Rattle.trace_watch.specs.declared.watch.Full.TheVariants.{Configurations};
ghost use Rattle.packet.specs.Memory.{reply_to};
ghost use Rattle.trace_laws.specs.Configs.{IsIn};
ghost use Rattle.trace_watch.specs.Lowered.{MayFind};
ghost use Rattle.trace_watch.specs.Matchings.{AreDistinctPartners, MayBe};
ghost use Rattle.trace_watch.specs.Chains.{IsIndexed};
ghost use Rattle.trace_watch.specs.Crowds.{AreFew, IsOverfullCrowd};
ghost use Rattle.trace_watch.specs.Closed.{FromOne, Gathers, IsAnsweredBy, IsClaimed, IsClaimedAt};
ghost use Rattle.trace_watch.specs.Closed.{IsIdleClaim, IsTakenConfig, MayClaim};

use crate::closing::{add, close};
use crate::glimpses::seen_by;
use crate::index::{Index, empty_index, widen};
use crate::lowering::{lowered, may_find};
use crate::matching::{alone_of_each, fits, may_be, newest_of_each};
use crate::pending::without_call;
use crate::state::{Effect, Glimpse, State, effects_without};
use crate::watch::Full;
use packet::{Reply, apply};
use std::alloc::{AllocError, Allocator};
use trace_laws::Call;

/// Whether two replies are the same.
fn same_reply(one: Reply, other: Reply) -> bool
    ensures yes { result ≡ true → one ≡ other }
    ensures no { result ≡ false → one ≡ other → ⊥ }
{
    one == other
}

/// Whether an effect may be of an operation that is answered so.
fn may_reply(effect: Effect, call: Call, reply: Reply) -> bool
    ensures yes { result ≡ true → (effect.reply ≡ reply) × MayBe effect call }
    ensures no { result ≡ false → effect.reply ≡ reply → MayBe effect call → ⊥ }
{
    effect.reply == reply && may_be(effect, call)
}

/// The state without the effect at this place, where it may be of the answered operation.
fn claim<A: Allocator + Copy, B: Allocator>(
    alloc: A,
    state: &State<B>,
    at: usize,
    calls: &[Call],
    call: Call,
    reply: Reply,
    kept: &mut Vec<State<A>, A>,
    index: &mut Index<A>,
) -> Result<(), AllocError>
    requires inside { at < length state.now.effects.items }
    requires indexed { IsIndexed index.old (configs_of kept.old.items) }
    ensures gathers { OnOk result (Gathers calls.now
        (IsClaimedAt calls.now call reply (config_of state.now) at)
        (configs_of kept.old.items) (configs_of kept.new.items)) }
    ensures indexed { OnOk result (IsIndexed index.new (configs_of kept.new.items)) }
{
    let effect = state.effects[at];
    if !may_reply(effect, call, reply) {
        return Ok(());
    }
    let less = effects_without(alloc, &state.effects, at)?;
    let enough = fits(alloc, calls, &less)?;
    if !enough {
        return Ok(());
    }
    let low = lowered(alloc, calls, state.word, &less, &state.seen)?;
    add(kept, index, low)?;
    Ok(())
}

/// The states without an effect each that may be of the answered operation.
fn claim_each<A: Allocator + Copy, B: Allocator>(
    alloc: A,
    state: &State<B>,
    calls: &[Call],
    call: Call,
    reply: Reply,
    kept: &mut Vec<State<A>, A>,
    index: &mut Index<A>,
) -> Result<(), AllocError>
    requires { IsIndexed index.old (configs_of kept.old.items) }
    ensures gathers { OnOk result (Gathers calls.now
        (IsClaimed calls.now call reply (config_of state.now))
        (configs_of kept.old.items) (configs_of kept.new.items)) }
    ensures indexed { OnOk result (IsIndexed index.new (configs_of kept.new.items)) }
{
    for at in 0..state.effects.len() {
        claim(alloc, state, at, calls, call, reply, kept, index)?;
    }
    Ok(())
}

/// Whether the answered operation may have found the word of a glimpse, and replied so.
fn may_have_found(glimpse: Glimpse, call: Call, reply: Reply) -> bool
    ensures yes { result ≡ true
        → MayFind glimpse call × (reply_to call.operation.op glimpse.word ≡ reply) }
    ensures no { result ≡ false → MayFind glimpse call
        → reply_to call.operation.op glimpse.word ≡ reply → ⊥ }
{
    let (_, told) = apply(call.operation.op, glimpse.word);
    may_find(glimpse, call) && told == reply
}

/// Whether the answered operation may have found one of these words, and replied so.
fn has_found(seen: &[Glimpse], call: Call, reply: Reply) -> bool
    ensures yes { result ≡ true → (g : Glimpse) × IsIn seen.now g × MayFind g call
        × (reply_to call.operation.op g.word ≡ reply) }
    ensures no { result ≡ false → (g : Glimpse) → IsIn seen.now g → MayFind g call
        → reply_to call.operation.op g.word ≡ reply → ⊥ }
{
    for i in 0..seen.len() {
        if may_have_found(seen[i], call, reply) {
            return true;
        }
    }
    false
}

/// The state, where the answered operation may have found a word that was there.
fn claim_idle<A: Allocator + Copy, B: Allocator>(
    alloc: A,
    state: &State<B>,
    calls: &[Call],
    call: Call,
    reply: Reply,
    kept: &mut Vec<State<A>, A>,
    index: &mut Index<A>,
) -> Result<(), AllocError>
    requires { IsIndexed index.old (configs_of kept.old.items) }
    ensures gathers { OnOk result (Gathers calls.now
        (IsIdleClaim calls.now call reply (config_of state.now))
        (configs_of kept.old.items) (configs_of kept.new.items)) }
    ensures indexed { OnOk result (IsIndexed index.new (configs_of kept.new.items)) }
{
    if !has_found(&state.seen, call, reply) {
        return Ok(());
    }
    let enough = fits(alloc, calls, &state.effects)?;
    if !enough {
        return Ok(());
    }
    let low = lowered(alloc, calls, state.word, &state.effects, &state.seen)?;
    add(kept, index, low)?;
    Ok(())
}

/// The states in which the answered operation may have taken effect.
fn claim_all<A: Allocator + Copy, B: Allocator>(
    alloc: A,
    state: &State<B>,
    calls: &[Call],
    call: Call,
    reply: Reply,
    kept: &mut Vec<State<A>, A>,
    index: &mut Index<A>,
) -> Result<(), AllocError>
    requires { IsIndexed index.old (configs_of kept.old.items) }
    ensures gathers { OnOk result (Gathers calls.now
        (MayClaim calls.now call reply (config_of state.now))
        (configs_of kept.old.items) (configs_of kept.new.items)) }
    ensures indexed { OnOk result (IsIndexed index.new (configs_of kept.new.items)) }
{
    claim_each(alloc, state, calls, call, reply, kept, index)?;
    claim_idle(alloc, state, calls, call, reply, kept, index)?;
    Ok(())
}

/// Those of some states that the answered operation has taken effect in.
fn claims<A: Allocator + Copy, B: Allocator>(
    alloc: A,
    states: &[State<B>],
    calls: &[Call],
    call: Call,
    reply: Reply,
    kept: &mut Vec<State<A>, A>,
    index: &mut Index<A>,
) -> Result<(), AllocError>
    requires { IsIndexed index.old (configs_of kept.old.items) }
    ensures gathers { OnOk result (Gathers calls.now
        (FromOne (configs_of states.now) (MayClaim calls.now call reply))
        (configs_of kept.old.items) (configs_of kept.new.items)) }
    ensures indexed { OnOk result (IsIndexed index.new (configs_of kept.new.items)) }
{
    for i in 0..states.len() {
        widen(alloc, index, kept)?;
        claim_all(alloc, &states[i], calls, call, reply, kept, index)?;
    }
    Ok(())
}

/// The state after the answered operation takes effect, where it replies so.
fn take<A: Allocator + Copy>(
    alloc: A,
    state: &State<A>,
    calls: &[Call],
    call: Call,
    reply: Reply,
    kept: &mut Vec<State<A>, A>,
    index: &mut Index<A>,
) -> Result<(), AllocError>
    requires { IsIndexed index.old (configs_of kept.old.items) }
    ensures gathers { OnOk result (Gathers calls.now
        (IsTakenConfig calls.now call reply (config_of state.now))
        (configs_of kept.old.items) (configs_of kept.new.items)) }
    ensures indexed { OnOk result (IsIndexed index.new (configs_of kept.new.items)) }
{
    let (word, told) = apply(call.operation.op, state.word);
    if !same_reply(told, reply) {
        return Ok(());
    }
    let enough = fits(alloc, calls, &state.effects)?;
    if !enough {
        return Ok(());
    }
    let seen = seen_by(alloc, calls, state, word)?;
    let low = lowered(alloc, calls, word, &state.effects, &seen)?;
    add(kept, index, low)?;
    Ok(())
}

/// The states after the answered operation takes effect in each, where it replies so.
fn takes<A: Allocator + Copy>(
    alloc: A,
    states: &[State<A>],
    calls: &[Call],
    call: Call,
    reply: Reply,
    kept: &mut Vec<State<A>, A>,
    index: &mut Index<A>,
) -> Result<(), AllocError>
    requires { IsIndexed index.old (configs_of kept.old.items) }
    ensures gathers { OnOk result (Gathers calls.now
        (FromOne (configs_of states.now) (IsTakenConfig calls.now call reply))
        (configs_of kept.old.items) (configs_of kept.new.items)) }
    ensures indexed { OnOk result (IsIndexed index.new (configs_of kept.new.items)) }
{
    for i in 0..states.len() {
        widen(alloc, index, kept)?;
        take(alloc, &states[i], calls, call, reply, kept, index)?;
    }
    Ok(())
}

/// The states of a word after one of its open operations was answered so, where these are its states before.
pub(crate) fn gathered<A: Allocator + Copy, B: Allocator>(
    alloc: A,
    states: &[State<B>],
    calls: &[Call],
    call: Call,
    reply: Reply,
    bound: usize,
) -> Result<Vec<State<A>, A>, Full>
    ensures answered { IfOk result (λ v. IsAnsweredBy call reply calls.now (configs_of states.now)
        (configs_of v.items)) }
    ensures full { IfErr result (λ full. full ≡ Configurations
        → IsOverfullCrowd calls.now bound (configs_of states.now)) }
    ensures few { IfOk result (λ v. AreDistinctPartners calls.now
        → AreFew call.id calls.now bound (configs_of states.now)) }
{
    let others = without_call(alloc, calls, call.id)?;
    let newest = newest_of_each(alloc, &others)?;
    let alone = alone_of_each(alloc, &others, &newest)?;
    let mut index = empty_index(alloc)?;
    let found = close(alloc, states, &mut index, &others, &newest, &alone, bound)?;
    let mut kept = Vec::new(alloc);
    let mut kept_index = empty_index(alloc)?;
    takes(
        alloc,
        &found,
        &others,
        call,
        reply,
        &mut kept,
        &mut kept_index,
    )?;
    claims(
        alloc,
        states,
        &others,
        call,
        reply,
        &mut kept,
        &mut kept_index,
    )?;
    Ok(kept)
}
