//! Lowers the bounds of a state to the newest open operations.

ghost use Rattle.std.specs.Prelude.{◌≡◌, ℕ, Some, true, false, IfOk, OnOk, MatchOption, slice_get};
ghost use Rattle.trace_laws.specs.declared.event.Call.{Call};
ghost use Rattle.trace_watch.specs.States.{config_of};
ghost use Rattle.trace_watch.specs.Lowered.{AreLowered, AreLoweredGlimpses, IsBounded, IsLowered, MayFind};
ghost use Rattle.trace_watch.specs.Lowered.{NotesGlimpse};
ghost use Rattle.trace_watch.specs.Matchings.{IsNewestOf};

use crate::glimpses::has_glimpse;
use crate::matching::{newer, newest_of};
use crate::pending::call_of;
use crate::state::{Effect, Glimpse, State, is_idle};
use std::alloc::{AllocError, Allocator};
use trace_laws::Call;

/// The effect with its bound lowered to the newest of these operations that it may be of.
fn lowered_effect(calls: &[Call], effect: Effect) -> Effect
    ensures op { result.op ≡ effect.op }
    ensures reply { result.reply ≡ effect.reply }
    ensures bound { IsBounded calls.now effect result.newest }
{
    let newest = match newest_of(calls, effect) {
        Some(call) => call.id,
        None => effect.newest,
    };
    Effect {
        op: effect.op,
        reply: effect.reply,
        newest,
    }
}

/// These effects, each with its bound lowered.
fn lowered_effects<A: Allocator>(
    alloc: A,
    calls: &[Call],
    effects: &[Effect],
) -> Result<Vec<Effect, A>, AllocError>
    ensures { IfOk result (λ v. AreLowered calls.now effects.now v.items) }
{
    let mut lowered = Vec::with_capacity(alloc, effects.len())?;
    for i in 0..effects.len() {
        lowered.push(lowered_effect(calls, effects[i]))?;
    }
    Ok(lowered)
}

/// Whether an operation may have found the word of a glimpse, which it leaves as it is.
pub(crate) fn may_find(glimpse: Glimpse, call: Call) -> bool
    ensures yes { result ≡ true → MayFind glimpse call }
    ensures no { result ≡ false → MayFind glimpse call → ⊥ }
{
    is_idle(call.operation.op, glimpse.word) && call.id <= glimpse.newest
}

/// The newest of some operations that may have found the word of a glimpse: each is looked at.
fn finder_among(calls: &[Call], glimpse: Glimpse) -> Option<Call>
    ensures { MatchOption result
        ((k : ℕ) (c : Call) → slice_get calls.now k ≡ Some c → MayFind glimpse c → ⊥)
        (λ c. IsNewestOf calls.now (MayFind glimpse) c) }
{
    let mut newest = None;
    for i in 0..calls.len() {
        let call = calls[i];
        if may_find(glimpse, call) {
            newest = newer(newest, call);
        }
    }
    newest
}

/// The newest of some operations that may have found the word of a glimpse: mostly its bound is the number of one.
fn newest_finder(calls: &[Call], glimpse: Glimpse) -> Option<Call>
    ensures { MatchOption result
        ((k : ℕ) (c : Call) → slice_get calls.now k ≡ Some c → MayFind glimpse c → ⊥)
        (λ c. IsNewestOf calls.now (MayFind glimpse) c) }
{
    match call_of(calls, glimpse.newest) {
        Some(call) if may_find(glimpse, call) => Some(call),
        _ => finder_among(calls, glimpse),
    }
}

/// Keeps a glimpse with its bound lowered, where an open operation may have found its word.
fn note_glimpse<A: Allocator>(
    lowered: &mut Vec<Glimpse, A>,
    calls: &[Call],
    glimpse: Glimpse,
) -> Result<(), AllocError>
    ensures { OnOk result (NotesGlimpse calls.now glimpse lowered.old.items lowered.new.items) }
{
    let Some(call) = newest_finder(calls, glimpse) else {
        return Ok(());
    };
    let next = Glimpse {
        word: glimpse.word,
        newest: call.id,
    };
    if has_glimpse(lowered, next) {
        return Ok(());
    }
    lowered.push(next)?;
    Ok(())
}

/// Of these glimpses those of words that open operations may have found, each with its bound lowered.
fn lowered_seen<A: Allocator>(
    alloc: A,
    calls: &[Call],
    seen: &[Glimpse],
) -> Result<Vec<Glimpse, A>, AllocError>
    ensures { IfOk result (λ v. AreLoweredGlimpses calls.now seen.now v.items) }
{
    let mut lowered = Vec::with_capacity(alloc, seen.len())?;
    for i in 0..seen.len() {
        note_glimpse(&mut lowered, calls, seen[i])?;
    }
    Ok(lowered)
}

/// The state of these effects and glimpses, with each bound lowered to the newest of these operations.
pub(crate) fn lowered<A: Allocator + Copy>(
    alloc: A,
    calls: &[Call],
    word: u64,
    effects: &[Effect],
    seen: &[Glimpse],
) -> Result<State<A>, AllocError>
    ensures { IfOk result (λ s. IsLowered calls.now
        (record { word = word; effects = effects.now; seen = seen.now }) (config_of s)) }
{
    Ok(State {
        word,
        effects: lowered_effects(alloc, calls, effects)?,
        seen: lowered_seen(alloc, calls, seen)?,
    })
}
