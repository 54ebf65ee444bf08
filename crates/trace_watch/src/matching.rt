//! Which open operations effects may be of.

ghost use Rattle.std.specs.Prelude.{◌≡◌, ◌<◌, ◌≤◌, ℕ, Some, true, false, IfOk, MatchOption, slice_get, length};
ghost use Rattle.trace_laws.specs.declared.event.Call.{Call};
ghost use Rattle.trace_laws.specs.Configs.{IsIn};
ghost use Rattle.trace_watch.specs.Matchings.{AreDistinctPartners, ArePartners, AreToldAlone, FitsPartner};
ghost use Rattle.trace_watch.specs.Matchings.{HasAsNew, HasBound, HasNewest, IsAlone};
ghost use Rattle.trace_watch.specs.Matchings.{IsNewer, IsNewestOf, MayBe, MayStillBe};

use crate::pending::call_of;
use crate::state::Effect;
use std::alloc::{AllocError, Allocator};
use trace_laws::Call;

/// Whether an effect may be of an operation.
pub(crate) fn may_be(effect: Effect, call: Call) -> bool
    ensures yes { result ≡ true → MayBe effect call }
    ensures no { result ≡ false → MayBe effect call → ⊥ }
{
    call.id <= effect.newest && call.operation.op == effect.op
}

/// The newer one of an operation and the newest so far.
pub(crate) fn newer(newest: Option<Call>, call: Call) -> Option<Call>
    ensures { IsNewer newest call result }
{
    match newest {
        None => Some(call),
        Some(other) if call.id <= other.id => newest,
        Some(_) => Some(call),
    }
}

/// Whether a number is one of these.
fn is_taken(taken: &[u64], id: u64) -> bool
    ensures yes { result ≡ true → IsIn taken.now id }
    ensures no { result ≡ false → IsIn taken.now id → ⊥ }
{
    for i in 0..taken.len() {
        if taken[i] == id {
            return true;
        }
    }
    false
}

/// Whether an operation is none of those of these numbers, and an effect may be of it.
fn may_still_be(taken: &[u64], effect: Effect, call: Call) -> bool
    ensures yes { result ≡ true → MayStillBe taken.now effect call }
    ensures no { result ≡ false → MayStillBe taken.now effect call → ⊥ }
{
    may_be(effect, call) && !is_taken(taken, call.id)
}

/// Of some operations but for those of these numbers the newest one that an effect may be of: each is looked at.
fn newest_among(calls: &[Call], taken: &[u64], effect: Effect) -> Option<Call>
    ensures { MatchOption result
        ((k : ℕ) (c : Call) → slice_get calls.now k ≡ Some c → MayStillBe taken.now effect c → ⊥)
        (λ c. IsNewestOf calls.now (MayStillBe taken.now effect) c) }
{
    let mut newest = None;
    for i in 0..calls.len() {
        let call = calls[i];
        if may_still_be(taken, effect, call) {
            newest = newer(newest, call);
        }
    }
    newest
}

/// Of some operations but for those of these numbers the newest one that an effect may be of: mostly its bound is
/// the number of one.
pub(crate) fn newest_left(calls: &[Call], taken: &[u64], effect: Effect) -> Option<Call>
    ensures { MatchOption result
        ((k : ℕ) (c : Call) → slice_get calls.now k ≡ Some c → MayStillBe taken.now effect c → ⊥)
        (λ c. IsNewestOf calls.now (MayStillBe taken.now effect) c) }
{
    match call_of(calls, effect.newest) {
        Some(call) if may_still_be(taken, effect, call) => Some(call),
        _ => newest_among(calls, taken, effect),
    }
}

/// Of some operations the newest one that an effect may be of.
pub(crate) fn newest_of(calls: &[Call], effect: Effect) -> Option<Call>
    ensures { MatchOption result
        ((k : ℕ) (c : Call) → slice_get calls.now k ≡ Some c → MayBe effect c → ⊥)
        (λ c. IsNewestOf calls.now (MayBe effect) c) }
{
    newest_left(calls, &[], effect)
}

/// Whether effects may each be of an operation of its own, and the numbers of those that they take: each the newest
/// one that is left for it, which serves the others least.
pub(crate) fn partners<A: Allocator>(
    calls: &[Call],
    effects: &[Effect],
    taken: &mut Vec<u64, A>,
) -> Result<bool, AllocError>
    ensures yes { IfOk result (λ yes. yes ≡ true
        → ArePartners calls.now effects.now taken.new.items) }
    ensures no { IfOk result (λ yes. yes ≡ false → AreDistinctPartners calls.now
        → FitsPartner (IsIn calls.now) effects.now → ⊥) }
{
    taken.clear();
    for i in 0..effects.len() {
        let Some(call) = newest_left(calls, taken, effects[i]) else {
            return Ok(false);
        };
        taken.push(call.id)?;
    }
    Ok(true)
}

/// Whether effects may each be of an operation of its own.
pub(crate) fn fits<A: Allocator>(
    alloc: A,
    calls: &[Call],
    effects: &[Effect],
) -> Result<bool, AllocError>
    ensures yes { IfOk result (λ yes. yes ≡ true → FitsPartner (IsIn calls.now) effects.now) }
    ensures no { IfOk result (λ yes. yes ≡ false → AreDistinctPartners calls.now
        → FitsPartner (IsIn calls.now) effects.now → ⊥) }
{
    let mut taken = Vec::with_capacity(alloc, effects.len())?;
    let enough = partners(calls, effects, &mut taken)?;
    Ok(enough)
}

/// Whether one of some operations but for those of these numbers is left for the effect of one of them, of which it is
/// told whether no other asks the same.
pub(crate) fn is_left(calls: &[Call], taken: &[u64], effect: Effect, is_alone: bool) -> bool
    requires bound { HasBound calls.now effect }
    requires alone { is_alone ≡ true → IsAlone calls.now effect.op effect.newest }
    ensures yes { result ≡ true
        → (call : Call) × IsIn calls.now call × MayStillBe taken.now effect call }
    ensures no { result ≡ false
        → (call : Call) → IsIn calls.now call → MayStillBe taken.now effect call → ⊥ }
{
    if !is_taken(taken, effect.newest) {
        return true;
    }
    if is_alone {
        return false;
    }
    newest_left(calls, taken, effect).is_some()
}

/// Whether one of some operations asks the same as this one, and is as new.
fn has_as_new(calls: &[Call], call: Call) -> bool
    ensures yes { result ≡ true → HasAsNew calls.now call }
    ensures no { result ≡ false → HasAsNew calls.now call → ⊥ }
{
    for i in 0..calls.len() {
        let other = calls[i];
        if other.operation.op == call.operation.op && call.id <= other.id {
            return true;
        }
    }
    false
}

/// Of those operations that ask the same the newest one, and maybe others.
pub(crate) fn newest_of_each<A: Allocator>(
    alloc: A,
    calls: &[Call],
) -> Result<Vec<Call, A>, AllocError>
    ensures { IfOk result (λ v. HasNewest calls.now v.items) }
{
    let mut newest = Vec::new(alloc);
    let count = calls.len();
    for i in 0..count {
        let call = calls[count - 1 - i];
        if !has_as_new(&newest, call) {
            newest.push(call)?;
        }
    }
    Ok(newest)
}

/// Whether an operation of another number asks the same.
fn asks_too(call: Call, other: Call) -> bool
    ensures yes { result ≡ true
        → (other.operation.op ≡ call.operation.op) × (other.id ≡ call.id → ⊥) }
    ensures no { result ≡ false
        → other.operation.op ≡ call.operation.op → (other.id ≡ call.id → ⊥) → ⊥ }
{
    other.operation.op == call.operation.op && other.id != call.id
}

/// Whether none of some operations but one of this number asks the same.
fn is_alone(calls: &[Call], call: Call) -> bool
    ensures yes { result ≡ true → IsAlone calls.now call.operation.op call.id }
    ensures no { result ≡ false → IsAlone calls.now call.operation.op call.id → ⊥ }
{
    for i in 0..calls.len() {
        if asks_too(call, calls[i]) {
            return false;
        }
    }
    true
}

/// Of each of the newest operations whether no other asks the same.
pub(crate) fn alone_of_each<A: Allocator>(
    alloc: A,
    calls: &[Call],
    newest: &[Call],
) -> Result<Vec<bool, A>, AllocError>
    ensures { IfOk result (λ v. AreToldAlone calls.now newest.now v.items) }
{
    let mut alone = Vec::with_capacity(alloc, newest.len())?;
    for i in 0..newest.len() {
        alone.push(is_alone(calls, newest[i]))?;
    }
    Ok(alone)
}
