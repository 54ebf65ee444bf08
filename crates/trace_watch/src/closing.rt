//! Lets open operations take effect.

ghost use Rattle.std.specs.Prelude.{◌≡◌, ◌<◌, ◌≤◌, ℕ, List, [], ◌∷◌, ◌++◌, IfErr, IfOk, OnOk, Some};
ghost use Rattle.std.specs.Prelude.{length, max, slice_get, true};
ghost use Rattle.trace_laws.specs.declared.event.Call.{Call};
ghost use Rattle.trace_watch.specs.States.{Config, config_of, configs_of};
ghost use Rattle.trace_watch.specs.declared.watch.Full.TheVariants.{Configurations};
ghost use Rattle.trace_watch.specs.Chains.{IsIndexed};
ghost use Rattle.trace_watch.specs.Crowds.{GivesUp, IsOpenCrowd, IsOverfullCrowd};
ghost use Rattle.trace_laws.specs.Configs.{IsIn};
ghost use Rattle.trace_watch.specs.Matchings.{ArePartners, AreToldAlone, HasNewest, IsAlone, IsPart};
ghost use Rattle.trace_watch.specs.Closed.{CatchesUp, Closes, Expands, IsOneMore};

use crate::index::{Index, widen};
use crate::matching::{is_left, partners};
use crate::state::{State, changed, copy_of, effect_of, is_idle};
use crate::watch::Full;
use std::alloc::{AllocError, Allocator};
use trace_laws::Call;

/// Puts a state at the end.
fn push<A: Allocator>(found: &mut Vec<State<A>, A>, state: State<A>) -> Result<(), AllocError>
    ensures { OnOk result (found.new.items ≡ found.old.items ++ state ∷ []) }
{
    found.push(state)?;
    Ok(())
}

/// Adds a state to those that were found, unless one that tells of as much is there.
pub(crate) fn add<A: Allocator + Copy>(
    found: &mut Vec<State<A>, A>,
    index: &mut Index<A>,
    state: State<A>,
) -> Result<(), AllocError>
    requires { IsIndexed index.old (configs_of found.old.items) }
    ensures added { OnOk result
        (IsOneMore (configs_of found.old.items) (config_of state) (configs_of found.new.items)) }
    ensures indexed { OnOk result (IsIndexed index.new (configs_of found.new.items)) }
{
    let place = index.place(&state);
    if index.is_there(found, &state, place) {
        return Ok(());
    }
    index.note(place)?;
    push(found, state)?;
    Ok(())
}

/// And no more than so many.
fn add_within<A: Allocator + Copy>(
    found: &mut Vec<State<A>, A>,
    index: &mut Index<A>,
    state: State<A>,
    bound: usize,
) -> Result<(), Full>
    requires { IsIndexed index.old (configs_of found.old.items) }
    ensures added { OnOk result
        (IsOneMore (configs_of found.old.items) (config_of state) (configs_of found.new.items)) }
    ensures full { IfErr result (λ full. full ≡ Configurations
        → IsOneMore (configs_of found.old.items) (config_of state) (configs_of found.new.items)
        × IsOpenCrowd bound (configs_of found.new.items)) }
    ensures few { OnOk result (length found.new.items ≤ bound) }
    ensures indexed { OnOk result (IsIndexed index.new (configs_of found.new.items)) }
{
    add(found, index, state)?;
    if found.len() > bound {
        return Err(Full::Configurations);
    }
    Ok(())
}

/// Lets an operation take effect in a state, where there is one of these operations for each effect. One
/// that leaves the word as it is changes nothing: it may do so whenever it is that word.
fn attempt<A: Allocator + Copy>(
    alloc: A,
    found: &mut Vec<State<A>, A>,
    index: &mut Index<A>,
    at: usize,
    calls: &[Call],
    taken: &[u64],
    call: Call,
    is_alone: bool,
    bound: usize,
) -> Result<(), Full>
    requires inside { at < length found.old.items }
    requires indexed { IsIndexed index.old (configs_of found.old.items) }
    requires open { IsIn calls.now call }
    requires alone { is_alone ≡ true → IsAlone calls.now call.operation.op call.id }
    requires partners { (c : Config) → slice_get (configs_of found.old.items) at ≡ Some c
        → ArePartners calls.now c.effects taken.now }
    ensures expands { OnOk result (Expands at calls.now (call ∷ [])
        (configs_of found.old.items) (configs_of found.new.items)) }
    ensures full { IfErr result (λ full. full ≡ Configurations → GivesUp calls.now (call ∷ []) bound
        (configs_of found.old.items) (configs_of found.new.items)) }
    ensures few { OnOk result (length found.new.items ≤ max bound (length found.old.items)) }
    ensures indexed { OnOk result (IsIndexed index.new (configs_of found.new.items)) }
{
    let state = &found[at];
    if is_idle(call.operation.op, state.word) {
        return Ok(());
    }
    if !is_left(calls, taken, effect_of(state, call), is_alone) {
        return Ok(());
    }
    let next = changed(alloc, state, calls, call)?;
    add_within(found, index, next, bound)?;
    Ok(())
}

/// Lets each of some operations take effect in a state.
fn expand<A: Allocator + Copy>(
    alloc: A,
    found: &mut Vec<State<A>, A>,
    index: &mut Index<A>,
    at: usize,
    calls: &[Call],
    newest: &[Call],
    alone: &[bool],
    taken: &mut Vec<u64, A>,
    bound: usize,
) -> Result<(), Full>
    requires inside { at < length found.old.items }
    requires indexed { IsIndexed index.old (configs_of found.old.items) }
    requires latest { HasNewest calls.now newest.now }
    requires alone { AreToldAlone calls.now newest.now alone.now }
    ensures expands { OnOk result (Expands at calls.now newest.now
        (configs_of found.old.items) (configs_of found.new.items)) }
    ensures full { IfErr result (λ full. full ≡ Configurations → GivesUp calls.now newest.now bound
        (configs_of found.old.items) (configs_of found.new.items)) }
    ensures few { OnOk result (length found.new.items ≤ max bound (length found.old.items)) }
    ensures indexed { OnOk result (IsIndexed index.new (configs_of found.new.items)) }
{
    let enough = partners(calls, &found[at].effects, taken)?;
    if !enough {
        return Ok(());
    }
    for i in 0..newest.len() {
        attempt(
            alloc, found, index, at, calls, taken, newest[i], alone[i], bound,
        )?;
    }
    Ok(())
}

/// Goes on from each state from this one on, those too that are found meanwhile.
fn catch_up<A: Allocator + Copy>(
    alloc: A,
    found: &mut Vec<State<A>, A>,
    index: &mut Index<A>,
    from: usize,
    calls: &[Call],
    newest: &[Call],
    alone: &[bool],
    taken: &mut Vec<u64, A>,
    bound: usize,
) -> Result<(), Full>
    requires inside { from ≤ length found.old.items }
    requires indexed { IsIndexed index.old (configs_of found.old.items) }
    requires latest { HasNewest calls.now newest.now }
    requires alone { AreToldAlone calls.now newest.now alone.now }
    ensures expands { OnOk result (CatchesUp from calls.now newest.now
        (configs_of found.old.items) (configs_of found.new.items)) }
    ensures full { IfErr result (λ full. full ≡ Configurations → GivesUp calls.now newest.now bound
        (configs_of found.old.items) (configs_of found.new.items)) }
    ensures few { OnOk result (length found.new.items ≤ max bound (length found.old.items)) }
    ensures indexed { OnOk result (IsIndexed index.new (configs_of found.new.items)) }
{
    for next in from..usize::MAX {
        if next >= found.len() {
            return Ok(());
        }
        widen(alloc, index, found)?;
        expand(
            alloc, found, index, next, calls, newest, alone, taken, bound,
        )?;
    }
    // No memory has room for so many.
    Err(Full::Memory)
}

/// The states that these operations lead to, of which the newest ones that ask the same are told.
pub(crate) fn close<A: Allocator + Copy, B: Allocator>(
    alloc: A,
    states: &[State<B>],
    index: &mut Index<A>,
    calls: &[Call],
    newest: &[Call],
    alone: &[bool],
    bound: usize,
) -> Result<Vec<State<A>, A>, Full>
    requires indexed { IsIndexed index.old [] }
    requires latest { HasNewest calls.now newest.now }
    requires alone { AreToldAlone calls.now newest.now alone.now }
    ensures closes { IfOk result (λ v. Closes calls.now newest.now (configs_of states.now)
        (configs_of v.items)) }
    ensures full { IfErr result (λ full. full ≡ Configurations → (all : List Call)
        → IsPart calls.now all → IsPart newest.now all
        → IsOverfullCrowd all bound (configs_of states.now)) }
    ensures few { IfOk result (λ v. length v.items ≤ bound) }
{
    let mut found = Vec::new(alloc);
    let mut taken = Vec::new(alloc);
    for i in 0..states.len() {
        let from = found.len();
        let copy = copy_of(alloc, &states[i])?;
        add_within(&mut found, index, copy, bound)?;
        catch_up(
            alloc, &mut found, index, from, calls, newest, alone, &mut taken, bound,
        )?;
    }
    Ok(found)
}
