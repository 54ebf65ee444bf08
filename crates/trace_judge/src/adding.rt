//! Adds branches to those that were found, unless one as good is there.

ghost use Rattle.std.specs.Prelude.{◌≡◌, true, Some, None, ◌∷◌, ◌++◌, [], ◌<◌, ◌≤◌, MatchOption};
ghost use Rattle.std.specs.Prelude.{OnOk, length};
ghost use Rattle.trace_laws.specs.declared.opened.Open.{Open};
ghost use Rattle.trace_laws.specs.Configs.{AgreesWithValue, HasAsGood, effect, release, GoesOn};
ghost use Rattle.trace_laws.specs.Searches.{configs_of};
ghost use Rattle.trace_judge.specs.Idles.{AreListed, AreLow};
ghost use Rattle.trace_judge.specs.Sets.{TakesEffect, WaitsForEvent, Joins, Takes};

use crate::bits::{has, with, without};
use crate::idles::{Idle, follow, settle};
use crate::index::Index;
use packet::{Reply, apply};
use std::alloc::{AllocError, Allocator};
use trace_laws::{Branch, Config, Node, Open};

/// Whether the trace tells as the reply of an operation another word than this.
#[tactic(auto, using(crate::proofs::Calm::other_told))]
fn tells_other(opened: Open, word: u64) -> bool
    ensures { result ≡ true → AgreesWithValue opened word → ⊥ }
{
    match opened.promise {
        Some(Reply::Old(told)) => told != word,
        _ => false,
    }
}

/// The configuration after the operation at this place took effect, if it may.
pub fn after(
    config: Config,
    place: Option<Open>,
    address: u32,
    slot: usize,
) -> Option<(Open, Config)>
    requires { slot < 128 }
    ensures { MatchOption result
        ((o : Open) → TakesEffect place address config slot o → ⊥)
        (λ r. TakesEffect place address config slot r.0 × (r.1 ≡ effect config slot r.0)) }
{
    let open = place?;
    if open.call.operation.address != address || has(config.taken, slot) {
        return None;
    }
    if tells_other(open, config.word) {
        return None;
    }
    let (word, reply) = apply(open.call.operation.op, config.word);
    if let Some(promise) = open.promise
        && reply != promise
    {
        return None;
    }
    Some((
        open,
        Config {
            word,
            taken: with(config.taken, slot),
        },
    ))
}

/// The configuration without the effect of the operation at this place, if it is never answered.
fn waiting(config: Config, place: Option<Open>, address: u32, slot: usize) -> Option<Config>
    requires { slot < 128 }
    ensures { MatchOption result (Unit {0})
        (λ less. (less ≡ release config slot) × WaitsForEvent place address) }
{
    let opened = place?;
    if opened.promise.is_some()
        || opened.call.operation.address != address
        || !has(config.taken, slot)
    {
        return None;
    }
    Some(Config {
        word: config.word,
        taken: without(config.taken, slot),
    })
}

/// The slot from which on operations are never answered.
const NEVER: usize = 64;

/// Whether a configuration is there with one of its operations waiting that are never answered.
fn is_dominated<A: Allocator + Copy>(
    found: &[Branch],
    index: &Index<A>,
    table: &[Option<Open>],
    address: u32,
    config: Config,
) -> bool
    requires { length table.now ≤ 128 }
    ensures { result ≡ true → HasAsGood table.now address (configs_of found.now) config }
{
    for slot in NEVER..table.len() {
        if let Some(less) = waiting(config, table[slot], address, slot) {
            if index.place_for(found, less).is_none() {
                return true;
            }
        }
    }
    false
}

/// Where a configuration is to be noted, if there is none as good.
fn new_place<A: Allocator + Copy>(
    found: &[Branch],
    index: &Index<A>,
    table: &[Option<Open>],
    address: u32,
    config: Config,
) -> Option<usize>
    requires { length table.now ≤ 128 }
    ensures { result ≡ None → HasAsGood table.now address (configs_of found.now) config }
{
    let place = index.place_for(found, config)?;
    if is_dominated(found, index, table, address, config) {
        return None;
    }
    Some(place)
}

/// Adds a branch at the end.
fn put<A: Allocator + Copy>(
    found: &mut Vec<Branch, A>,
    index: &mut Index<A>,
    place: usize,
    branch: Branch,
) -> Result<(), AllocError>
    ensures { OnOk result (found.new.items ≡ found.old.items ++ branch ∷ []) }
{
    index.note(place, found.len());
    found.push(branch)?;
    Ok(())
}

/// Makes a node for an operation that takes effect in a branch.
fn push_node<A: Allocator>(
    nodes: &mut Vec<Node, A>,
    opened: Open,
    from: Branch,
) -> Result<(), AllocError>
    ensures { OnOk result (nodes.new.items
        ≡ nodes.old.items ++ record { call = opened.call; before = from.trail } ∷ []) }
{
    nodes.push(Node {
        call: opened.call,
        before: from.trail,
    })?;
    Ok(())
}

/// Adds a branch after its idle operations took effect, unless one as good is there.
pub fn add<A: Allocator + Copy>(
    found: &mut Vec<Branch, A>,
    nodes: &mut Vec<Node, A>,
    index: &mut Index<A>,
    table: &[Option<Open>],
    address: u32,
    idles: &[Idle],
    from: Branch,
) -> Result<(), AllocError>
    requires small { length table.now ≤ 128 }
    requires low { AreLow idles.now }
    requires listed { AreListed table.now address idles.now }
    ensures there { OnOk result
        (HasAsGood table.now address (configs_of found.new.items) from.config) }
    ensures grows { OnOk result (GoesOn found.old.items found.new.items) }
    ensures ways { OnOk result (Joins table.now address from found.old.items nodes.old.items
        found.new.items nodes.new.items) }
{
    let config = settle(idles, from.config);
    let Some(place) = new_place(found, index, table, address, config) else {
        return Ok(());
    };
    let branch = follow(nodes, idles, from)?;
    put(found, index, place, branch)?;
    Ok(())
}

/// Adds the branch in which an operation took effect, and then its idle operations, unless one as
/// good is there.
pub fn take<A: Allocator + Copy>(
    found: &mut Vec<Branch, A>,
    nodes: &mut Vec<Node, A>,
    index: &mut Index<A>,
    table: &[Option<Open>],
    address: u32,
    idles: &[Idle],
    from: Branch,
    opened: Open,
    config: Config,
) -> Result<(), AllocError>
    requires small { length table.now ≤ 128 }
    requires low { AreLow idles.now }
    requires listed { AreListed table.now address idles.now }
    ensures there { OnOk result (HasAsGood table.now address (configs_of found.new.items) config) }
    ensures grows { OnOk result (GoesOn found.old.items found.new.items) }
    ensures ways { OnOk result (Takes table.now address from opened config found.old.items
        nodes.old.items found.new.items nodes.new.items) }
{
    let settled = settle(idles, config);
    let Some(place) = new_place(found, index, table, address, settled) else {
        return Ok(());
    };
    let begun = Branch {
        config,
        trail: Some(nodes.len()),
    };
    push_node(nodes, opened, from)?;
    let branch = follow(nodes, idles, begun)?;
    put(found, index, place, branch)?;
    Ok(())
}
