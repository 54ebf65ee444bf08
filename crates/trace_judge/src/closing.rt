//! Lets open operations take effect, until the answered one has.

ghost use Rattle.std.specs.Prelude.{◌≡◌, ◌<◌, ◌≤◌, IfErr, IfOk, OnOk, length};
ghost use Rattle.trace_laws.specs.declared.opened.Config.{Config};
ghost use Rattle.trace_laws.specs.declared.opened.Branch.{Branch};
ghost use Rattle.trace_laws.specs.Configs.{IsIn, IsLeft, HasTakenEffect, HasAsGood, release};
ghost use Rattle.trace_laws.specs.Configs.{GoesOn};
ghost use Rattle.trace_judge.specs.Elders.{IsExpandedInTurn};
ghost use Rattle.trace_laws.specs.Searches.{configs_of, AreReleased};
ghost use Rattle.trace_judge.specs.declared.undecided.Full.TheVariants.{Configurations};
ghost use Rattle.trace_judge.specs.Crowds.{IsOverfull};
ghost use Rattle.trace_judge.specs.Idles.{AreListed, AreLow};
ghost use Rattle.trace_judge.specs.Sets.{StaysSound};

use crate::adding::{add, take};
use crate::bits::{has, without};
use crate::counting::is_crowd;
use crate::elder::after_elders;
use crate::idles::{Idle, idles_of};
use crate::index::Index;
use crate::undecided::Full;
use std::alloc::{AllocError, Allocator};
use trace_laws::{Branch, Config, Node, Open};

/// The branches of a word after their idle operations took effect.
fn settle_all<A: Allocator + Copy>(
    alloc: A,
    branches: &[Branch],
    nodes: &mut Vec<Node, A>,
    index: &mut Index<A>,
    table: &[Option<Open>],
    address: u32,
    idles: &[Idle],
) -> Result<Vec<Branch, A>, AllocError>
    requires small { length table.now ≤ 128 }
    requires low { AreLow idles.now }
    requires listed { AreListed table.now address idles.now }
    ensures kept { IfOk result (λ v. (c : Config) → IsIn (configs_of branches.now) c
        → HasAsGood table.now address (configs_of v.items) c) }
    ensures sound { IfOk result (λ v. StaysSound table.now address branches.now nodes.old.items
        v.items nodes.new.items) }
{
    index.forget();
    let mut found = Vec::new(alloc);
    for i in 0..branches.len() {
        index.widen(alloc, &found)?;
        add(&mut found, nodes, index, table, address, idles, branches[i])?;
    }
    Ok(found)
}

/// Lets every operation that may take effect in a branch do so.
fn expand<A: Allocator + Copy>(
    found: &mut Vec<Branch, A>,
    nodes: &mut Vec<Node, A>,
    index: &mut Index<A>,
    table: &[Option<Open>],
    address: u32,
    idles: &[Idle],
    from: Branch,
) -> Result<(), AllocError>
    requires small { length table.now ≤ 128 }
    requires low { AreLow idles.now }
    requires listed { AreListed table.now address idles.now }
    requires there { IsIn found.old.items from }
    ensures expanded { OnOk result
        (IsExpandedInTurn table.now address (configs_of found.new.items) from.config) }
    ensures grows { OnOk result (GoesOn found.old.items found.new.items) }
    ensures sound { OnOk result (StaysSound table.now address found.old.items nodes.old.items
        found.new.items nodes.new.items) }
{
    for slot in 0..table.len() {
        if let Some((opened, config)) = after_elders(
            from.config,
            table,
            table[slot],
            address,
            slot,
        ) {
            take(
                found, nodes, index, table, address, idles, from, opened, config,
            )?;
        }
    }
    Ok(())
}

/// The branches of a word after their idle operations took effect, each of which goes on until the
/// operation in this slot has taken effect.
fn go_on<A: Allocator + Copy>(
    alloc: A,
    branches: &[Branch],
    nodes: &mut Vec<Node, A>,
    index: &mut Index<A>,
    table: &[Option<Open>],
    address: u32,
    idles: &[Idle],
    slot: usize,
    bound: usize,
) -> Result<Vec<Branch, A>, Full>
    requires small { length table.now ≤ 128 }
    requires inside { slot < 128 }
    requires low { AreLow idles.now }
    requires listed { AreListed table.now address idles.now }
    ensures kept { IfOk result (λ v. (c : Config) → IsIn (configs_of branches.now) c
        → HasAsGood table.now address (configs_of v.items) c) }
    ensures closed { IfOk result (λ v. (c : Config) → IsIn (configs_of v.items) c → IsLeft c slot
        → IsExpandedInTurn table.now address (configs_of v.items) c) }
    ensures sound { IfOk result (λ v. StaysSound table.now address branches.now nodes.old.items
        v.items nodes.new.items) }
    ensures full { IfErr result (λ full. full ≡ Configurations
        → IsOverfull table.now address bound branches.now nodes.old.items) }
{
    let mut found = settle_all(alloc, branches, nodes, index, table, address, idles)?;
    for next in 0..usize::MAX {
        if is_crowd(alloc, &found, bound)? {
            return Err(Full::Configurations);
        }
        if next >= found.len() {
            return Ok(found);
        }
        let from = found[next];
        if !has(from.config.taken, slot) {
            index.widen(alloc, &found)?;
            expand(&mut found, nodes, index, table, address, idles, from)?;
        }
    }
    // No memory has room for so many.
    Err(Full::Memory)
}

/// The branches that open operations on a word lead to: idle ones take effect at once, and each
/// branch goes on until the operation in this slot has taken effect.
pub fn close<A: Allocator + Copy>(
    alloc: A,
    branches: &[Branch],
    nodes: &mut Vec<Node, A>,
    index: &mut Index<A>,
    table: &[Option<Open>],
    address: u32,
    slot: usize,
    bound: usize,
) -> Result<Vec<Branch, A>, Full>
    requires small { length table.now ≤ 128 }
    requires inside { slot < 128 }
    ensures kept { IfOk result (λ v. (c : Config) → IsIn (configs_of branches.now) c
        → HasAsGood table.now address (configs_of v.items) c) }
    ensures closed { IfOk result (λ v. (c : Config) → IsIn (configs_of v.items) c → IsLeft c slot
        → IsExpandedInTurn table.now address (configs_of v.items) c) }
    ensures sound { IfOk result (λ v. StaysSound table.now address branches.now nodes.old.items
        v.items nodes.new.items) }
    ensures full { IfErr result (λ full. full ≡ Configurations
        → IsOverfull table.now address bound branches.now nodes.old.items) }
{
    let idles = idles_of(alloc, table, address)?;
    go_on(
        alloc, branches, nodes, index, table, address, &idles, slot, bound,
    )
}

/// The branches in which the operation in this slot has taken effect; the slot is free from now on.
pub fn keep<A: Allocator>(
    alloc: A,
    branches: &[Branch],
    slot: usize,
) -> Result<Vec<Branch, A>, AllocError>
    requires { slot < 128 }
    ensures from { IfOk result (λ v. AreReleased slot branches.now v.items) }
    ensures released { IfOk result (λ v. (b : Branch) → IsIn branches.now b →
        HasTakenEffect b.config slot
        → IsIn v.items (record { config = release b.config slot; trail = b.trail })) }
{
    let mut kept = Vec::new(alloc);
    for branch in branches {
        if has(branch.config.taken, slot) {
            kept.push(Branch {
                config: Config {
                    word: branch.config.word,
                    taken: without(branch.config.taken, slot),
                },
                trail: branch.trail,
            })?;
        }
    }
    Ok(kept)
}
