//! Idle operations, which leave the word as it is wherever they may take effect: they do so at once.

ghost use Rattle.std.specs.Prelude.{◌≡◌, ◌<◌, ◌≤◌, ℕ, List, Option, Some, MatchOption, IfOk};
ghost use Rattle.std.specs.Prelude.{length};
ghost use Rattle.trace_laws.specs.declared.opened.Open.{Open};
ghost use Rattle.trace_laws.specs.Configs.{IsIdle, AgreesWithValue};
ghost use Rattle.trace_judge.specs.Idles.{FitsAt, IsListed, AreListed, AreLow, applies, calmed};
ghost use Rattle.trace_judge.specs.Idles.{settled};
ghost use Rattle.trace_judge.specs.Sets.{Replaces};

use crate::bits::{has, with};
use packet::{Op, Reply, apply};
use std::alloc::{AllocError, Allocator};
use trace_laws::{Branch, Config, Node, Open};

/// An idle operation that is open, and the word at which its reply fits: `None` where it is any.
#[derive(Clone, Copy)]
pub struct Idle {
    pub slot: usize,
    pub opened: Open,
    pub at: Option<u64>,
}

/// Where the reply of an operation fits, if it is idle.
fn idle_at(opened: Open) -> Option<Option<u64>>
    ensures { MatchOption result (Unit {0})
        (λ at. IsIdle opened × ((word : ℕ) → FitsAt at word → AgreesWithValue opened word)) }
{
    match opened.promise {
        Some(Reply::Old(word)) => {
            let (left, reply) = apply(opened.call.operation.op, word);
            if left == word && reply == Reply::Old(word) {
                Some(Some(word))
            } else {
                None
            }
        }
        Some(Reply::Ok) => None,
        None => {
            if opened.call.operation.op == Op::Load {
                Some(None)
            } else {
                None
            }
        }
    }
}

/// What a place of the table holds, if it is an idle operation on this word.
fn idle_in(place: Option<Open>, address: u32, slot: usize) -> Option<Idle>
    ensures { MatchOption result (Unit {0}) (λ q. (q.slot ≡ slot) × (place ≡ Some q.opened)
        × (q.opened.call.operation.address ≡ address) × IsIdle q.opened
        × ((word : ℕ) → FitsAt q.at word → AgreesWithValue q.opened word)) }
{
    let opened = place?;
    if opened.call.operation.address != address {
        return None;
    }
    let at = idle_at(opened)?;
    Some(Idle { slot, opened, at })
}

/// The idle operations on a word.
pub fn idles_of<A: Allocator>(
    alloc: A,
    table: &[Option<Open>],
    address: u32,
) -> Result<Vec<Idle, A>, AllocError>
    requires { length table.now ≤ 128 }
    ensures low { IfOk result (λ v. AreLow v.items) }
    ensures listed { IfOk result (λ v. AreListed table.now address v.items) }
{
    let mut idles = Vec::new(alloc);
    for slot in 0..table.len() {
        if let Some(idle) = idle_in(table[slot], address, slot) {
            idles.push(idle)?;
        }
    }
    Ok(idles)
}

/// Whether an idle operation may take effect in a configuration.
fn may_take(idle: Idle, config: Config) -> bool
    requires { idle.slot < 128 }
    ensures { result ≡ applies idle config }
{
    if has(config.taken, idle.slot) {
        return false;
    }
    match idle.at {
        Some(word) => word == config.word,
        None => true,
    }
}

/// The configuration after an idle operation took effect, if it may.
fn calm(idle: Idle, config: Config) -> Config
    requires { idle.slot < 128 }
    ensures { result ≡ calmed idle config }
{
    if !may_take(idle, config) {
        return config;
    }
    Config {
        word: config.word,
        taken: with(config.taken, idle.slot),
    }
}

/// The configuration after every idle operation that may take effect has.
pub fn settle(idles: &[Idle], config: Config) -> Config
    requires { AreLow idles.now }
    ensures { result ≡ settled idles.now config }
{
    let mut calmer = config;
    for i in 0..idles.len() {
        calmer = calm(idles[i], calmer);
    }
    calmer
}

/// Makes a node for an idle operation, if it may take effect: the branch that it leads to.
fn follow_one<A: Allocator>(
    nodes: &mut Vec<Node, A>,
    idle: Idle,
    from: Branch,
) -> Result<Branch, AllocError>
    requires { idle.slot < 128 }
    ensures config { IfOk result (λ to. to.config ≡ calmed idle from.config) }
    ensures ways { IfOk result (λ to. (table : List (Option Open)) (w : ℕ) → IsListed table w idle
        → Replaces table w from nodes.old.items to nodes.new.items) }
{
    if !may_take(idle, from.config) {
        return Ok(from);
    }
    let to = Branch {
        config: Config {
            word: from.config.word,
            taken: with(from.config.taken, idle.slot),
        },
        trail: Some(nodes.len()),
    };
    nodes.push(Node {
        call: idle.opened.call,
        before: from.trail,
    })?;
    Ok(to)
}

/// Makes nodes for the idle operations that may take effect, one after the other: the branch that
/// they lead to.
pub fn follow<A: Allocator>(
    nodes: &mut Vec<Node, A>,
    idles: &[Idle],
    from: Branch,
) -> Result<Branch, AllocError>
    requires { AreLow idles.now }
    ensures config { IfOk result (λ to. to.config ≡ settled idles.now from.config) }
    ensures ways { IfOk result (λ to. (table : List (Option Open)) (w : ℕ)
        → AreListed table w idles.now
        → Replaces table w from nodes.old.items to nodes.new.items) }
{
    let mut to = from;
    for i in 0..idles.len() {
        to = follow_one(nodes, idles[i], to)?;
    }
    Ok(to)
}
