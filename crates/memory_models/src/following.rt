//! Arcs for rules whose second kinds are among their first ones.

ghost use Rattle.std.specs.Prelude.{◌≡◌, ◌⊎◌, ◌<◌, ℕ, if◌then◌else◌, length, OnOk};
ghost use Rattle.memory_models.specs.Trace.{IsMemoryTrace};
ghost use Rattle.memory_models.specs.Arcs.{IsChained, IsRule, ExtendsEdges, AreArcs, RisesByRule};
ghost use Rattle.memory_models.specs.Following.{IsChainedOn, is_chained, comes_at};

use crate::kinds::{Operation, Rule, has, rule_key};
use crate::program::{later, push_if, rule_arcs};
use rising::Edge;
use std::alloc::{AllocError, Allocator};

/// Whether a rule keeps an operation before the next one that the rule speaks of.
fn comes(rule: Rule, operations: &[Operation], x: usize, next: usize) -> bool
    requires { x < length operations.now }
    ensures { result ≡ comes_at rule operations.now x next }
{
    next < operations.len()
        && has(rule.from, operations[x].kind)
        && operations[next].processor == operations[x].processor
}

/// Arcs that make the operations rise which a rule keeps in order: from each to the next one behind
/// it.
///
/// Errors: out of memory.
fn follow_arcs<A: Allocator + Copy>(
    alloc: A,
    rules: &[Rule],
    rule: Rule,
    operations: &[Operation],
    writes: &[usize],
    words: usize,
    edges: &mut Vec<Edge, A>,
) -> Result<(), AllocError>
    requires trace { IsMemoryTrace words operations.now writes.now }
    requires chained { IsChainedOn rule }
    requires rule { IsRule rules.now rule }
    requires arcs { AreArcs rules.now operations.now writes.now edges.old.items }
    ensures arcs { OnOk result (AreArcs rules.now operations.now writes.now edges.new.items) }
    ensures more { OnOk result (ExtendsEdges edges.old.items edges.new.items) }
    ensures rises { OnOk result (RisesByRule rule operations.now (length operations.now)
        edges.new.items) }
{
    let count = operations.len();
    let mut nexts = vec![in alloc; count; words]?;
    let mut x = count;
    'back: while x > 0 {
        x -= 1;
        let key = rule_key(rule, operations[x]);
        let next = nexts[key];
        let wanted = comes(rule, operations, x, next);
        push_if(edges, wanted, Edge { from: x, to: next })?;
        nexts[key] = later(has(rule.to, operations[x].kind), x, next);
    }
    Ok(())
}

/// Whether a rule's first kinds are among its second ones.
pub fn is_chained(rule: Rule) -> bool
    ensures { result ≡ is_chained rule }
{
    let from = rule.from;
    let to = rule.to;
    (!from.load || to.load)
        && ((!from.store || to.store) && ((!from.atomic || to.atomic) && (!from.fence || to.fence)))
}

/// Arcs for a rule of either shape.
///
/// Errors: out of memory.
pub fn either_arcs<A: Allocator + Copy>(
    alloc: A,
    rules: &[Rule],
    rule: Rule,
    operations: &[Operation],
    writes: &[usize],
    words: usize,
    edges: &mut Vec<Edge, A>,
) -> Result<(), AllocError>
    requires trace { IsMemoryTrace words operations.now writes.now }
    requires chained { IsChained rule ⊎ IsChainedOn rule }
    requires rule { IsRule rules.now rule }
    requires arcs { AreArcs rules.now operations.now writes.now edges.old.items }
    ensures arcs { OnOk result (AreArcs rules.now operations.now writes.now edges.new.items) }
    ensures more { OnOk result (ExtendsEdges edges.old.items edges.new.items) }
    ensures rises { OnOk result (RisesByRule rule operations.now (length operations.now)
        edges.new.items) }
{
    if is_chained(rule) {
        rule_arcs(alloc, rules, rule, operations, writes, words, edges)?;
        Ok(())
    } else {
        follow_arcs(alloc, rules, rule, operations, writes, words, edges)?;
        Ok(())
    }
}
