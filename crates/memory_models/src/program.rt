//! Arcs for the program order that a model keeps.

ghost use Rattle.std.specs.Prelude.{◌≡◌, ◌+◌, ℕ, ◌<◌, ◌≤◌, ◌==◌, ◌&&◌, nat_lt, if◌then◌else◌};
ghost use Rattle.std.specs.Prelude.{length, OnOk};
ghost use Rattle.memory_models.specs.Trace.{IsMemoryTrace, operation_at, writes_rule};
ghost use Rattle.memory_models.specs.Arcs.{IsChained, IsRule, ExtendsEdges, AreArcs, RisesByRule};
ghost use Rattle.memory_models.specs.Arcs.{RisesOverStale, pushed_if, follows_at, is_stale_at};

use crate::kinds::{Kinds, Operation, Rule, has, is_load, rule_key};
use rising::Edge;
use std::alloc::{AllocError, Allocator};

/// The rule that every model has: writes of one processor on one word stay in their order.
pub fn writes_rule() -> Rule
    ensures { result ≡ writes_rule }
{
    let writes = Kinds {
        load: false,
        store: true,
        atomic: true,
        fence: false,
    };
    Rule {
        from: writes,
        to: writes,
        same_word: true,
    }
}

/// Puts an edge behind the others, if it is wanted.
///
/// Errors: out of memory.
pub fn push_if<A: Allocator + Copy>(
    edges: &mut Vec<Edge, A>,
    wanted: bool,
    edge: Edge,
) -> Result<(), AllocError>
    ensures { OnOk result (edges.new.items ≡ pushed_if wanted edge edges.old.items) }
{
    if wanted {
        edges.push(edge)?;
    }
    Ok(())
}

/// The later number if it is wanted, else the earlier.
pub fn later(wanted: bool, late: usize, early: usize) -> usize
    ensures { result ≡ (if wanted then late else early) }
{
    if wanted { late } else { early }
}

/// Whether a rule keeps an operation behind the last one before it that the rule speaks of.
fn follows(rule: Rule, operations: &[Operation], last: usize, y: usize) -> bool
    requires { y < length operations.now }
    ensures { result ≡ follows_at rule operations.now last y }
{
    last < y
        && has(rule.to, operations[y].kind)
        && operations[last].processor == operations[y].processor
}

/// Arcs that make the operations rise which a rule keeps in order: to each the last one before it.
///
/// Errors: out of memory.
pub fn rule_arcs<A: Allocator + Copy>(
    alloc: A,
    rules: &[Rule],
    rule: Rule,
    operations: &[Operation],
    writes: &[usize],
    words: usize,
    edges: &mut Vec<Edge, A>,
) -> Result<(), AllocError>
    requires trace { IsMemoryTrace words operations.now writes.now }
    requires chained { IsChained rule }
    requires rule { IsRule rules.now rule }
    requires arcs { AreArcs rules.now operations.now writes.now edges.old.items }
    ensures arcs { OnOk result (AreArcs rules.now operations.now writes.now edges.new.items) }
    ensures more { OnOk result (ExtendsEdges edges.old.items edges.new.items) }
    ensures rises { OnOk result (RisesByRule rule operations.now (length operations.now)
        edges.new.items) }
{
    let count = operations.len();
    let mut lasts = vec![in alloc; count; words]?;
    for y in 0..count {
        let key = rule_key(rule, operations[y]);
        let last = lasts[key];
        let wanted = follows(rule, operations, last, y);
        push_if(edges, wanted, Edge { from: last, to: y })?;
        lasts[key] = later(has(rule.from, operations[y].kind), y, last);
    }
    Ok(())
}

/// Whether a load read an older write than the last one of its processor before it.
fn is_stale(operations: &[Operation], last: usize, y: usize) -> bool
    requires { y < length operations.now }
    ensures { result ≡ is_stale_at operations.now last y }
{
    last < y
        && is_load(operations[y].kind)
        && operations[last].processor == operations[y].processor
        && operations[y].place < operations[last].place
}

/// Arcs onto loads that read an older write than their processor had made itself.
///
/// Errors: out of memory.
pub fn stale_arcs<A: Allocator + Copy>(
    alloc: A,
    rules: &[Rule],
    operations: &[Operation],
    writes: &[usize],
    words: usize,
    edges: &mut Vec<Edge, A>,
) -> Result<(), AllocError>
    requires trace { IsMemoryTrace words operations.now writes.now }
    requires arcs { AreArcs rules.now operations.now writes.now edges.old.items }
    ensures arcs { OnOk result (AreArcs rules.now operations.now writes.now edges.new.items) }
    ensures more { OnOk result (ExtendsEdges edges.old.items edges.new.items) }
    ensures rises { OnOk result (RisesOverStale operations.now (length operations.now)
        edges.new.items) }
{
    let rule = writes_rule();
    let count = operations.len();
    let mut lasts = vec![in alloc; count; words]?;
    for y in 0..count {
        let key = rule_key(rule, operations[y]);
        let last = lasts[key];
        let wanted = is_stale(operations, last, y);
        push_if(edges, wanted, Edge { from: last, to: y })?;
        lasts[key] = later(has(rule.from, operations[y].kind), y, last);
    }
    Ok(())
}
