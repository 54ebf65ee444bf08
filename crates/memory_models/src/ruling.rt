//! Arcs for all rules of a model.

ghost use Rattle.std.specs.Prelude.{◌≡◌, ◌⊎◌, ◌<◌, ℕ, length, OnOk};
ghost use Rattle.memory_models.specs.Trace.{IsMemoryTrace, rule_at, writes_rule};
ghost use Rattle.memory_models.specs.Arcs.{IsChained, ExtendsEdges, AreArcs, RisesByRule};
ghost use Rattle.memory_models.specs.Arcs.{RisesByRules};
ghost use Rattle.memory_models.specs.Following.{IsChainedOn};

use crate::following::either_arcs;
use crate::kinds::{Operation, Rule};
use crate::program::{rule_arcs, writes_rule};
use rising::Edge;
use std::alloc::{AllocError, Allocator};

/// Arcs for all rules of a model, and for the writes on one word.
///
/// Errors: out of memory.
pub fn program_arcs<A: Allocator + Copy>(
    alloc: A,
    rules: &[Rule],
    operations: &[Operation],
    writes: &[usize],
    words: usize,
    edges: &mut Vec<Edge, A>,
) -> Result<(), AllocError>
    requires trace { IsMemoryTrace words operations.now writes.now }
    requires chained { (k : ℕ) → k < length rules.now
        → IsChained (rule_at rules.now k) ⊎ IsChainedOn (rule_at rules.now k) }
    requires arcs { AreArcs rules.now operations.now writes.now edges.old.items }
    ensures arcs { OnOk result (AreArcs rules.now operations.now writes.now edges.new.items) }
    ensures more { OnOk result (ExtendsEdges edges.old.items edges.new.items) }
    ensures rules { OnOk result (RisesByRules rules.now (length rules.now) operations.now
        edges.new.items) }
    ensures writes { OnOk result (RisesByRule writes_rule operations.now (length operations.now)
        edges.new.items) }
{
    for k in 0..rules.len() {
        either_arcs(alloc, rules, rules[k], operations, writes, words, edges)?;
    }
    rule_arcs(
        alloc,
        rules,
        writes_rule(),
        operations,
        writes,
        words,
        edges,
    )?;
    Ok(())
}
