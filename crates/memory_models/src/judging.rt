//! The judgement of a trace.

ghost use Rattle.std.specs.Prelude.{◌≡◌, ◌⊎◌, ℕ, ◌<◌, length, slice_index, IfOk};
ghost use Rattle.memory_models.specs.Trace.{IsMemoryTrace, rule_at};
ghost use Rattle.memory_models.specs.Arcs.{IsChained, AreSteps};
ghost use Rattle.memory_models.specs.Following.{IsChainedOn};
ghost use Rattle.memory_models.specs.Verdict.{IsModelVerdict};

use crate::kinds::{Operation, Rule, Step, Verdict};
use crate::program::stale_arcs;
use crate::ruling::program_arcs;
use crate::words::word_arcs;
use rising::{Edge, Found, rise};
use std::alloc::{AllocError, Allocator};

/// The steps of a cycle of edges.
///
/// Errors: out of memory.
fn steps_of<A: Allocator + Copy>(
    alloc: A,
    edges: &[Edge],
    cycle: &[usize],
) -> Result<Vec<Step, A>, AllocError>
    requires { (k : ℕ) → k < length cycle.now → slice_index cycle.now k < length edges.now }
    ensures { IfOk result (λ steps. AreSteps edges.now cycle.now steps.items) }
{
    let mut steps = Vec::with_capacity(alloc, cycle.len())?;
    for k in 0..cycle.len() {
        let edge = edges[cycle[k]];
        steps.push(Step {
            from: edge.from,
            to: edge.to,
        })?;
    }
    Ok(steps)
}

/// Judges a trace by the rules of a memory model, in time that is linear in it for each rule: the
/// turn of each operation in one order that explains the trace, or operations that come each before
/// the next around a circle, and then there is no such order.
///
/// Errors: out of memory, and no other.
pub fn judge<A: Allocator + Copy>(
    alloc: A,
    rules: &[Rule],
    operations: &[Operation],
    writes: &[usize],
    words: usize,
) -> Result<Verdict<A>, AllocError>
    requires trace { IsMemoryTrace words operations.now writes.now }
    requires chained { (k : ℕ) → k < length rules.now
        → IsChained (rule_at rules.now k) ⊎ IsChainedOn (rule_at rules.now k) }
    ensures { IfOk result (IsModelVerdict rules.now operations.now writes.now) }
{
    let mut edges = Vec::new(alloc);
    program_arcs(alloc, rules, operations, writes, words, &mut edges)?;
    stale_arcs(alloc, rules, operations, writes, words, &mut edges)?;
    word_arcs(operations, writes, words, rules, &mut edges)?;
    match rise(alloc, operations.len(), &edges)? {
        Found::Rising(turns) => Ok(Verdict::Ordered(turns)),
        Found::Cycle(cycle) => Ok(Verdict::Cycle(steps_of(alloc, &edges, &cycle)?)),
    }
}
