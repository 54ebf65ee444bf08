//! A short cycle: breadth first from operations of the one that the judge found.

ghost use Rattle.std.specs.Prelude.{◌⊎◌, ◌+◌, ◌≤◌, ◌<◌, ℕ, IfOk, length};
ghost use Rattle.memory_models.specs.Trace.{IsMemoryTrace, rule_at};
ghost use Rattle.memory_models.specs.Arcs.{IsChained};
ghost use Rattle.memory_models.specs.Following.{IsChainedOn};
ghost use Rattle.memory_models.specs.Verdict.{AreAround};

use crate::edges::edges_of;
use memory_models::{Rule, Step, Why, is_cycle, reason_of};
use model_text::LogTrace;
use rising::Look;
use rising::breadth::shorter_circle;
use rising::chains::{Chains, chains_of};
use std::alloc::{AllocError, Allocator};
use weak_models::circling::are_within;

/// How many operations of the first cycle are begun with.
const MOST: usize = 64;

/// Whether the program's order is why one operation comes before another.
fn in_program<A: Allocator>(rules: &[Rule], trace: &LogTrace<A>, x: usize, y: usize) -> bool {
    let count = trace.operations.len();
    if x >= count || y >= count {
        return false;
    }
    match reason_of(rules, &trace.operations, &trace.writes, x, y) {
        Some(Why::Program) => true,
        _ => false,
    }
}

/// Whether two steps are one: the program's order is why, and is so from end to end.
fn are_one<A: Allocator>(rules: &[Rule], trace: &LogTrace<A>, first: Step, second: Step) -> bool {
    in_program(rules, trace, first.from, first.to)
        && in_program(rules, trace, second.from, second.to)
        && in_program(rules, trace, first.from, second.to)
}

/// Adds a step, or makes the last one longer.
fn push_step<A: Allocator>(
    rules: &[Rule],
    trace: &LogTrace<A>,
    steps: &mut Vec<Step, A>,
    step: Step,
) -> Result<(), AllocError> {
    let count = steps.len();
    if count > 0 && are_one(rules, trace, steps[count - 1], step) {
        let from = steps[count - 1].from;
        steps[count - 1] = Step { from, to: step.to };
        return Ok(());
    }
    steps.push(step)?;
    Ok(())
}

/// The steps around the operations of a circle, where steps in one program are one.
fn joined<A: Allocator + Copy>(
    alloc: A,
    rules: &[Rule],
    trace: &LogTrace<A>,
    circle: &[Look],
) -> Result<Vec<Step, A>, AllocError> {
    let mut steps = Vec::new(alloc);
    for k in 0..circle.len() {
        let next = if k + 1 < circle.len() { k + 1 } else { 0 };
        let step = Step {
            from: circle[k].node,
            to: circle[next].node,
        };
        push_step(rules, trace, &mut steps, step)?;
    }
    Ok(steps)
}

/// The shortest cycle through one of the first operations of a cycle; no step where none is found.
fn sought<A: Allocator + Copy>(
    alloc: A,
    rules: &[Rule],
    trace: &LogTrace<A>,
    chains: &Chains<A>,
    first: &[Step],
) -> Result<Vec<Step, A>, AllocError> {
    let mut best = Vec::new(alloc);
    let most = first.len().min(MOST);
    for k in 0..most {
        let start = [first[k].from];
        if let Some(circle) = shorter_circle(alloc, chains, &start, usize::MAX)? {
            let steps = joined(alloc, rules, trace, &circle)?;
            if best.is_empty() || steps.len() < best.len() {
                best = steps;
            }
        }
    }
    Ok(best)
}

/// A cycle that is no longer than one that was found, as short as the search through its operations
/// finds.
///
/// Errors: out of memory.
pub(crate) fn short_cycle<A: Allocator + Copy>(
    alloc: A,
    rules: &[Rule],
    trace: &LogTrace<A>,
    first: &[Step],
) -> Result<Vec<Step, A>, AllocError>
    requires trace { IsMemoryTrace (trace.now.openings + 1) trace.now.operations.items
        trace.now.writes.items }
    requires chained { (k : ℕ) → k < length rules.now
        → IsChained (rule_at rules.now k) ⊎ IsChainedOn (rule_at rules.now k) }
    requires around { AreAround rules.now trace.now.operations.items trace.now.writes.items
        first.now }
    ensures around { IfOk result (λ steps. AreAround rules.now trace.now.operations.items
        trace.now.writes.items steps.items) }
    ensures shorter { IfOk result (λ steps. length steps.items ≤ length first.now) }
{
    let edges = edges_of(alloc, rules, trace)?;
    let count = trace.operations.len();
    if !are_within(count, &edges) {
        return Vec::from_slice(alloc, first);
    }
    let chains = chains_of(alloc, count, &edges)?;
    let steps = sought(alloc, rules, trace, &chains, first)?;
    if steps.len() <= first.len() && is_cycle(rules, &trace.operations, &trace.writes, &steps) {
        return Ok(steps);
    }
    Vec::from_slice(alloc, first)
}
