//! The edges of a trace by the rules of a model.

ghost use Rattle.std.specs.Prelude.{◌⊎◌, ◌+◌, ◌<◌, ℕ, length};
ghost use Rattle.memory_models.specs.Trace.{IsMemoryTrace, rule_at};
ghost use Rattle.memory_models.specs.Arcs.{IsChained};
ghost use Rattle.memory_models.specs.Following.{IsChainedOn};

use memory_models::Rule;
use memory_models::program::stale_arcs;
use memory_models::ruling::program_arcs;
use memory_models::words::word_arcs;
use model_text::LogTrace;
use rising::Edge;
use std::alloc::{AllocError, Allocator};

/// The edges of a trace by the rules of a model.
pub(crate) fn edges_of<A: Allocator + Copy>(
    alloc: A,
    rules: &[Rule],
    trace: &LogTrace<A>,
) -> Result<Vec<Edge, A>, AllocError>
    requires trace { IsMemoryTrace (trace.now.openings + 1) trace.now.operations.items
        trace.now.writes.items }
    requires chained { (k : ℕ) → k < length rules.now
        → IsChained (rule_at rules.now k) ⊎ IsChainedOn (rule_at rules.now k) }
{
    let mut edges = Vec::new(alloc);
    let Some(words) = trace.openings.checked_add(1) else {
        return Ok(edges);
    };
    program_arcs(
        alloc,
        rules,
        &trace.operations,
        &trace.writes,
        words,
        &mut edges,
    )?;
    stale_arcs(
        alloc,
        rules,
        &trace.operations,
        &trace.writes,
        words,
        &mut edges,
    )?;
    word_arcs(&trace.operations, &trace.writes, words, rules, &mut edges)?;
    Ok(edges)
}
