//! The judgement of a trace by RISC-V's memory model.

ghost use Rattle.std.specs.Prelude.{◌≡◌, ◌<◌, ℕ, length, slice_index, IfOk};
ghost use Rattle.memory_models.specs.Trace.{IsMemoryTrace};
ghost use Rattle.weak_models.specs.Arcs.{AreWordArcs, IsRvwmoArc, IsReason, AreRvwmoArcs, AreReasoned};
ghost use Rattle.weak_models.specs.Arcs.{AreOtherArcs};
ghost use Rattle.weak_models.specs.Verdict.{IsRvwmoVerdict};

use crate::arcs::program_arcs;
use crate::notes::{Dependency, Note};
use crate::pairs::{is_behind_pair, pair_arcs};
use crate::preserved::rule_of;
use crate::quick::judge_quickly;
use crate::shortest::shortest;
use crate::verdict::{PreservedRule, Reason, ReasonedStep, RvwmoVerdict};
use memory_models::program::{rule_arcs, stale_arcs, writes_rule};
use memory_models::words::word_arcs;
use memory_models::{Operation, Why, why_of};
use rising::{Edge, Found, rise};
use std::alloc::{AllocError, Allocator};

/// Arcs for what loads read and for each word's order of writes.
///
/// Errors: out of memory.
fn arcs_of_words<A: Allocator + Copy>(
    alloc: A,
    operations: &[Operation],
    writes: &[usize],
    words: usize,
) -> Result<Vec<Edge, A>, AllocError>
    requires { IsMemoryTrace words operations.now writes.now }
    ensures { IfOk result (λ edges. AreWordArcs operations.now writes.now edges.items) }
{
    let mut edges = Vec::new(alloc);
    let rule = writes_rule();
    rule_arcs(alloc, &[], rule, operations, writes, words, &mut edges)?;
    stale_arcs(alloc, &[], operations, writes, words, &mut edges)?;
    word_arcs(operations, writes, words, &[], &mut edges)?;
    Ok(edges)
}

/// Why one operation of a cycle comes before another.
fn reason_of(
    notes: &[Note],
    dependencies: &[Dependency],
    operations: &[Operation],
    writes: &[usize],
    x: usize,
    y: usize,
) -> Reason
    requires { IsRvwmoArc notes.now dependencies.now operations.now writes.now x y }
    ensures { IsReason notes.now dependencies.now operations.now writes.now x y result }
{
    if let Some(rule) = rule_of(notes, dependencies, operations, writes, x, y) {
        return Reason::Preserved(rule);
    }
    if is_behind_pair(notes, operations, x, y) {
        return Reason::Atomicity;
    }
    match why_of(&[], operations, writes, x, y) {
        Why::Program => Reason::Preserved(PreservedRule::SameWordStore),
        Why::Read => Reason::Read,
        Why::Overwritten => Reason::Overwritten,
        Why::Stale => Reason::Stale,
    }
}

/// The steps of a cycle of edges, each with its reason.
///
/// Errors: out of memory.
fn steps_of<A: Allocator + Copy>(
    alloc: A,
    notes: &[Note],
    dependencies: &[Dependency],
    operations: &[Operation],
    writes: &[usize],
    edges: &[Edge],
    cycle: &[usize],
) -> Result<Vec<ReasonedStep, A>, AllocError>
    requires inside { (k : ℕ) → k < length cycle.now
        → slice_index cycle.now k < length edges.now }
    requires arcs { AreRvwmoArcs notes.now dependencies.now operations.now writes.now edges.now }
    ensures { IfOk result (λ steps. AreReasoned notes.now dependencies.now operations.now writes.now
        edges.now cycle.now steps.items) }
{
    let mut steps = Vec::with_capacity(alloc, cycle.len())?;
    for k in 0..cycle.len() {
        let Edge { from, to } = edges[cycle[k]];
        let why = reason_of(notes, dependencies, operations, writes, from, to);
        steps.push(ReasonedStep { from, to, why })?;
    }
    Ok(steps)
}

/// Arcs for all that isn't preserved program order.
///
/// Errors: out of memory.
fn other_arcs<A: Allocator + Copy>(
    alloc: A,
    notes: &[Note],
    dependencies: &[Dependency],
    operations: &[Operation],
    writes: &[usize],
    words: usize,
) -> Result<Vec<Edge, A>, AllocError>
    requires { IsMemoryTrace words operations.now writes.now }
    ensures arcs { IfOk result (λ edges. AreRvwmoArcs notes.now dependencies.now operations.now
        writes.now edges.items) }
    ensures other { IfOk result (λ edges. AreOtherArcs notes.now operations.now writes.now
        edges.items) }
{
    let mut edges = arcs_of_words(alloc, operations, writes, words)?;
    pair_arcs(notes, dependencies, operations, writes, words, &mut edges)?;
    Ok(edges)
}

/// Judges a trace by all pairs of its operations, and arcs for what isn't preserved program order: the
/// turn of each operation, or the steps of a cycle.
///
/// Errors: out of memory.
fn judge_by_pairs<A: Allocator + Copy>(
    alloc: A,
    notes: &[Note],
    dependencies: &[Dependency],
    operations: &[Operation],
    writes: &[usize],
    words: usize,
    arcs: Vec<Edge, A>,
) -> Result<RvwmoVerdict<A>, AllocError>
    requires trace { IsMemoryTrace words operations.now writes.now }
    requires arcs { AreRvwmoArcs notes.now dependencies.now operations.now writes.now arcs.items }
    requires other { AreOtherArcs notes.now operations.now writes.now arcs.items }
    ensures { IfOk result (IsRvwmoVerdict notes.now dependencies.now operations.now writes.now) }
{
    let mut edges = arcs;
    program_arcs(notes, dependencies, operations, writes, &mut edges)?;
    match rise(alloc, operations.len(), &edges)? {
        Found::Rising(turns) => Ok(RvwmoVerdict::Ordered(turns)),
        Found::Cycle(cycle) => Ok(RvwmoVerdict::Cycle(steps_of(
            alloc,
            notes,
            dependencies,
            operations,
            writes,
            &edges,
            &cycle,
        )?)),
    }
}

/// Judges a trace by a thin graph, if what that guesses is right, and else by all pairs.
///
/// Errors: out of memory.
fn judge_any<A: Allocator + Copy>(
    alloc: A,
    notes: &[Note],
    dependencies: &[Dependency],
    operations: &[Operation],
    writes: &[usize],
    words: usize,
) -> Result<RvwmoVerdict<A>, AllocError>
    requires { IsMemoryTrace words operations.now writes.now }
    ensures { IfOk result (IsRvwmoVerdict notes.now dependencies.now operations.now writes.now) }
{
    let arcs = other_arcs(alloc, notes, dependencies, operations, writes, words)?;
    match judge_quickly(alloc, notes, dependencies, operations, writes, words, &arcs)? {
        Some(verdict) => Ok(verdict),
        None => judge_by_pairs(alloc, notes, dependencies, operations, writes, words, arcs),
    }
}

/// Judges a trace by RISC-V's memory model: the turn of each operation in one order that explains it,
/// or operations that come each before the next around a circle, and then there is no such order.
/// A trace whose dependencies each lead on in one program is judged in time that is nearly linear in it.
/// The circle is one that `shortest` finds.
///
/// Errors: out of memory, and no other.
pub fn judge_rvwmo<A: Allocator + Copy>(
    alloc: A,
    notes: &[Note],
    dependencies: &[Dependency],
    operations: &[Operation],
    writes: &[usize],
    words: usize,
) -> Result<RvwmoVerdict<A>, AllocError>
    requires { IsMemoryTrace words operations.now writes.now }
    ensures { IfOk result (IsRvwmoVerdict notes.now dependencies.now operations.now writes.now) }
{
    match judge_any(alloc, notes, dependencies, operations, writes, words)? {
        RvwmoVerdict::Ordered(turns) => Ok(RvwmoVerdict::Ordered(turns)),
        RvwmoVerdict::Cycle(first) => Ok(RvwmoVerdict::Cycle(shortest(
            alloc,
            notes,
            dependencies,
            operations,
            writes,
            first,
        )?)),
    }
}
