//! A verdict in time that is nearly linear in a usual trace: an order or a circle is guessed by a thin
//! graph, and checked.

ghost use Rattle.std.specs.Prelude.{◌≡◌, true, length, IfOk, IfSome};
ghost use Rattle.rising.specs.Found.{IsPermutationBelow};
ghost use Rattle.memory_models.specs.Models.{coherent};
ghost use Rattle.memory_models.specs.Trace.{IsMemoryTrace};
ghost use Rattle.weak_models.specs.Arcs.{AreOtherArcs};
ghost use Rattle.weak_models.specs.Equal.{HasOrder};
ghost use Rattle.weak_models.specs.Verdict.{IsOrderOf, IsRvwmoVerdict};

use crate::bounding::bounds_of;
use crate::bounds::Bounds;
use crate::circling::{are_within, operations_around};
use crate::keeping::{are_chained, are_dependencies_kept, are_kept};
use crate::notes::{Dependency, Note};
use crate::reasoned::steps_around;
use crate::thin::thin_nodes;
use crate::thinning::thin_edges;
use crate::turns::{are_turns, rise_along, turns_of};
use crate::verdict::RvwmoVerdict;
use memory_models::{Kinds, Operation, Rule, Verdict, judge};
use rising::{Edge, Found, rise};
use std::alloc::{AllocError, Allocator};

/// Whether a trace is coherent.
///
/// Errors: out of memory.
fn is_coherent<A: Allocator + Copy>(
    alloc: A,
    operations: &[Operation],
    writes: &[usize],
    words: usize,
) -> Result<bool, AllocError>
    requires { IsMemoryTrace words operations.now writes.now }
    ensures { IfOk result (λ is. is ≡ true → HasOrder coherent operations.now writes.now) }
{
    let all = Kinds {
        load: true,
        store: true,
        atomic: true,
        fence: false,
    };
    let rules = [Rule {
        from: all,
        to: all,
        same_word: true,
    }];
    match judge(alloc, &rules, operations, writes, words)? {
        Verdict::Ordered(_) => Ok(true),
        Verdict::Cycle(_) => Ok(false),
    }
}

/// Whether turns are an order of a coherent trace, by bounds that were guessed.
fn are_order(
    notes: &[Note],
    dependencies: &[Dependency],
    operations: &[Operation],
    writes: &[usize],
    words: usize,
    arcs: &[Edge],
    turns: &[usize],
    bounds: &[Bounds],
) -> bool
    requires trace { IsMemoryTrace words operations.now writes.now }
    requires arcs { AreOtherArcs notes.now operations.now writes.now arcs.now }
    requires coherent { HasOrder coherent operations.now writes.now }
    requires turns { IsPermutationBelow (length turns.now) turns.now }
    ensures { result ≡ true → IsOrderOf notes.now dependencies.now operations.now writes.now
        turns.now }
{
    if turns.len() != operations.len() || bounds.len() != operations.len() {
        return false;
    }
    if !rise_along(arcs, turns) {
        return false;
    }
    if !are_kept(notes, operations, writes, turns, bounds) {
        return false;
    }
    if !are_chained(notes, operations, turns, bounds) {
        return false;
    }
    are_dependencies_kept(dependencies, operations, turns, bounds)
}

/// Whether turns are an order of a trace, by bounds that are guessed. True is proved, and false says
/// nothing: what stands behind this guess is `judge_by_pairs`, which decides.
///
/// Errors: out of memory.
fn is_order<A: Allocator + Copy>(
    alloc: A,
    notes: &[Note],
    dependencies: &[Dependency],
    operations: &[Operation],
    writes: &[usize],
    words: usize,
    arcs: &[Edge],
    turns: &[usize],
) -> Result<bool, AllocError>
    requires trace { IsMemoryTrace words operations.now writes.now }
    requires arcs { AreOtherArcs notes.now operations.now writes.now arcs.now }
    ensures { IfOk result (λ is. is ≡ true
        → IsOrderOf notes.now dependencies.now operations.now writes.now turns.now) }
{
    if !is_coherent(alloc, operations, writes, words)? {
        return Ok(false);
    }
    if !are_turns(alloc, turns)? {
        return Ok(false);
    }
    let bounds = bounds_of(alloc, notes, dependencies, operations, turns)?;
    Ok(are_order(
        notes,
        dependencies,
        operations,
        writes,
        words,
        arcs,
        turns,
        &bounds,
    ))
}

/// The order of a trace by numbers of a thin graph's nodes, if it is one.
///
/// Errors: out of memory.
fn ordered<A: Allocator + Copy>(
    alloc: A,
    notes: &[Note],
    dependencies: &[Dependency],
    operations: &[Operation],
    writes: &[usize],
    words: usize,
    arcs: &[Edge],
    numbers: &[usize],
) -> Result<Option<RvwmoVerdict<A>>, AllocError>
    requires trace { IsMemoryTrace words operations.now writes.now }
    requires arcs { AreOtherArcs notes.now operations.now writes.now arcs.now }
    ensures { IfOk result (λ found. IfSome found
        (IsRvwmoVerdict notes.now dependencies.now operations.now writes.now)) }
{
    let turns = turns_of(alloc, numbers, operations.len())?;
    let explains = is_order(
        alloc,
        notes,
        dependencies,
        operations,
        writes,
        words,
        arcs,
        &turns,
    )?;
    if explains {
        return Ok(Some(RvwmoVerdict::Ordered(turns)));
    }
    Ok(None)
}

/// The steps of a circle of a trace, by some operations, if they lead around.
///
/// Errors: out of memory.
fn circled<A: Allocator + Copy>(
    alloc: A,
    notes: &[Note],
    dependencies: &[Dependency],
    operations: &[Operation],
    writes: &[usize],
    words: usize,
    around: &[usize],
) -> Result<Option<RvwmoVerdict<A>>, AllocError>
    requires { IsMemoryTrace words operations.now writes.now }
    ensures { IfOk result (λ found. IfSome found
        (IsRvwmoVerdict notes.now dependencies.now operations.now writes.now)) }
{
    match steps_around(alloc, notes, dependencies, operations, writes, around)? {
        Some(steps) => Ok(Some(RvwmoVerdict::Cycle(steps))),
        None => Ok(None),
    }
}

/// Judges a trace by edges of a thin graph of so many nodes: an order or a circle that is checked, or none.
///
/// Errors: out of memory.
fn judge_over<A: Allocator + Copy>(
    alloc: A,
    notes: &[Note],
    dependencies: &[Dependency],
    operations: &[Operation],
    writes: &[usize],
    words: usize,
    arcs: &[Edge],
    nodes: usize,
    edges: &[Edge],
) -> Result<Option<RvwmoVerdict<A>>, AllocError>
    requires trace { IsMemoryTrace words operations.now writes.now }
    requires arcs { AreOtherArcs notes.now operations.now writes.now arcs.now }
    ensures { IfOk result (λ found. IfSome found
        (IsRvwmoVerdict notes.now dependencies.now operations.now writes.now)) }
{
    if !are_within(nodes, edges) {
        return Ok(None);
    }
    match rise(alloc, nodes, edges)? {
        Found::Rising(numbers) => ordered(
            alloc,
            notes,
            dependencies,
            operations,
            writes,
            words,
            arcs,
            &numbers,
        ),
        Found::Cycle(cycle) => {
            let around = operations_around(alloc, operations.len(), nodes, edges, cycle)?;
            circled(
                alloc,
                notes,
                dependencies,
                operations,
                writes,
                words,
                &around,
            )
        }
    }
}

/// Judges a trace by a thin graph, with arcs for what isn't preserved program order: an order or a circle
/// that is checked, or none. What is answered is proved, and none says nothing: behind this guess
/// `judge_by_pairs` decides.
///
/// Errors: out of memory.
pub fn judge_quickly<A: Allocator + Copy>(
    alloc: A,
    notes: &[Note],
    dependencies: &[Dependency],
    operations: &[Operation],
    writes: &[usize],
    words: usize,
    arcs: &[Edge],
) -> Result<Option<RvwmoVerdict<A>>, AllocError>
    requires trace { IsMemoryTrace words operations.now writes.now }
    requires arcs { AreOtherArcs notes.now operations.now writes.now arcs.now }
    ensures { IfOk result (λ found. IfSome found
        (IsRvwmoVerdict notes.now dependencies.now operations.now writes.now)) }
{
    let Some(nodes) = thin_nodes(operations.len()) else {
        return Ok(None);
    };
    let edges = thin_edges(alloc, notes, dependencies, operations, writes, words, arcs)?;
    judge_over(
        alloc,
        notes,
        dependencies,
        operations,
        writes,
        words,
        arcs,
        nodes,
        &edges,
    )
}
