//! A shortest cycle among some operations: in breadth from each of them, over all reasons.

ghost use Rattle.std.specs.Prelude.{◌≤◌, length, IfOk, IfSome};
ghost use Rattle.weak_models.specs.Verdict.{AreAround};

use crate::circling::circle_over;
use crate::lists::{at, numbers_below, set_at};
use crate::notes::{Dependency, Note};
use crate::reasoned::{reason_between, steps_around};
use crate::verdict::ReasonedStep;
use memory_models::Operation;
use memory_models::program::push_if;
use rising::Edge;
use std::alloc::{AllocError, Allocator};

/// Among how many operations at most a shortest cycle is sought.
pub const MOST: usize = 256;

/// Whether the operation at a place of a list comes before that at another for a reason.
fn comes_before(
    notes: &[Note],
    dependencies: &[Dependency],
    operations: &[Operation],
    writes: &[usize],
    among: &[usize],
    edge: Edge,
) -> bool {
    let x = at(among, edge.from);
    let y = at(among, edge.to);
    x < operations.len()
        && y < operations.len()
        && reason_between(notes, dependencies, operations, writes, x, y).is_some()
}

/// An edge for each two places of a list where the one operation comes before the other for a reason.
///
/// Errors: out of memory.
fn edges_among<A: Allocator + Copy>(
    alloc: A,
    notes: &[Note],
    dependencies: &[Dependency],
    operations: &[Operation],
    writes: &[usize],
    among: &[usize],
) -> Result<Vec<Edge, A>, AllocError> {
    let mut edges = Vec::new(alloc);
    for from in 0..among.len() {
        for to in 0..among.len() {
            let edge = Edge { from, to };
            let comes = comes_before(notes, dependencies, operations, writes, among, edge);
            push_if(&mut edges, comes, edge)?;
        }
    }
    Ok(edges)
}

/// How many operations are looked at, where so many are judged and a cycle of so many is found: all where
/// they are few, else those of the cycle.
fn size_of(count: usize, steps: usize) -> usize {
    if count <= MOST {
        count
    } else if steps <= MOST {
        steps
    } else {
        0
    }
}

/// Puts the operations that steps lead from into a list.
fn set_from(steps: &[ReasonedStep], list: &mut [usize]) {
    for k in 0..steps.len() {
        set_at(list, k, steps[k].from);
    }
}

/// The operations that are looked at: all where they are few, else those of a cycle.
///
/// Errors: out of memory.
fn looked_at<A: Allocator + Copy>(
    alloc: A,
    count: usize,
    first: &[ReasonedStep],
) -> Result<Vec<usize, A>, AllocError> {
    let mut among = numbers_below(alloc, size_of(count, first.len()))?;
    if count > MOST {
        set_from(first, &mut among);
    }
    Ok(among)
}

/// Puts in place of each place of a list what stands there.
fn set_named(among: &[usize], places: &mut [usize]) {
    for k in 0..places.len() {
        places[k] = at(among, places[k]);
    }
}

/// A circle of fewer than so many of some operations; none where none is found.
///
/// Errors: out of memory.
fn circle_among<A: Allocator + Copy>(
    alloc: A,
    notes: &[Note],
    dependencies: &[Dependency],
    operations: &[Operation],
    writes: &[usize],
    among: &[usize],
    size: usize,
) -> Result<Vec<usize, A>, AllocError> {
    let edges = edges_among(alloc, notes, dependencies, operations, writes, among)?;
    let starts = numbers_below(alloc, among.len())?;
    let mut circle = circle_over(alloc, among.len(), &edges, &starts, size)?;
    set_named(among, &mut circle);
    Ok(circle)
}

/// A shorter cycle of the operations that are looked at, if one is found.
///
/// Errors: out of memory.
fn shorter<A: Allocator + Copy>(
    alloc: A,
    notes: &[Note],
    dependencies: &[Dependency],
    operations: &[Operation],
    writes: &[usize],
    first: &[ReasonedStep],
) -> Result<Option<Vec<ReasonedStep, A>>, AllocError>
    ensures { IfOk result (λ found. IfSome found (λ steps. AreAround notes.now
        dependencies.now operations.now writes.now steps.items)) }
{
    let among = looked_at(alloc, operations.len(), first)?;
    let size = first.len();
    let around = circle_among(alloc, notes, dependencies, operations, writes, &among, size)?;
    match steps_around(alloc, notes, dependencies, operations, writes, &around)? {
        Some(steps) => Ok(Some(steps)),
        None => Ok(None),
    }
}

/// A shortest cycle of up to 256 operations, or of more of those of a cycle that was found, if that has
/// up to 256 steps. It is no longer than the one that was found; that none is shorter is tested.
///
/// Errors: out of memory.
pub fn shortest<A: Allocator + Copy>(
    alloc: A,
    notes: &[Note],
    dependencies: &[Dependency],
    operations: &[Operation],
    writes: &[usize],
    first: Vec<ReasonedStep, A>,
) -> Result<Vec<ReasonedStep, A>, AllocError>
    requires { AreAround notes.now dependencies.now operations.now writes.now first.items }
    ensures around { IfOk result (λ steps. AreAround notes.now dependencies.now operations.now
        writes.now steps.items) }
    ensures shorter { IfOk result (λ steps. length steps.items ≤ length first.items) }
{
    match shorter(alloc, notes, dependencies, operations, writes, &first)? {
        Some(steps) if steps.len() <= first.len() => Ok(steps),
        _ => Ok(first),
    }
}
