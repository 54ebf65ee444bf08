//! Steps around circles, each with its reason.

ghost use Rattle.std.specs.Prelude.{◌≡◌, ◌+◌, ◌<◌, ◌≤◌, length, slice_index, IfOk, IfSome};
ghost use Rattle.weak_models.specs.Arcs.{IsReason};
ghost use Rattle.weak_models.specs.Around.{IsStepAround, AreStepsAround};

use crate::notes::{Dependency, Note};
use crate::pairs::is_behind_pair;
use crate::preserved::rule_of;
use crate::verdict::{Reason, ReasonedStep};
use memory_models::{Operation, Why};
use std::alloc::{AllocError, Allocator};

/// Why one operation comes before another, if it does.
pub fn reason_between(
    notes: &[Note],
    dependencies: &[Dependency],
    operations: &[Operation],
    writes: &[usize],
    x: usize,
    y: usize,
) -> Option<Reason>
    requires x { x < length operations.now }
    requires y { y < length operations.now }
    ensures { IfSome result (IsReason notes.now dependencies.now operations.now writes.now x y) }
{
    if let Some(rule) = rule_of(notes, dependencies, operations, writes, x, y) {
        return Some(Reason::Preserved(rule));
    }
    if is_behind_pair(notes, operations, x, y) {
        return Some(Reason::Atomicity);
    }
    match memory_models::reason_of(&[], operations, writes, x, y) {
        Some(Why::Read) => Some(Reason::Read),
        Some(Why::Overwritten) => Some(Reason::Overwritten),
        Some(Why::Stale) => Some(Reason::Stale),
        Some(Why::Program) => None,
        None => None,
    }
}

/// What stands behind a place of a list around a circle.
fn next_around(around: &[usize], k: usize) -> usize
    requires { k < length around.now }
    ensures next { k + 1 < length around.now → result ≡ slice_index around.now (k + 1) }
    ensures last { length around.now ≤ k + 1 → result ≡ slice_index around.now 0 }
{
    if k + 1 < around.len() {
        around[k + 1]
    } else {
        around[0]
    }
}

/// The step from an operation to the next one around a circle, if that comes behind it for a reason.
fn step_around(
    notes: &[Note],
    dependencies: &[Dependency],
    operations: &[Operation],
    writes: &[usize],
    around: &[usize],
    k: usize,
) -> Option<ReasonedStep>
    requires { k < length around.now }
    ensures { IfSome result
        (IsStepAround notes.now dependencies.now operations.now writes.now around.now k) }
{
    let from = around[k];
    let to = next_around(around, k);
    if from >= operations.len() || to >= operations.len() {
        return None;
    }
    match reason_between(notes, dependencies, operations, writes, from, to) {
        Some(why) => Some(ReasonedStep { from, to, why }),
        None => None,
    }
}

/// The steps around some operations, if each comes before the next one for a reason, and the last before
/// the first.
///
/// Errors: out of memory.
pub fn steps_around<A: Allocator + Copy>(
    alloc: A,
    notes: &[Note],
    dependencies: &[Dependency],
    operations: &[Operation],
    writes: &[usize],
    around: &[usize],
) -> Result<Option<Vec<ReasonedStep, A>>, AllocError>
    ensures { IfOk result (λ found. IfSome found (λ steps. AreStepsAround notes.now
        dependencies.now operations.now writes.now around.now steps.items)) }
{
    if around.is_empty() {
        return Ok(None);
    }
    let mut steps = Vec::with_capacity(alloc, around.len())?;
    for k in 0..around.len() {
        let Some(step) = step_around(notes, dependencies, operations, writes, around, k) else {
            return Ok(None);
        };
        steps.push(step)?;
    }
    Ok(Some(steps))
}
