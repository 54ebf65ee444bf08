//! Pairs of a load reserved and a store conditional.

ghost use Rattle.std.specs.Prelude.{◌≡◌, ◌<◌, ℕ, true, false, length, MatchOption, OnOk};
ghost use Rattle.memory_models.specs.Trace.{IsMemoryTrace, operation_at};
ghost use Rattle.memory_models.specs.Arcs.{ExtendsEdges};
ghost use Rattle.weak_models.specs.Order.{IsBehindPair};
ghost use Rattle.weak_models.specs.Arcs.{IsFirstBehind, AreRvwmoArcs, RisesOverPairs, pushed_to};

use crate::notes::{Dependency, Note, note_of};
use memory_models::Operation;
use memory_models::kinds::{is_write, uses_word};
use rising::Edge;
use std::alloc::{AllocError, Allocator};

/// The place of an operation. Beyond the list, 0.
fn place_of(operations: &[Operation], x: usize) -> usize
    ensures { result ≡ (operation_at operations.now x).place }
{
    if x < operations.len() {
        operations[x].place
    } else {
        0
    }
}

/// Whether a write of another processor stands behind what a store conditional's load reserved read.
pub fn is_behind_pair(notes: &[Note], operations: &[Operation], w: usize, s: usize) -> bool
    requires w { w < length operations.now }
    requires s { s < length operations.now }
    ensures yes { result ≡ true → IsBehindPair notes.now operations.now w s }
    ensures no { result ≡ false → IsBehindPair notes.now operations.now w s → ⊥ }
{
    let write = operations[s];
    let conditional = operations[w];
    if !is_write(write.kind) || !uses_word(conditional.kind) || write.word != conditional.word {
        return false;
    }
    if write.processor == conditional.processor {
        return false;
    }
    match note_of(notes, w).pair {
        Some(reserved) => place_of(operations, reserved) < write.place,
        None => false,
    }
}

/// The first write in the order of writes that the atomicity axiom keeps behind an operation.
fn first_behind(
    notes: &[Note],
    operations: &[Operation],
    writes: &[usize],
    words: usize,
    w: usize,
) -> Option<usize>
    requires trace { IsMemoryTrace words operations.now writes.now }
    requires w { w < length operations.now }
    ensures { MatchOption result
        ((z : ℕ) → z < length operations.now → IsBehindPair notes.now operations.now w z → ⊥)
        (IsFirstBehind notes.now operations.now w) }
{
    let reserved = note_of(notes, w).pair?;
    let word = operations[w].word;
    for p in place_of(operations, reserved)..writes.len() {
        if operations[writes[p]].word > word {
            return None;
        }
        if is_behind_pair(notes, operations, w, writes[p]) {
            return Some(writes[p]);
        }
    }
    None
}

/// Puts an edge behind the others, if there is where it leads to.
///
/// Errors: out of memory.
fn push_to<A: Allocator + Copy>(
    edges: &mut Vec<Edge, A>,
    w: usize,
    found: Option<usize>,
) -> Result<(), AllocError>
    ensures { OnOk result (edges.new.items ≡ pushed_to w found edges.old.items) }
{
    if let Some(s) = found {
        edges.push(Edge { from: w, to: s })?;
    }
    Ok(())
}

/// Arcs from each store conditional to the first write that the atomicity axiom keeps behind it.
///
/// Errors: out of memory.
pub fn pair_arcs<A: Allocator + Copy>(
    notes: &[Note],
    dependencies: &[Dependency],
    operations: &[Operation],
    writes: &[usize],
    words: usize,
    edges: &mut Vec<Edge, A>,
) -> Result<(), AllocError>
    requires trace { IsMemoryTrace words operations.now writes.now }
    requires arcs { AreRvwmoArcs notes.now dependencies.now operations.now writes.now
        edges.old.items }
    ensures arcs { OnOk result (AreRvwmoArcs notes.now dependencies.now operations.now writes.now
        edges.new.items) }
    ensures more { OnOk result (ExtendsEdges edges.old.items edges.new.items) }
    ensures rises { OnOk result (RisesOverPairs notes.now operations.now (length operations.now)
        edges.new.items) }
{
    for w in 0..operations.len() {
        let found = first_behind(notes, operations, writes, words, w);
        push_to(edges, w, found)?;
    }
    Ok(())
}
