//! Arcs for what loads read, and for each word's order of writes.

ghost use Rattle.std.specs.Prelude.{◌≡◌, ℕ, ◌<◌, true, length, OnOk};
ghost use Rattle.memory_models.specs.Trace.{IsMemoryTrace, next_write, source_at};
ghost use Rattle.memory_models.specs.Arcs.{ExtendsEdges, AreArcs, RisesByWords};
ghost use Rattle.memory_models.specs.Arcs.{reads_at, is_overwritten_at};

use crate::kinds::{Operation, is_load, uses_word};
use crate::program::push_if;
use rising::Edge;
use std::alloc::{AllocError, Allocator};

/// The write that an operation's place names.
fn source(operations: &[Operation], writes: &[usize], y: usize) -> usize
    requires { y < length operations.now }
    ensures { result ≡ source_at operations.now writes.now y }
{
    let place = operations[y].place;
    if place < writes.len() {
        writes[place]
    } else {
        0
    }
}

/// The write behind that one.
fn next(operations: &[Operation], writes: &[usize], y: usize) -> usize
    requires { y < length operations.now }
    ensures { result ≡ next_write operations.now writes.now y }
{
    let place = operations[y].place;
    if place < writes.len() && place + 1 < writes.len() {
        writes[place + 1]
    } else {
        0
    }
}

/// Whether a load read what isn't of its processor before it.
fn reads(operations: &[Operation], source: usize, y: usize) -> bool
    requires y { y < length operations.now }
    requires source { source < length operations.now }
    ensures { result ≡ reads_at operations.now source y }
{
    is_load(operations[y].kind)
        && !(operations[source].processor == operations[y].processor && source < y)
}

/// Whether a write on the same word follows.
fn is_overwritten(operations: &[Operation], writes: &[usize], next: usize, y: usize) -> bool
    requires y { y < length operations.now }
    requires next { next < length operations.now }
    ensures { result ≡ is_overwritten_at operations.now writes.now next y }
{
    let place = operations[y].place;
    uses_word(operations[y].kind)
        && place < writes.len()
        && place + 1 < writes.len()
        && operations[next].word == operations[y].word
}

/// Arcs from what each load read, if that isn't its processor's own before it, and to the write
/// that follows.
///
/// Errors: out of memory.
pub fn word_arcs<A: Allocator + Copy>(
    operations: &[Operation],
    writes: &[usize],
    words: usize,
    rules: &[crate::kinds::Rule],
    edges: &mut Vec<Edge, A>,
) -> Result<(), AllocError>
    requires trace { IsMemoryTrace words operations.now writes.now }
    requires arcs { AreArcs rules.now operations.now writes.now edges.old.items }
    ensures arcs { OnOk result (AreArcs rules.now operations.now writes.now edges.new.items) }
    ensures more { OnOk result (ExtendsEdges edges.old.items edges.new.items) }
    ensures rises { OnOk result (RisesByWords operations.now writes.now (length operations.now)
        edges.new.items) }
{
    for y in 0..operations.len() {
        let before = source(operations, writes, y);
        push_if(
            edges,
            reads(operations, before, y),
            Edge {
                from: before,
                to: y,
            },
        )?;
        let behind = next(operations, writes, y);
        push_if(
            edges,
            is_overwritten(operations, writes, behind, y),
            Edge {
                from: y,
                to: behind,
            },
        )?;
    }
    Ok(())
}
