//! Arcs for preserved program order.

ghost use Rattle.std.specs.Prelude.{◌≡◌, ◌<◌, true, false, length, OnOk};
ghost use Rattle.memory_models.specs.Arcs.{ExtendsEdges};
ghost use Rattle.weak_models.specs.Preserved.{IsPreserved};
ghost use Rattle.weak_models.specs.Arcs.{AreRvwmoArcs, RisesOnto, RisesByProgram};

use crate::notes::{Dependency, Note};
use crate::preserved::rule_of;
use memory_models::Operation;
use memory_models::program::push_if;
use rising::Edge;
use std::alloc::{AllocError, Allocator};

/// Whether preserved program order keeps two operations in their order.
fn is_preserved(
    notes: &[Note],
    dependencies: &[Dependency],
    operations: &[Operation],
    writes: &[usize],
    x: usize,
    y: usize,
) -> bool
    requires x { x < length operations.now }
    requires y { y < length operations.now }
    ensures yes { result ≡ true
        → IsPreserved notes.now dependencies.now operations.now writes.now x y }
    ensures no { result ≡ false
        → IsPreserved notes.now dependencies.now operations.now writes.now x y → ⊥ }
{
    match rule_of(notes, dependencies, operations, writes, x, y) {
        Some(_) => true,
        None => false,
    }
}

/// Arcs onto an operation from those that preserved program order keeps before it.
///
/// Errors: out of memory.
fn arcs_onto<A: Allocator + Copy>(
    notes: &[Note],
    dependencies: &[Dependency],
    operations: &[Operation],
    writes: &[usize],
    y: usize,
    edges: &mut Vec<Edge, A>,
) -> Result<(), AllocError>
    requires y { y < length operations.now }
    requires arcs { AreRvwmoArcs notes.now dependencies.now operations.now writes.now
        edges.old.items }
    ensures arcs { OnOk result (AreRvwmoArcs notes.now dependencies.now operations.now writes.now
        edges.new.items) }
    ensures more { OnOk result (ExtendsEdges edges.old.items edges.new.items) }
    ensures rises { OnOk result (RisesOnto notes.now dependencies.now operations.now writes.now y y
        edges.new.items) }
{
    for x in 0..y {
        let kept = is_preserved(notes, dependencies, operations, writes, x, y);
        push_if(edges, kept, Edge { from: x, to: y })?;
    }
    Ok(())
}

/// Arcs between all operations that preserved program order keeps in order.
///
/// Errors: out of memory.
pub fn program_arcs<A: Allocator + Copy>(
    notes: &[Note],
    dependencies: &[Dependency],
    operations: &[Operation],
    writes: &[usize],
    edges: &mut Vec<Edge, A>,
) -> Result<(), AllocError>
    requires arcs { AreRvwmoArcs notes.now dependencies.now operations.now writes.now
        edges.old.items }
    ensures arcs { OnOk result (AreRvwmoArcs notes.now dependencies.now operations.now writes.now
        edges.new.items) }
    ensures more { OnOk result (ExtendsEdges edges.old.items edges.new.items) }
    ensures rises { OnOk result (RisesByProgram notes.now dependencies.now operations.now writes.now
        (length operations.now) edges.new.items) }
{
    for y in 0..operations.len() {
        arcs_onto(notes, dependencies, operations, writes, y, edges)?;
    }
    Ok(())
}
