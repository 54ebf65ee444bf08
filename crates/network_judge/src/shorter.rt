//! Cycles of a graph, no longer than one that is known.

ghost use Rattle.std.specs.Prelude.{◌≤◌, length, IfOk};
ghost use Rattle.rising.specs.Search.{IsCircuit};

use rising::breadth::shorter_circle;
use rising::{Graph, Look};
use std::alloc::{AllocError, Allocator};

/// The nodes from which a shorter cycle is looked for: those of a cycle, and then all.
///
/// Errors: out of memory.
fn starts_of<A: Allocator + Copy>(
    alloc: A,
    nodes: usize,
    looks: &[Look],
) -> Result<Vec<usize, A>, AllocError> {
    let mut starts = Vec::new(alloc);
    for look in looks {
        starts.push(look.node)?;
    }
    put_nodes(&mut starts, nodes)?;
    Ok(starts)
}

/// Adds so many nodes.
///
/// Errors: out of memory.
fn put_nodes<A: Allocator>(starts: &mut Vec<usize, A>, nodes: usize) -> Result<(), AllocError> {
    for x in 0..nodes {
        starts.push(x)?;
    }
    Ok(())
}

/// A cycle of a graph with a cycle, which is no longer: the shortest that searches in breadth from its nodes,
/// and then from all, find; or the cycle itself.
///
/// Errors: out of memory.
pub fn shortened<A: Allocator + Copy, G: Graph>(
    alloc: A,
    graph: &G,
    looks: Vec<Look, A>,
) -> Result<Vec<Look, A>, AllocError>
    requires { IsCircuit (G.digraph graph.now) looks.items }
    ensures circuit { IfOk result (λ new. IsCircuit (G.digraph graph.now) new.items) }
    ensures shorter { IfOk result (λ new. length new.items ≤ length looks.items) }
{
    let starts = starts_of(alloc, graph.nodes(), &looks)?;
    match shorter_circle(alloc, graph, &starts, looks.len())? {
        Some(found) => Ok(found),
        None => Ok(looks),
    }
}
