//! Short circles of a graph: a guess, which is checked.

ghost use Rattle.std.specs.Prelude.{◌≡◌, true};
ghost use Rattle.rising.specs.Graph.{EdgesAreWithin};

use crate::lists::{keep_below, set_at};
use rising::breadth::shorter_circle;
use rising::chains::chains_of;
use rising::{Edge, Look};
use std::alloc::{AllocError, Allocator};

/// Whether each edge leads from a node to a node.
pub fn are_within(nodes: usize, edges: &[Edge]) -> bool
    ensures { result ≡ true → EdgesAreWithin nodes edges.now }
{
    for k in 0..edges.len() {
        let Edge { from, to } = edges[k];
        if from >= nodes || to >= nodes {
            return false;
        }
    }
    true
}

/// Puts the nodes of a circle into a list of the same length.
fn set_nodes(looks: &[Look], nodes: &mut [usize]) {
    for k in 0..looks.len() {
        set_at(nodes, k, looks[k].node);
    }
}

/// The nodes of a circle.
///
/// Errors: out of memory.
fn nodes_of<A: Allocator + Copy>(alloc: A, looks: &[Look]) -> Result<Vec<usize, A>, AllocError> {
    let mut nodes = vec![in alloc; 0; looks.len()]?;
    set_nodes(looks, &mut nodes);
    Ok(nodes)
}

/// A circle over some edges, through one of some nodes, of fewer nodes than so many, if one is found.
///
/// Errors: out of memory.
fn looks_over<A: Allocator + Copy>(
    alloc: A,
    nodes: usize,
    edges: &[Edge],
    starts: &[usize],
    size: usize,
) -> Result<Option<Vec<Look, A>>, AllocError> {
    if !are_within(nodes, edges) {
        return Ok(None);
    }
    let chains = chains_of(alloc, nodes, edges)?;
    shorter_circle(alloc, &chains, starts, size)
}

/// The nodes of a circle over some edges, through one of some nodes, of fewer nodes than so many; none
/// where none is found.
///
/// Errors: out of memory.
pub fn circle_over<A: Allocator + Copy>(
    alloc: A,
    nodes: usize,
    edges: &[Edge],
    starts: &[usize],
    size: usize,
) -> Result<Vec<usize, A>, AllocError> {
    match looks_over(alloc, nodes, edges, starts, size)? {
        Some(looks) => nodes_of(alloc, &looks),
        None => Ok(Vec::new(alloc)),
    }
}

/// Puts in place of each place of an edge the node that the edge leads from.
fn set_froms(edges: &[Edge], places: &mut [usize]) {
    for k in 0..places.len() {
        places[k] = if places[k] < edges.len() {
            edges[places[k]].from
        } else {
            usize::MAX
        };
    }
}

/// The operations of a short circle, the first nodes, so many: of the circle that is told by its edges, or
/// of a shorter one.
///
/// Errors: out of memory.
pub fn operations_around<A: Allocator + Copy>(
    alloc: A,
    count: usize,
    nodes: usize,
    edges: &[Edge],
    cycle: Vec<usize, A>,
) -> Result<Vec<usize, A>, AllocError> {
    let mut around = cycle;
    set_froms(edges, &mut around);
    let shorter = circle_over(alloc, nodes, edges, &around, around.len())?;
    if !shorter.is_empty() {
        around = shorter;
    }
    let kept = keep_below(&mut around, count);
    around.truncate(kept);
    Ok(around)
}
