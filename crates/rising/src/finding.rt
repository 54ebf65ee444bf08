//! Numbers that rise, or a cycle.

ghost use Rattle.std.specs.Prelude.{IfOk};
ghost use Rattle.rising.specs.Graph.{EdgesAreWithin};
ghost use Rattle.rising.specs.Found.{IsOrderOrCircuit, IsOrderOrCycle};

use crate::chains::chains_of;
use crate::edge::{Edge, Found};
use crate::graph::Graph;
use crate::search::{Look, Mark, columns_of, numbers_of, visit_all};
use std::alloc::{AllocError, Allocator, Global};

/// What a search of a graph finds.
#[derive(Drop)]
pub enum Searched<A: Allocator = Global> {
    /// A number for each node, all different, from 0 on, that rises along each edge: in the opposite
    /// of the order in which the search was done with the nodes.
    Rising(Vec<usize, A>),
    /// Nodes that lead around, each by an edge to the next, and the last one to the first.
    Circuit(Vec<Look, A>),
}

/// Searches a graph in depth, from its nodes in order and over each one's edges in order: finds
/// numbers for the nodes, from 0 on and all different, that rise along each edge, or nodes that lead
/// around. Each node and each edge is looked at once.
///
/// Errors: out of memory, and no other.
pub fn find<A: Allocator + Copy, G: Graph>(alloc: A, graph: &G) -> Result<Searched<A>, AllocError>
    ensures { IfOk result (IsOrderOrCircuit (G.digraph graph.now)) }
{
    let mut marks = vec![in alloc; Mark::New; graph.nodes()]?;
    match visit_all(alloc, graph, &mut marks)? {
        Some(looks) => Ok(Searched::Circuit(looks)),
        None => Ok(Searched::Rising(numbers_of(alloc, &marks)?)),
    }
}

/// Finds numbers for the nodes, from 0 on and all different, that rise along each edge of a list, or
/// edges that lead around: in time that is linear in nodes and edges.
///
/// Errors: out of memory, and no other.
pub fn rise<A: Allocator + Copy>(
    alloc: A,
    nodes: usize,
    edges: &[Edge],
) -> Result<Found<A>, AllocError>
    requires { EdgesAreWithin nodes edges.now }
    ensures { IfOk result (IsOrderOrCycle nodes edges.now) }
{
    let chains = chains_of(alloc, nodes, edges)?;
    match find(alloc, &chains)? {
        Searched::Circuit(looks) => Ok(Found::Cycle(columns_of(alloc, &looks)?)),
        Searched::Rising(numbers) => Ok(Found::Rising(numbers)),
    }
}
