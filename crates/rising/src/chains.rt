//! The edges from each node of a list, chained.

ghost use Rattle.std.specs.Prelude.{◌≡◌, ◌<◌, ◌^◌, ℕ, length, IfOk, slice_index};
ghost use Rattle.rising.specs.Graph.{EdgesAreWithin, digraph_of};
ghost use Rattle.rising.specs.Chains.{AreChains};

use crate::edge::Edge;
use crate::graph::Graph;
use std::alloc::{AllocError, Allocator, Global};

/// A list of edges, where those from each node begin, and which one comes behind each; the number of
/// edges where there is none.
#[derive(Drop)]
pub struct Chains<'a, A: Allocator = Global> {
    /// How many nodes there are.
    nodes: usize,
    /// The edges.
    edges: &'a [Edge],
    /// The first edge from each node.
    heads: Vec<usize, A>,
    /// Behind each edge the next one from its node.
    nexts: Vec<usize, A>,
    ghost within: { EdgesAreWithin nodes edges.now },
    ghost chained: { AreChains (digraph_of nodes edges.now) heads.items nexts.items },
}

/// Chains the edges from each node.
///
/// Errors: out of memory.
pub fn chains_of<'a, A: Allocator + Copy>(
    alloc: A,
    nodes: usize,
    edges: &'a [Edge],
) -> Result<Chains<'a, A>, AllocError>
    requires { EdgesAreWithin nodes edges.now }
    ensures { IfOk result (λ chains. (chains.nodes ≡ nodes) × (chains.edges.now ≡ edges.now)) }
{
    let count = edges.len();
    let mut heads = vec![in alloc; count; nodes]?;
    let mut nexts = vec![in alloc; count; count]?;
    let mut left = count;
    'back: while left > 0 {
        left -= 1;
        let from = edges[left].from;
        nexts[left] = heads[from];
        heads[from] = left;
    }
    Ok(Chains {
        nodes,
        edges,
        heads,
        nexts,
    })
}

impl<'a, A: Allocator> Graph for Chains<'a, A> {
    ghost digraph = { λ chains. digraph_of chains.nodes chains.edges.now };

    fn nodes(&self) -> usize {
        self.nodes
    }

    fn columns(&self) -> usize {
        self.edges.len()
    }

    fn first(&self, node: usize) -> usize {
        self.heads[node]
    }

    fn next(&self, node: usize, column: usize) -> usize {
        self.nexts[column]
    }

    fn end(&self, node: usize, column: usize) -> usize {
        self.edges[column].to
    }
}
