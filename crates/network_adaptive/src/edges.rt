//! Lists of edges in which none stands twice.

ghost use Rattle.std.specs.Prelude.{◌≡◌, ◌<◌, ℕ, ◌++◌, map, length, IfOk, OnOk};
ghost use Rattle.rising.specs.Graph.{EdgesAreWithin};
ghost use Rattle.network_adaptive.specs.Flags.{HasPut, IsEdgeOf};
ghost use Rattle.network_adaptive.specs.Edges.{AreReversed, AreSame, reply_edge, pair_edge};

use network_judge::{Join, Reply};
use rising::chains::{Chains, chains_of};
use rising::{Edge, Graph};
use std::alloc::{AllocError, Allocator};

/// Adds an edge, unless the last one is equal to it.
///
/// Errors: out of memory.
fn push_new<A: Allocator>(
    edges: &mut Vec<Edge, A>,
    from: usize,
    to: usize,
) -> Result<(), AllocError>
    ensures { OnOk result
        (HasPut (λ x y. (x ≡ from) × (y ≡ to)) edges.old.items edges.new.items) }
{
    if edges.len() > 0 {
        let last = edges[edges.len() - 1];
        if last.from == from && last.to == to {
            return Ok(());
        }
    }
    edges.push(Edge { from, to })?;
    Ok(())
}

/// Adds the edges from a node, turned round.
///
/// Errors: out of memory.
fn push_turned<'a, A: Allocator>(
    chains: &Chains<'a, A>,
    x: usize,
    out: &mut Vec<Edge, A>,
) -> Result<(), AllocError>
    requires { x < chains.now.nodes }
    ensures { OnOk result (HasPut (λ u v. (v ≡ x) × IsEdgeOf chains.now.edges.now v u)
        out.old.items out.new.items) }
{
    let mut k = chains.first(x);
    'edges: while k < chains.columns() {
        push_new(out, chains.end(x, k), x)?;
        k = chains.next(x, k);
    }
    Ok(())
}

/// The edges turned round, those together that lead to one node.
///
/// Errors: out of memory.
fn turned<A: Allocator + Copy>(
    alloc: A,
    nodes: usize,
    edges: &[Edge],
) -> Result<Vec<Edge, A>, AllocError>
    requires { EdgesAreWithin nodes edges.now }
    ensures { IfOk result (λ out. AreReversed edges.now out.items) }
{
    let chains = chains_of(alloc, nodes, edges)?;
    let mut out = Vec::new(alloc);
    for x in 0..nodes {
        push_turned(&chains, x, &mut out)?;
    }
    Ok(out)
}

/// A list of the edges that are given, those from each node in the order of where they lead, none twice.
///
/// Errors: out of memory.
pub fn distinct<A: Allocator + Copy>(
    alloc: A,
    nodes: usize,
    edges: &[Edge],
) -> Result<Vec<Edge, A>, AllocError>
    requires { EdgesAreWithin nodes edges.now }
    ensures { IfOk result (λ out. AreSame edges.now out.items) }
{
    let half = turned(alloc, nodes, edges)?;
    Ok(turned(alloc, nodes, &half)?)
}

/// The edges that are given; none of them twice, where they are more than twice as many as were kept last.
///
/// Errors: out of memory.
pub fn thinned<A: Allocator + Copy>(
    alloc: A,
    nodes: usize,
    edges: Vec<Edge, A>,
    kept: &mut usize,
) -> Result<Vec<Edge, A>, AllocError>
    requires { EdgesAreWithin nodes edges.items }
    ensures { IfOk result (λ out. AreSame edges.items out.items) }
{
    if edges.len() / 2 <= *kept {
        return Ok(edges);
    }
    let fewer = distinct(alloc, nodes, &edges)?;
    *kept = fewer.len();
    Ok(fewer)
}

/// Edges, and behind them one for each reply.
///
/// Errors: out of memory.
pub fn with_replies<A: Allocator + Copy>(
    alloc: A,
    edges: &[Edge],
    replies: &[Reply],
) -> Result<Vec<Edge, A>, AllocError>
    ensures { IfOk result (λ all. all.items ≡ edges.now ++ map reply_edge replies.now) }
{
    let mut all = Vec::from_slice(alloc, edges)?;
    for reply in replies {
        all.push(Edge {
            from: reply.from,
            to: reply.to,
        })?;
    }
    Ok(all)
}

/// An edge for each source-destination pair, from its destination to its source.
///
/// Errors: out of memory.
pub fn pair_edges<A: Allocator + Copy>(alloc: A, joins: &[Join]) -> Result<Vec<Edge, A>, AllocError>
    ensures { IfOk result (λ edges. edges.items ≡ map pair_edge joins.now) }
{
    let mut edges = Vec::with_capacity(alloc, joins.len())?;
    for join in joins {
        edges.push(Edge {
            from: join.to,
            to: join.from,
        })?;
    }
    Ok(edges)
}
