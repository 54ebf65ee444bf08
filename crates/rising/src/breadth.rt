//! Breadth-first searches for circles of a graph: a guess, and the check of what was guessed.

ghost use Rattle.std.specs.Prelude.{◌≡◌, ◌<◌, true, length, IfOk, IfSome};
ghost use Rattle.rising.specs.Search.{StepsOn, IsCircuit};

use crate::graph::Graph;
use crate::search::Look;
use std::alloc::{AllocError, Allocator};

/// How many nodes the searches for one circle go on from, at most.
const MOST_NODES: usize = 65536;

/// A node that a search came to.
#[derive(Clone, Copy)]
struct Reached {
    /// The node.
    node: usize,
    /// The place of the node before in the list of the search.
    before: usize,
    /// The column in which that one leads here.
    column: usize,
    /// How many steps lead here.
    steps: usize,
}

/// Puts the nodes that a node of a list leads on to behind the list, but for those that are seen; or
/// answers the column in which it leads to the start.
///
/// Errors: out of memory.
fn go_on<A: Allocator, G: Graph>(
    graph: &G,
    start: usize,
    place: usize,
    from: Reached,
    seen: &mut [bool],
    list: &mut Vec<Reached, A>,
) -> Result<Option<usize>, AllocError>
    requires node { from.node < (G.digraph graph.now).nodes }
    requires size { length seen.old ≡ (G.digraph graph.now).nodes }
{
    let mut column = graph.first(from.node);
    'edges: while column < graph.columns() {
        let next = graph.end(from.node, column);
        if next == start {
            return Ok(Some(column));
        }
        if !seen[next] {
            seen[next] = true;
            list.push(Reached {
                node: next,
                before: place,
                column,
                steps: from.steps.saturating_add(1),
            })?;
        }
        column = graph.next(from.node, column);
    }
    Ok(None)
}

/// The nodes from the first of a list on to the one at a place, each in the column in which it leads on:
/// that one in this column.
///
/// Errors: out of memory.
fn way_to<A: Allocator + Copy>(
    alloc: A,
    list: &[Reached],
    place: usize,
    column: usize,
) -> Result<Vec<Look, A>, AllocError> {
    let mut looks = Vec::new(alloc);
    let mut at = place;
    let mut column = column;
    for _ in 0..list.len() {
        if at >= list.len() {
            break;
        }
        let reached = list[at];
        looks.push(Look {
            node: reached.node,
            column,
        })?;
        if at == 0 {
            break;
        }
        column = reached.column;
        at = reached.before;
    }
    looks.reverse();
    Ok(looks)
}

/// The nodes of a circle through a node, each with the column in which it leads on, of fewer than so many:
/// a guess, from a breadth-first search that goes on from so many nodes at most, and takes them off; and
/// one for each 64 nodes of the graph, for whose flags it asks.
///
/// Errors: out of memory.
fn guessed<A: Allocator + Copy, G: Graph>(
    alloc: A,
    graph: &G,
    start: usize,
    most: usize,
    left: &mut usize,
) -> Result<Vec<Look, A>, AllocError> {
    *left = left.saturating_sub(graph.nodes() / 64);
    let mut seen = vec![in alloc; false; graph.nodes()]?;
    let mut list = Vec::new(alloc);
    list.push(Reached {
        node: start,
        before: 0,
        column: 0,
        steps: 1,
    })?;
    for place in 0..*left {
        if place >= list.len() {
            break;
        }
        let reached = list[place];
        if reached.node >= graph.nodes() || reached.steps >= most {
            break;
        }
        *left = left.saturating_sub(1);
        if let Some(column) = go_on(graph, start, place, reached, &mut seen, &mut list)? {
            return way_to(alloc, &list, place, column);
        }
    }
    Ok(Vec::new(alloc))
}

/// Whether a node leads in a column on to another.
fn leads_on<G: Graph>(graph: &G, look: Look, next: usize) -> bool
    ensures { result ≡ true → StepsOn (G.digraph graph.now) look next }
{
    if look.node >= graph.nodes() {
        return false;
    }
    let mut column = graph.first(look.node);
    'edges: while column < look.column && column < graph.columns() {
        column = graph.next(look.node, column);
    }
    if column != look.column || column >= graph.columns() {
        return false;
    }
    graph.end(look.node, column) == next
}

/// Whether nodes lead around, each in its column on to the next.
fn is_circuit<G: Graph>(graph: &G, looks: &[Look]) -> bool
    ensures { result ≡ true → IsCircuit (G.digraph graph.now) looks.now }
{
    if looks.is_empty() {
        return false;
    }
    let last = looks.len() - 1;
    for k in 0..last {
        if !leads_on(graph, looks[k], looks[k + 1].node) {
            return false;
        }
    }
    leads_on(graph, looks[last], looks[0].node)
}

/// A circle through a node of fewer nodes than so many, if the search finds one.
///
/// Errors: out of memory.
fn circle_through<A: Allocator + Copy, G: Graph>(
    alloc: A,
    graph: &G,
    start: usize,
    most: usize,
    left: &mut usize,
) -> Result<Option<Vec<Look, A>>, AllocError>
    ensures circuit { IfOk result (λ found. IfSome found (λ looks.
        IsCircuit (G.digraph graph.now) looks.items)) }
    ensures shorter { IfOk result (λ found. IfSome found (λ looks. length looks.items < most)) }
{
    let looks = guessed(alloc, graph, start, most, left)?;
    if looks.len() < most && is_circuit(graph, &looks) {
        return Ok(Some(looks));
    }
    Ok(None)
}

/// A circle of fewer nodes than so many, if a breadth-first search from one of these finds one: a guess, the
/// shortest that the searches find.
///
/// Errors: out of memory.
pub fn shorter_circle<A: Allocator + Copy, G: Graph>(
    alloc: A,
    graph: &G,
    starts: &[usize],
    size: usize,
) -> Result<Option<Vec<Look, A>>, AllocError>
    ensures circuit { IfOk result (λ found. IfSome found (λ looks.
        IsCircuit (G.digraph graph.now) looks.items)) }
    ensures shorter { IfOk result (λ found. IfSome found (λ looks. length looks.items < size)) }
{
    let mut left = MOST_NODES;
    let mut most = size;
    let mut best = None;
    for k in 0..starts.len() {
        if left == 0 {
            break;
        }
        if let Some(looks) = circle_through(alloc, graph, starts[k], most, &mut left)? {
            most = looks.len();
            best = Some(looks);
        }
    }
    Ok(best)
}
