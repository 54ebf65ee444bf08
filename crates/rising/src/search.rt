//! A search in depth for a cycle: from each node that no search came to.

ghost use Rattle.std.specs.Prelude.{◌≡◌, ◌+◌, ◌*◌, ◌^◌, ◌<◌, ℕ, [], length, IfOk, MatchOption};
ghost use Rattle.rising.specs.Search.{node_mark, finish_height, IsDepthSearch, IsExplored};
ghost use Rattle.rising.specs.Search.{IsCircuit, AreUnvisited, AreFinishedNodes};
ghost use Rattle.rising.specs.Search.{AreHeightNumbers, AreLookedColumns};

use crate::graph::Graph;
use std::alloc::{AllocError, Allocator, Global};

/// How far the search has come with a node.
#[derive(Clone, Copy, PartialEq, Eq)]
pub enum Mark {
    /// It didn't come to it.
    New,
    /// It is on the path, at this place.
    Open(usize),
    /// It and all behind it are done with, at this height: those behind it at lower heights.
    Done(usize),
}

/// A node, and one of its edges: on the path of the search the one that is looked at next.
#[derive(Clone, Copy)]
pub struct Look {
    /// The node.
    pub node: usize,
    /// The edge's column: those below it are looked at already.
    pub column: usize,
}

/// What a search from a node finds.
#[derive(Drop)]
pub enum Visited<A: Allocator = Global> {
    /// All behind it is done with, and so many nodes in all.
    Finished(usize),
    /// Nodes that lead around, each over its edge.
    Circle(Vec<Look, A>),
}

/// Searches in depth from a node.
///
/// Errors: out of memory.
pub fn visit<A: Allocator + Copy, G: Graph>(
    alloc: A,
    graph: &G,
    marks: &mut [Mark],
    finished: usize,
    start: usize,
) -> Result<Visited<A>, AllocError>
    requires start { start < (G.digraph graph.now).nodes }
    requires new { node_mark marks.old start ≡ Mark.New }
    requires search { IsDepthSearch (G.digraph graph.now) marks.old [] finished }
    ensures { IfOk result (IsExplored (G.digraph graph.now) marks.old marks.new start) }
{
    let width = graph.columns();
    let mut finished = finished;
    let mut path = Vec::new(alloc);
    marks[start] = Mark::Open(0);
    path.push(Look {
        node: start,
        column: graph.first(start),
    })?;
    'steps: while path.len() > 0 {
        let last = path.len() - 1;
        let Look { node, column } = path[last];
        if column == width {
            marks[node] = Mark::Done(finished);
            finished += 1;
            path.truncate(last);
            continue;
        }
        let next = graph.end(node, column);
        match marks[next] {
            Mark::New => {
                marks[next] = Mark::Open(path.len());
                path.push(Look {
                    node: next,
                    column: graph.first(next),
                })?;
            }
            Mark::Open(place) => return Ok(Visited::Circle(Vec::from_slice(
                alloc,
                &path[place..],
            )?)),
            Mark::Done(_) => path[last] = Look {
                node,
                column: graph.next(node, column),
            },
        }
    }
    Ok(Visited::Finished(finished))
}

/// Searches in depth from all nodes: nodes that lead around, or none.
///
/// Errors: out of memory.
pub fn visit_all<A: Allocator + Copy, G: Graph>(
    alloc: A,
    graph: &G,
    marks: &mut [Mark],
) -> Result<Option<Vec<Look, A>>, AllocError>
    requires size { length marks.old ≡ (G.digraph graph.now).nodes }
    requires new { AreUnvisited marks.old }
    ensures { IfOk result (λ found. MatchOption found
        (AreFinishedNodes (G.digraph graph.now) marks.new)
        (λ looks. IsCircuit (G.digraph graph.now) looks.items)) }
{
    let mut finished = 0;
    for start in 0..graph.nodes() {
        if marks[start] != Mark::New {
            continue;
        }
        match visit(alloc, graph, marks, finished, start)? {
            Visited::Finished(count) => finished = count,
            Visited::Circle(looks) => return Ok(Some(looks)),
        }
    }
    Ok(None)
}

/// The height of a node that is done with.
fn height_of(mark: Mark) -> usize
    ensures { result ≡ finish_height mark }
{
    match mark {
        Mark::New => 0,
        Mark::Open(_) => 0,
        Mark::Done(height) => height,
    }
}

/// Numbers from the heights: the higher the height, the lower the number.
///
/// Errors: out of memory.
pub fn numbers_of<A: Allocator + Copy>(
    alloc: A,
    marks: &[Mark],
) -> Result<Vec<usize, A>, AllocError>
    requires { (x : ℕ) → x < length marks.now
        → finish_height (node_mark marks.now x) < length marks.now }
    ensures { IfOk result (λ v. AreHeightNumbers marks.now v.items) }
{
    let count = marks.len();
    let mut numbers = Vec::with_capacity(alloc, count)?;
    for x in 0..count {
        numbers.push(count - 1 - height_of(marks[x]))?;
    }
    Ok(numbers)
}

/// The edges of a path.
///
/// Errors: out of memory.
pub fn columns_of<A: Allocator + Copy>(
    alloc: A,
    looks: &[Look],
) -> Result<Vec<usize, A>, AllocError>
    ensures { IfOk result (λ v. AreLookedColumns looks.now v.items) }
{
    let mut columns = Vec::with_capacity(alloc, looks.len())?;
    for k in 0..looks.len() {
        columns.push(looks[k].column)?;
    }
    Ok(columns)
}
