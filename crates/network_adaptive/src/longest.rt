//! The most channels that packets go over.

ghost use Rattle.std.specs.Prelude.{◌≡◌, ◌+◌, ◌*◌, ◌<◌, ◌≤◌, ℕ, true, length, map, slice_index};
ghost use Rattle.std.specs.Prelude.{IfOk};
ghost use Rattle.rising.specs.Graph.{RisesAlong};
ghost use Rattle.rising.specs.Found.{IsPermutationBelow};
ghost use Rattle.network_adaptive.specs.Edges.{pair_edge};
ghost use Rattle.network_adaptive.specs.Travel.{chosen_at, choice_graph, is_taken};
ghost use Rattle.network_adaptive.specs.Longest.{IsOrderByNumber, IsFarthest, AreFarthest};
ghost use Rattle.network_adaptive.specs.Longest.{IsMostOf};

use crate::choices::Choices;
use network_judge::Join;
use rising::Graph;
use rising::chains::Chains;
use std::alloc::{AllocError, Allocator};

/// The node with each number.
///
/// Errors: out of memory.
fn order_of<A: Allocator + Copy>(alloc: A, numbers: &[usize]) -> Result<Vec<usize, A>, AllocError>
    requires { IsPermutationBelow (length numbers.now) numbers.now }
    ensures { IfOk result (λ order. IsOrderByNumber numbers.now order.items) }
{
    let mut order = vec![in alloc; numbers.len(); numbers.len()]?;
    for x in 0..numbers.len() {
        order[numbers[x]] = x;
    }
    Ok(order)
}

/// One more than the most of the numbers behind a channel.
fn far_from<'a>(graph: &Choices<'a>, far: &[usize], x: usize) -> usize
    requires x { x < length graph.now.kinds.now }
    requires size { length far.now ≡ length graph.now.kinds.now }
    requires low { (k : ℕ) → k < graph.now.ways
        → is_taken graph.now.kinds.now graph.now.choices.now graph.now.base graph.now.ways
        graph.now.seen.now x k ≡ true
        → slice_index far.now (chosen_at graph.now.choices.now graph.now.base graph.now.ways x k)
        < length graph.now.kinds.now }
    ensures farthest { IsFarthest (choice_graph graph.now.kinds.now graph.now.choices.now
        graph.now.base graph.now.ways graph.now.seen.now) (slice_index far.now) x result }
{
    if !graph.goes_on(x) {
        return 1;
    }
    let mut most = 0;
    for k in 0..graph.ways {
        let next = graph.choice(x, k);
        if next < far.len() {
            let behind = far[next];
            if behind > most {
                most = behind;
            }
        }
    }
    most + 1
}

/// How many channels packets go over from each channel on at most, it counted, by the numbers of a
/// search.
///
/// Errors: out of memory.
pub fn farthest<'a, A: Allocator + Copy>(
    alloc: A,
    graph: &Choices<'a>,
    numbers: &[usize],
) -> Result<Vec<usize, A>, AllocError>
    requires numbers { IsPermutationBelow (length graph.now.kinds.now) numbers.now }
    requires rising { RisesAlong (choice_graph graph.now.kinds.now graph.now.choices.now
        graph.now.base graph.now.ways graph.now.seen.now) (slice_index numbers.now) }
    ensures { IfOk result (λ far. AreFarthest (choice_graph graph.now.kinds.now
        graph.now.choices.now graph.now.base graph.now.ways graph.now.seen.now) far.items) }
{
    let order = order_of(alloc, numbers)?;
    let mut far = vec![in alloc; 0; numbers.len()]?;
    let mut left = numbers.len();
    while left > 0 {
        left -= 1;
        let x = order[left];
        if x < far.len() {
            far[x] = far_from(graph, &far, x);
        }
    }
    Ok(far)
}

/// The most channels that packets to a channel go over, but no fewer than so many, where the edges of the
/// pairs are chained.
pub fn most_from<'a, A: Allocator>(
    joins: &[Join],
    pairs: &Chains<'a, A>,
    to: usize,
    far: &[usize],
    least: usize,
) -> usize
    requires pairs { pairs.now.edges.now ≡ map pair_edge joins.now }
    requires to { to < pairs.now.nodes }
    requires size { length far.now ≡ pairs.now.nodes }
    ensures { IsMostOf joins.now to (slice_index far.now) least result }
{
    let mut most = least;
    let mut k = pairs.first(to);
    'pairs: while k < joins.len() {
        let here = far[pairs.end(to, k)];
        if here > most {
            most = here;
        }
        k = pairs.next(to, k);
    }
    most
}
