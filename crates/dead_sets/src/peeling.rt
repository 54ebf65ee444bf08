//! Channels that are struck out, one after the other, once packets can leave them in each case.

ghost use Rattle.std.specs.Prelude.{◌≡◌, ◌≢◌, ◌+◌, ◌<◌, ◌≤◌, ℕ, length, slice_index, IfOk, OnOk};
ghost use Rattle.dead_sets.specs.Cases.{AreCases};
ghost use Rattle.dead_sets.specs.Peeling.{AreCounts, AreZeros, IsPeeling, IsPeeled, ClosesCase};
ghost use Rattle.dead_sets.specs.Peeling.{AreClosedBy, not_zero};

use rising::chains::{Chains, chains_of};
use rising::{Edge, Graph};
use std::alloc::{AllocError, Allocator, Global};

/// What is struck out.
#[derive(Drop)]
pub struct Peeled<A: Allocator = Global> {
    /// For each channel, how many of its cases no channel that is struck out lets packets leave.
    pub left: Vec<usize, A>,
    /// The channels that are struck out, in order.
    pub order: Vec<usize, A>,
}

/// How often each number below a bound stands in a list.
///
/// Errors: out of memory.
fn counts_of<A: Allocator + Copy>(
    alloc: A,
    count: usize,
    list: &[usize],
) -> Result<Vec<usize, A>, AllocError>
    requires { (k : ℕ) → k < length list.now → slice_index list.now k < count }
    ensures { IfOk result (λ v. AreCounts count list.now v.items) }
{
    let mut counts = vec![in alloc; 0; count]?;
    for k in 0..list.len() {
        let x = list[k];
        counts[x] += 1;
    }
    Ok(counts)
}

/// The places of a list where 0 stands.
///
/// Errors: out of memory.
fn zeros_of<A: Allocator + Copy>(alloc: A, left: &[usize]) -> Result<Vec<usize, A>, AllocError>
    ensures zeros { IfOk result (λ order. AreZeros left.now order.items) }
    ensures few { IfOk result (λ order.
        not_zero left.now + length order.items ≤ length left.now) }
{
    let mut order = Vec::new(alloc);
    for x in 0..left.len() {
        if left[x] != 0 {
            continue;
        }
        order.push(x)?;
    }
    Ok(order)
}

/// ClosesCase a case, and strikes its channel out with its last open case.
///
/// Errors: out of memory.
fn close<A: Allocator>(
    case: usize,
    opened: &mut [usize],
    left: &mut [usize],
    order: &mut Vec<usize, A>,
) -> Result<(), AllocError>
    requires case { case < length opened.old }
    requires channel { slice_index opened.old case ≤ length left.old }
    requires some { slice_index opened.old case < length left.old
        → 0 < slice_index left.old (slice_index opened.old case) }
    ensures { OnOk result (ClosesCase (length left.old) case opened.old left.old order.old.items
        opened.new left.new order.new.items) }
{
    let x = opened[case];
    opened[case] = left.len();
    if x == left.len() {
        return Ok(());
    }
    left[x] -= 1;
    if left[x] == 0 {
        order.push(x)?;
    }
    Ok(())
}

/// ClosesCase the cases that packets can leave by the channel at a place of the order.
///
/// Errors: out of memory.
fn look<'a, A: Allocator>(
    count: usize,
    at: &[usize],
    chains: &Chains<'a, A>,
    place: usize,
    opened: &mut [usize],
    left: &mut [usize],
    order: &mut Vec<usize, A>,
) -> Result<(), AllocError>
    requires nodes { count ≤ chains.now.nodes }
    requires cases { AreCases count at.now chains.now.edges.now }
    requires place { place < length order.old.items }
    requires so_far { IsPeeling count at.now chains.now.edges.now place opened.old left.old
        order.old.items }
    requires closed { AreClosedBy count at.now chains.now.edges.now place
        opened.old order.old.items }
    ensures so_far { OnOk result (IsPeeling count at.now chains.now.edges.now (place + 1) opened.new
        left.new order.new.items) }
    ensures closed { OnOk result (AreClosedBy count at.now chains.now.edges.now
        (place + 1) opened.new
        order.new.items) }
    ensures fewer { OnOk result (not_zero left.new + length order.new.items
        ≤ not_zero left.old + length order.old.items) }
    ensures longer { OnOk result (length order.old.items ≤ length order.new.items) }
{
    let y = order[place];
    let mut k = chains.first(y);
    'edges: while k < chains.columns() {
        close(chains.end(y, k), opened, left, order)?;
        k = chains.next(y, k);
    }
    Ok(())
}

/// Closes the cases that packets can leave by each channel of the order, which goes on growing.
///
/// Errors: out of memory.
fn look_at_all<'a, A: Allocator>(
    count: usize,
    at: &[usize],
    chains: &Chains<'a, A>,
    opened: &mut [usize],
    left: &mut [usize],
    order: &mut Vec<usize, A>,
) -> Result<(), AllocError>
    requires nodes { count ≤ chains.now.nodes }
    requires cases { AreCases count at.now chains.now.edges.now }
    requires so_far { IsPeeling count at.now chains.now.edges.now 0 opened.old left.old
        order.old.items }
    ensures { OnOk result
        (IsPeeled count at.now chains.now.edges.now left.new order.new.items) }
{
    let mut place = 0;
    'places: while place < order.len() {
        look(count, at, chains, place, opened, left, order)?;
        place += 1;
    }
    Ok(())
}

/// Strikes channels out until each that is left has a case in which none that is struck out helps: the
/// channels of the cases, and an edge to each case from each channel by which packets can leave it.
///
/// Errors: out of memory.
pub fn peel<A: Allocator + Copy>(
    alloc: A,
    count: usize,
    at: &[usize],
    ways_out: &[Edge],
) -> Result<Peeled<A>, AllocError>
    requires { AreCases count at.now ways_out.now }
    ensures { IfOk result (λ peeled. IsPeeled count at.now ways_out.now
        peeled.left.items peeled.order.items) }
{
    let nodes = if count < at.len() { at.len() } else { count };
    let chains = chains_of(alloc, nodes, ways_out)?;
    let mut opened = Vec::from_slice(alloc, at)?;
    let mut left = counts_of(alloc, count, at)?;
    let mut order = zeros_of(alloc, &left)?;
    look_at_all(count, at, &chains, &mut opened, &mut left, &mut order)?;
    Ok(Peeled { left, order })
}
