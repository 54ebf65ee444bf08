//! A run that nothing is known of yet.

ghost use Rattle.std.specs.Prelude.{◌≡◌, ◌<◌, [], length, map, replicate, IfOk};
ghost use Rattle.network_judge.specs.Table.{Table, channels_of};
ghost use Rattle.network_traffic.specs.Labels.{labels_of, labels_spec, no_labels};
ghost use Rattle.network_traffic.specs.Fates.{sizes_of};
ghost use Rattle.network_traffic.specs.Watches.{ShowsCourse};

use crate::fates::Fates;
use crate::labels::Labels;
use crate::waits::Wait;
use crate::watch::Watch;
use arrayvec::ArrayVec;
use network_rounds::Timed;
use std::alloc::{AllocError, Allocator};

/// No flit in so many channels.
///
/// Errors: out of memory.
fn no_flits<A: Allocator + Copy>(
    alloc: A,
    channels: usize,
) -> Result<Vec<ArrayVec<usize, 8>, A>, AllocError>
    ensures { IfOk result (λ flits. labels_of flits.items ≡ replicate channels []) }
{
    let mut flits = Vec::with_capacity(alloc, channels)?;
    for _x in 0..channels {
        flits.push(ArrayVec::new())?;
    }
    Ok(flits)
}

/// No flit anywhere, in so many channels.
///
/// Errors: out of memory.
fn no_labels<A: Allocator + Copy>(alloc: A, channels: usize) -> Result<Labels<A>, AllocError>
    ensures { IfOk result (λ labels. labels_spec labels ≡ no_labels channels) }
{
    Ok(Labels {
        flits: no_flits(alloc, channels)?,
        latches: vec![in alloc; None; channels]?,
        courses: vec![in alloc; None; channels]?,
        begun: vec![in alloc; 0; channels]?,
    })
}

/// How many flits each packet has.
///
/// Errors: out of memory.
fn sizes_of<A: Allocator + Copy>(alloc: A, packets: &[Timed]) -> Result<Vec<u64, A>, AllocError>
    ensures { IfOk result (λ sizes. sizes.items ≡ sizes_of packets.now) }
{
    let mut sizes = Vec::with_capacity(alloc, packets.len())?;
    for k in 0..packets.len() {
        sizes.push(packets[k].packet.length)?;
    }
    Ok(sizes)
}

/// Nothing has waited.
const NO_WAIT: Wait = Wait {
    since: 0,
    left: 0,
    waited: 0,
};

/// What is kept of no round.
///
/// Errors: out of memory.
pub(crate) fn open_watch<A: Allocator + Copy>(
    alloc: A,
    channels: usize,
    packets: &[Timed],
) -> Result<Watch<A>, AllocError>
    ensures { IfOk result (λ watch. (t : Table) → channels_of t ≡ channels
        → ShowsCourse t packets.now [] watch) }
{
    let labels = no_labels(alloc, channels)?;
    let fates = Fates {
        begun: vec![in alloc; None; packets.len()]?,
        left: sizes_of(alloc, packets)?,
        delivered: vec![in alloc; None; packets.len()]?,
    };
    Ok(Watch {
        labels,
        fates,
        waits: vec![in alloc; NO_WAIT; channels]?,
        waited: vec![in alloc; 0; channels]?,
    })
}
