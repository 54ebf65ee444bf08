//! Empty channels.

ghost use Rattle.std.specs.Prelude.{IfOk};
ghost use Rattle.network_machine.specs.Inside.{IsEmptyChannel, AreEmpty};

use crate::channel::Channel;
use arrayvec::ArrayVec;
use std::alloc::{AllocError, Allocator};

/// A channel in which nothing is, and of which the sending end holds all credits.
fn empty_channel(depth: u64) -> Channel
    ensures { IsEmptyChannel depth result }
{
    Channel {
        flits: ArrayVec::new(),
        held: depth,
        returning: 0,
        latch: None,
        owner: None,
        left: 0,
    }
}

/// So many of them.
///
/// Errors: out of memory.
pub(crate) fn empty_channels<A: Allocator + Copy>(
    alloc: A,
    count: usize,
    depth: u64,
) -> Result<Vec<Channel, A>, AllocError>
    ensures { IfOk result (λ channels. AreEmpty count depth channels.items) }
{
    let mut channels = Vec::with_capacity(alloc, count)?;
    for _done in 0..count {
        channels.push(empty_channel(depth))?;
    }
    Ok(channels)
}
