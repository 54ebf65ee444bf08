//! The ports of a bank in the beginning, when all channels are empty.

ghost use Rattle.std.specs.Prelude.{◌≡◌, ◌<◌, ◌≤◌, ◌*◌, IfOk, ◌+◌, ◌-◌};
ghost use Rattle.torus.specs.Shape.{tiles_of};
ghost use Rattle.dateline_route.specs.Walk.{IsChannel};
ghost use Rattle.channel_number.specs.Order.{channel_index};
ghost use Rattle.home_bank.specs.Beginning.{bank_ports};

use channel_number::{Channel, Kind, channel_count, channel_index};
use flit_buffer::{Ports, Receiver, Sender};
use std::alloc::{AllocError, Allocator};
use torus::{Class, Torus};

/// The position in the row of the first place of a tile's channel, over channels of this depth.
pub(crate) fn base_of(torus: &Torus, depth: u32, channel: Channel) -> usize
    requires channel { IsChannel torus.now channel }
    requires few { depth ≤ 8 }
    ensures base { result ≡ channel_index torus.now channel * depth }
    ensures low { result ≤ 14336 }
{
    let _count = channel_count(torus);
    (channel_index(torus, channel) * depth) as usize
}

/// The ports of a tile's bank, whose channels are empty: the places of each channel stand in the row
/// by its place among the channels, and the words behind those of all channels.
pub(crate) fn bank_ports<A: Allocator + Copy>(
    alloc: A,
    torus: &Torus,
    tile: u32,
    depth: u32,
) -> Result<Ports<A>, AllocError>
    requires tile { tile < tiles_of torus.now }
    requires some { 0 < depth }
    requires few { depth ≤ 8 }
    ensures { IfOk result (λ p. p ≡ bank_ports torus.now tile depth) }
{
    let requests = Channel {
        tile,
        class: Class::Request,
        kind: Kind::Ejection,
    };
    let replies = Channel {
        tile,
        class: Class::Reply,
        kind: Kind::Injection,
    };
    let mut inputs = Vec::with_capacity(alloc, 1)?;
    inputs.push(Receiver::new(base_of(torus, depth, requests), depth as usize))?;
    let mut outputs = Vec::with_capacity(alloc, 1)?;
    outputs.push(Sender::new(base_of(torus, depth, replies), depth as usize))?;
    let words = channel_count(torus) * depth;
    Ok(Ports::new(inputs, outputs, words as usize))
}
