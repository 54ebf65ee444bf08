//! The ports of a processor in the beginning, when all channels are empty.

ghost use Rattle.std.specs.Prelude.{◌≡◌, ◌<◌, ◌≤◌, ℕ, length, IfOk};
ghost use Rattle.torus.specs.Shape.{tiles_of};
ghost use Rattle.net_interface.specs.Beginning.{processor_ports};

use channel_number::{channel_count, channel_index};
use dateline_route::{Channel, Kind};
use flit_buffer::{Ports, Receiver, Sender};
use std::alloc::{AllocError, Allocator};
use torus::{Class, Torus};

/// The ports of a tile's processor, whose channels are empty: the places of each channel stand in the
/// row by its place among the channels, and the words behind those of all channels.
pub(crate) fn processor_ports<A: Allocator + Copy>(
    alloc: A,
    torus: &Torus,
    tile: u32,
    depth: u32,
) -> Result<Ports<A>, AllocError>
    requires tile { tile < tiles_of torus.now }
    requires some { 0 < depth }
    requires few { depth ≤ 8 }
    ensures { IfOk result (λ p. p ≡ processor_ports torus.now tile depth) }
{
    let words = channel_count(torus) * depth;
    let ejection = Channel {
        tile,
        class: Class::Reply,
        kind: Kind::Ejection,
    };
    let injection = Channel {
        tile,
        class: Class::Request,
        kind: Kind::Injection,
    };
    let input = channel_index(torus, ejection) * depth;
    let output = channel_index(torus, injection) * depth;
    let inputs = vec![in alloc; Receiver::new(input as usize, depth as usize)]?;
    let outputs = vec![in alloc; Sender::new(output as usize, depth as usize)]?;
    Ok(Ports::new(inputs, outputs, words as usize))
}
