//! The routers at the two ends of each channel, and the ports that they have it at.

ghost use Rattle.std.specs.Prelude.{◌≡◌, ◌*◌, ◌<◌, ◌≤◌, IfOk};
ghost use Rattle.channel_number.specs.Order.{channel_count};
ghost use Rattle.core_laws.specs.Routers.{input_end, output_end};
ghost use Rattle.machine_parts.specs.Ports.{all_ports, ports_at};

use channel_number::{channel_at, channel_count};
use dateline_route::Kind;
use std::alloc::{AllocError, Allocator};
use torus::Torus;

/// The routers at the ends of a channel, each by its tile and port.
#[derive(Clone, Copy)]
pub struct PortEnds {
    /// The router that sends on it, and its output; `None` where a processor or a bank does.
    pub output: Option<(u8, u8)>,
    /// The router that receives from it, and its input; `None` where a processor or a bank does.
    pub input: Option<(u8, u8)>,
}

/// The router that sends on the channel of this place in channel order, and its output.
fn output_end(torus: &Torus, index: u32) -> Option<(u8, u8)>
    requires { index < channel_count torus.now }
    ensures { result ≡ output_end torus.now index }
{
    let _tiles = torus.tiles();
    let hops = 8 * torus.dims();
    let place = index % (hops + 4);
    let tile = (index / (hops + 4)) as u8;
    match channel_at(torus, index).kind {
        Kind::Injection => None,
        Kind::Hop { .. } => Some((tile, place as u8)),
        Kind::Ejection => Some((tile, (place - 2) as u8)),
    }
}

/// The router that receives from the channel of this place in channel order, and its input.
fn input_end(torus: &Torus, index: u32) -> Option<(u8, u8)>
    requires { index < channel_count torus.now }
    ensures { result ≡ input_end torus.now index }
{
    let _tiles = torus.tiles();
    let place = (index % (8 * torus.dims() + 4)) as u8;
    let channel = channel_at(torus, index);
    match channel.kind {
        Kind::Injection => Some((channel.tile as u8, place)),
        Kind::Hop { dim, dir, .. } => {
            Some((torus.neighbour(channel.tile, dim, dir) as u8, place))
        }
        Kind::Ejection => None,
    }
}

/// The routers' ends of the channel of this place in channel order.
fn ports_at(torus: &Torus, index: u32) -> PortEnds
    requires { index < channel_count torus.now }
    ensures { result ≡ ports_at torus.now index }
{
    PortEnds {
        output: output_end(torus, index),
        input: input_end(torus, index),
    }
}

/// The routers' ends of the channel of each place of the row, for channels of this depth, 1 to 8.
///
/// Errors: out of memory.
pub(crate) fn all_ports<A: Allocator + Copy>(
    alloc: A,
    torus: &Torus,
    depth: u32,
) -> Result<Vec<PortEnds, A>, AllocError>
    requires some { 0 < depth }
    requires few { depth ≤ 8 }
    ensures { IfOk result (λ ends. ends.items ≡ all_ports torus.now depth) }
{
    let places = channel_count(torus) * depth;
    let mut ends = Vec::with_capacity(alloc, places as usize)?;
    for place in 0..places {
        ends.push(ports_at(torus, place / depth))?;
    }
    Ok(ends)
}
