//! The agents at the two ends of each channel.

ghost use Rattle.std.specs.Prelude.{◌≡◌, ◌*◌, ◌<◌, ◌≤◌, IfOk};
ghost use Rattle.torus.specs.Shape.{tiles_of};
ghost use Rattle.channel_number.specs.Order.{channel_count};
ghost use Rattle.core_laws.specs.Waking.{taker, speaker, receiver_of, sender_of};
ghost use Rattle.machine_parts.specs.Ends.{all_ends, ends_of};

use channel_number::{channel_at, channel_count};
use core_laws::{Agent, agent_number};
use dateline_route::Kind;
use std::alloc::{AllocError, Allocator};
use torus::{Class, Torus};

/// The agents at the ends of a channel, by number.
#[derive(Clone, Copy)]
pub struct Ends {
    /// The agent that sends on it.
    pub sender: u8,
    /// The agent that receives from it.
    pub receiver: u8,
}

/// Which agent of its tile sends the packets of a class into the network.
fn speaker(class: Class) -> Agent
    ensures { result ≡ speaker class }
{
    match class {
        Class::Request => Agent::Processor,
        Class::Reply => Agent::Bank,
    }
}

/// Which agent of its tile takes the packets of a class out of the network.
fn taker(class: Class) -> Agent
    ensures { result ≡ taker class }
{
    match class {
        Class::Request => Agent::Bank,
        Class::Reply => Agent::Processor,
    }
}

/// The agent that sends on the channel that has this place in channel order.
fn sender_of(torus: &Torus, index: u32) -> u32
    requires { index < channel_count torus.now }
    ensures value { result ≡ sender_of torus.now index }
    ensures below { result < 3 * tiles_of torus.now }
{
    let _tiles = torus.tiles();
    let channel = channel_at(torus, index);
    match channel.kind {
        Kind::Injection => agent_number(channel.tile, speaker(channel.class)),
        Kind::Hop { .. } => agent_number(channel.tile, Agent::Router),
        Kind::Ejection => agent_number(channel.tile, Agent::Router),
    }
}

/// The agent that receives from the channel that has this place in channel order.
fn receiver_of(torus: &Torus, index: u32) -> u32
    requires { index < channel_count torus.now }
    ensures value { result ≡ receiver_of torus.now index }
    ensures below { result < 3 * tiles_of torus.now }
{
    let _tiles = torus.tiles();
    let channel = channel_at(torus, index);
    match channel.kind {
        Kind::Injection => agent_number(channel.tile, Agent::Router),
        Kind::Hop { dim, dir, .. } => {
            agent_number(torus.neighbour(channel.tile, dim, dir), Agent::Router)
        }
        Kind::Ejection => agent_number(channel.tile, taker(channel.class)),
    }
}

/// The agents at the ends of the channel that has this place in channel order.
fn ends_of(torus: &Torus, index: u32) -> Ends
    requires { index < channel_count torus.now }
    ensures { result ≡ ends_of torus.now index }
{
    let _tiles = torus.tiles();
    Ends {
        sender: sender_of(torus, index) as u8,
        receiver: receiver_of(torus, index) as u8,
    }
}

/// The agents at the ends of the channel of each place of the row, for channels of this depth, 1 to 8.
///
/// Errors: out of memory.
pub(crate) fn all_ends<A: Allocator + Copy>(
    alloc: A,
    torus: &Torus,
    depth: u32,
) -> Result<Vec<Ends, A>, AllocError>
    requires some { 0 < depth }
    requires few { depth ≤ 8 }
    ensures { IfOk result (λ ends. ends.items ≡ all_ends torus.now depth) }
{
    let places = channel_count(torus) * depth;
    let mut ends = Vec::with_capacity(alloc, places as usize)?;
    for place in 0..places {
        ends.push(ends_of(torus, place / depth))?;
    }
    Ok(ends)
}
