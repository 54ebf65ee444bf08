//! The channels of routes, as C sees them.

ghost use Rattle.std.specs.Prelude.{◌≡◌, ◌≤◌, All, None, length, map};
ghost use Rattle.c_handles.specs.HeldMachine.{held};
ghost use Rattle.dateline_route.specs.Walk.{IsChannel};
ghost use Rattle.torusmem_c.specs.Channels.{PutsRoute, channel_record, class_named, put_route, route_outcome};
ghost use Rattle.torusmem_c.specs.Held.{OnHeld};

use crate::outcome::Outcome;
use crate::ports::dir_place;
use crate::room::put_over;
use arrayvec::ArrayVec;
use c_handles::MachineHandle;
use channel_number::number_of;
use dateline_route::{Channel, Kind, route};
use torus::{Class, Torus};

/// A channel of a route: an injection of a tile, a hop out of it, or an ejection.
#[repr(C)]
#[derive(Clone, Copy)]
pub struct ChannelRecord {
    pub kind: u32,
    pub tile: u32,
    pub dim: u32,
    pub minus: u32,
    pub bit: u32,
    pub number: u32,
}

impl Default for ChannelRecord {
    /// The injection of tile 0, with the number 0.
    fn default() -> Self {
        ChannelRecord {
            kind: 0,
            tile: 0,
            dim: 0,
            minus: 0,
            bit: 0,
            number: 0,
        }
    }
}

/// What C sees of a channel.
fn channel_record(torus: &Torus, channel: Channel) -> ChannelRecord
    requires { IsChannel torus.now channel }
    ensures { result ≡ channel_record torus.now channel }
{
    let number = number_of(torus, channel);
    let tile = channel.tile;
    let (kind, dim, minus, bit) = match channel.kind {
        Kind::Injection => (0, 0, 0, 0),
        Kind::Hop { dim, dir, bit } => (1, dim, dir_place(dir), u32::from(bit)),
        Kind::Ejection => (2, 0, 0, 0),
    };
    ChannelRecord {
        kind,
        tile,
        dim,
        minus,
        bit,
        number,
    }
}

/// What C sees of some channels, at most 14.
fn channel_records(torus: &Torus, channels: &[Channel]) -> ArrayVec<ChannelRecord, 14>
    requires channels { All (IsChannel torus.now) channels.now }
    requires few { length channels.now ≤ 14 }
    ensures { result.items ≡ map (channel_record torus.now) channels.now }
{
    let mut records = ArrayVec::new();
    for channel in channels {
        records.push(channel_record(torus, *channel));
    }
    records
}

/// The class that has this number; `None` exactly where none has.
fn class_named(class: u32) -> Option<Class>
    ensures { result ≡ class_named class }
{
    match class {
        0 => Some(Class::Request),
        1 => Some(Class::Reply),
        _ => None,
    }
}

/// Puts what C sees of a route into a buffer.
fn put_route(torus: &Torus, src: u32, dst: u32, class: u32, out: &mut [ChannelRecord]) -> Outcome
    ensures buffer { out.new ≡ put_route torus.now src dst class out.old }
    ensures value { result ≡ route_outcome torus.now src dst class out.old }
{
    let tiles = torus.tiles();
    match class_named(class) {
        Some(class) if src < tiles && dst < tiles => {
            let channels = route(torus, src, dst, class);
            put_over(channel_records(torus, channels.as_slice()).as_slice(), out)
        }
        _ => Outcome::no_such(),
    }
}

/// Puts the route of a packet of a class, 0 requests or 1 replies, from tile to tile into a buffer.
#[unsafe(no_mangle)]
pub extern "C" fn torusmem_route(
    handle: &mut MachineHandle,
    src: u32,
    dst: u32,
    class: u32,
    out: &mut [ChannelRecord],
) -> Outcome
    ensures held { OnHeld (PutsRoute src dst class out.old out.new) (held handle.old)
        (held handle.new) result }
    ensures empty { held handle.old ≡ None → out.new ≡ out.old }
{
    match handle.machine() {
        Some(machine) => put_route(machine.machine().torus(), src, dst, class, out),
        None => Outcome::empty(),
    }
}
