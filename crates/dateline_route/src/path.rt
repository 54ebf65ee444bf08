//! Whole routes from tile to tile.

ghost use Rattle.std.specs.Prelude.{◌≡◌, ◌+◌, ◌<◌, ◌≤◌, ◌++◌, length, All};
ghost use Rattle.torus.specs.Shape.{tiles_of, dims_of, digit_of};
ghost use Rattle.dateline_route.specs.Walk.{IsChannel};
ghost use Rattle.dateline_route.specs.Route.{with_digit, dimension_hops, route_of};

use crate::hop::is_dateline_hop;
use crate::ring::{hops_by, shorter_way};
use crate::{Channel, Kind};
use arrayvec::ArrayVec;
use torus::{Class, Torus};

/// The route of a packet of this class from tile `src` to tile `dst`: the injection of `src`; for
/// each dimension in rising order the hops that bring its digit to that of `dst`, the shorter way (a
/// tie goes plus), on bit 1 from the dateline hop of the dimension on; and the ejection of `dst`. It
/// has 2 to 10 channels.
pub fn route(torus: &Torus, src: u32, dst: u32, class: Class) -> ArrayVec<Channel, 14>
    requires src { src < tiles_of torus.now }
    requires dst { dst < tiles_of torus.now }
    ensures route { result.items ≡ route_of torus.now src dst class }
    ensures channels { All (IsChannel torus.now) result.items }
    ensures some { 2 ≤ length result.items }
    ensures few { length result.items ≤ 10 }
{
    let mut channels = ArrayVec::new();
    channels.push(Channel {
        tile: src,
        class,
        kind: Kind::Injection,
    });
    let mut at = src;
    for dim in 0..torus.dims() {
        at = push_hops(torus, at, dst, dim, class, &mut channels);
    }
    channels.push(Channel {
        tile: dst,
        class,
        kind: Kind::Ejection,
    });
    channels
}

/// Appends the hops that bring digit `dim` of tile `start` to that of `dst`: at most four. Answers
/// the tile that they lead to.
fn push_hops(
    torus: &Torus,
    start: u32,
    dst: u32,
    dim: u32,
    class: Class,
    channels: &mut ArrayVec<Channel, 14>,
) -> u32
    requires start { start < tiles_of torus.now }
    requires dst { dst < tiles_of torus.now }
    requires dimension { dim < dims_of torus.now }
    requires room { length channels.old.items + 4 ≤ 14 }
    ensures hops { channels.new.items
        ≡ channels.old.items ++ dimension_hops torus.now start dst class dim }
    ensures tile { result ≡ with_digit torus.now start dim (digit_of torus.now dst dim) }
    ensures few { length channels.new.items ≤ length channels.old.items + 4 }
{
    let radix = torus.radix_of(dim);
    let here = torus.digit(start, dim);
    let there = torus.digit(dst, dim);
    let dir = shorter_way(radix, here, there);
    let mut at = start;
    let mut bit = false;
    for _hop in 0..hops_by(dir, radix, here, there) {
        bit |= is_dateline_hop(torus, at, dim, dir);
        channels.push(Channel {
            tile: at,
            class,
            kind: Kind::Hop { dim, dir, bit },
        });
        at = torus.neighbour(at, dim, dir);
    }
    at
}
