//! Flits: words of 64 bits that go over the wires.

ghost use Rattle.std.specs.Prelude.{◌≡◌, ◌<◌, ◌^◌, ◌↔◌, IsTrue};
ghost use Rattle.packet.specs.Flit.{field, operation_told};
ghost use Rattle.packet.specs.Flits.{head_of, is_tail};

use crate::heading::Head;
use torus::Class;

/// The bit of a packet's first flit.
pub(crate) const HEAD: u64 = 1 << 63;

/// The bit of a packet's last flit.
pub(crate) const TAIL: u64 = 1 << 62;

/// The bit of every flit, so that no flit is 0.
pub(crate) const FLIT: u64 = 1 << 61;

/// The number that `width` bits of a flit make, of which `low` is the lowest.
pub(crate) fn field(flit: u64, low: u32, width: u32) -> u64
    requires low { low < 64 }
    requires width { width < 64 }
    ensures value { result ≡ field flit low width }
    ensures below { result < 2 ^ width }
{
    (flit >> low) % (1 << width)
}

/// The number of the operation that a head flit carries.
pub(crate) fn operation_told(flit: u64) -> u64
    ensures value { result ≡ operation_told flit }
    ensures below { result < 16 }
{
    field(flit, 40, 1) * 8 + field(flit, 58, 3)
}

/// What a router reads in a head flit: `None` exactly if the word is no head flit.
pub fn head(flit: u64) -> Option<Head>
    ensures { result ≡ head_of flit }
{
    if field(flit, 63, 1) == 0 || field(flit, 61, 1) == 0 {
        return None;
    }
    let class = if field(flit, 57, 1) == 0 {
        Class::Request
    } else {
        Class::Reply
    };
    Some(Head {
        destination: field(flit, 51, 6) as u32,
        class,
    })
}

/// Whether a flit is the last of its packet.
pub fn is_tail(flit: u64) -> bool
    ensures value { result ≡ is_tail flit }
    ensures bit { IsTrue result ↔ (field flit 62 1 ≡ 1) }
{
    field(flit, 62, 1) == 1
}
