//! The flits of a processor's requests.

ghost use Rattle.std.specs.Prelude.{◌≡◌, ◌<◌, ◌≤◌, ℕ, Option, IfSome};
ghost use Rattle.packet.specs.declared.kinds.Operation.{Operation};
ghost use Rattle.one_order.specs.ProcessorTable.{request_flits};
ghost use Rattle.net_interface.specs.Inside.{with_tag};

use arrayvec::ArrayVec;
use packet::{Operation, Packet, Request, flits};
use tag_table::Tag;

/// The flits of the request of an operation of a processor under a tag, to the operation's home bank.
pub(crate) fn request_flits(
    tiles: u32,
    tile: u32,
    next: Option<(Tag, Operation)>,
) -> ArrayVec<u64, 5>
    requires tile { tile < tiles }
    requires few { tiles ≤ 64 }
    requires tag { IfSome next (λ f. f.0.0 < 16) }
    ensures { (words : ℕ) (operation : Option (ℕ × Operation)) → next ≡ with_tag operation
        → result.items ≡ request_flits tiles words tile operation }
{
    let Some((tag, operation)) = next else {
        return ArrayVec::new();
    };
    flits(&Packet::Request(Request {
        destination: operation.address % tiles,
        source: tile,
        tag,
        word: operation.address / tiles,
        op: operation.op,
    }))
}
