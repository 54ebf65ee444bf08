//! The source-destination pairs of a line `join all`.

ghost use Rattle.std.specs.Prelude.{◌≡◌, ◌≤◌, ◌++◌, length, IfOk, OnOk};
ghost use Rattle.network_text.specs.AllPairs.{is_end, channels_with, joins_from, every_join};

use network_judge::walk::{is_receiver, is_sender, kind_at};
use network_judge::{Join, Kind};
use std::alloc::{AllocError, Allocator};

/// Where packets begin, or where they end.
#[derive(Clone, Copy)]
pub(crate) enum End {
    /// A sender puts flits into the channel.
    Sender,
    /// A receiver takes flits from it.
    Receiver,
}

/// Whether a kind is that of such an end.
fn is_end(end: End, kind: Option<Kind>) -> bool
    ensures { result ≡ is_end end kind }
{
    match end {
        End::Sender => is_sender(kind),
        End::Receiver => is_receiver(kind),
    }
}

/// The channels of such ends, in their order.
///
/// Errors: out of memory.
pub(crate) fn channels_with<A: Allocator>(
    alloc: A,
    kinds: &[Kind],
    end: End,
) -> Result<Vec<usize, A>, AllocError>
    ensures value { IfOk result (λ v. v.items ≡ channels_with end kinds.now) }
    ensures few { IfOk result (λ v. length v.items ≤ length kinds.now) }
{
    let mut out = Vec::new(alloc);
    for x in 0..kinds.len() {
        if is_end(end, kind_at(kinds, x)) {
            out.push(x)?;
        }
    }
    Ok(out)
}

/// Joins a sender with each of these receivers.
fn put_joins<A: Allocator>(
    joins: &mut Vec<Join, A>,
    from: usize,
    receivers: &[usize],
) -> Result<(), AllocError>
    ensures { OnOk result (joins.new.items ≡ joins.old.items ++ joins_from receivers.now from) }
{
    for to in receivers {
        joins.push(Join { from, to: *to })?;
    }
    Ok(())
}

/// Joins each of these senders with each of these receivers.
///
/// Errors: out of memory.
pub(crate) fn put_every_join<A: Allocator>(
    joins: &mut Vec<Join, A>,
    senders: &[usize],
    receivers: &[usize],
) -> Result<(), AllocError>
    ensures { OnOk result
        (joins.new.items ≡ joins.old.items ++ every_join senders.now receivers.now) }
{
    for from in senders {
        put_joins(joins, *from, receivers)?;
    }
    Ok(())
}
