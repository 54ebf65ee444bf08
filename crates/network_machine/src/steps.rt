//! Moves at the channels of a network, each an event of it, or none.

ghost use Rattle.std.specs.Prelude.{◌≡◌, ◌≢◌, ◌<◌, ◌^◌, true, false, ℕ, length, cond, Some, None};
ghost use Rattle.wormhole.specs.Net.{Net, IsParcel};
ghost use Rattle.wormhole.specs.State.{NetLine, update};
ghost use Rattle.wormhole.specs.Events.{unlatched};
ghost use Rattle.network_machine.specs.declared.moves.Move.TheVariants.{Send, More, Take, Credit};
ghost use Rattle.network_machine.specs.declared.moves.Move.TheVariants.{Accept};
ghost use Rattle.network_machine.specs.Moves.{ShowAll, ChannelsHaveRoom, MakesEvent, OthersStay};
ghost use Rattle.network_machine.specs.Packets.{packet_of};
ghost use Rattle.network_machine.specs.Owned.{SameOwners, OwnersAfter, AreOwned};
ghost use Rattle.network_machine.specs.Forwards.{PutsAt, IsLatchOutput, Forwards};

use crate::channel::{Channel, accept, begin, credit, put_from, send_more, take, unlatch};
use crate::moves::Packet;
use crate::owned::{Owned, owned_after};

/// The sender of a packet's injection channel begins it, if none is in course and it holds a credit.
pub(crate) fn begin_at(channels: &mut [Channel], packet: Packet) -> bool
    requires x { packet.from < length channels.old }
    requires to { packet.to < 2 ^ 60 }
    requires room { ChannelsHaveRoom channels.old }
    ensures count { length channels.new ≡ length channels.old }
    ensures room { ChannelsHaveRoom channels.new }
    ensures owners { SameOwners channels.old channels.new }
    ensures others { OthersStay channels.old channels.new packet.from packet.from }
    ensures lines { (n : Net) (ls : ℕ → NetLine) → packet.from < n.channels
        → n.injects packet.from ≡ true
        → (0 < packet.length → IsParcel n (packet_of packet.from packet.to packet.length))
        → ShowAll ls channels.old → MakesEvent n ls (Send packet) channels.new result }
{
    begin(&mut channels[packet.from], packet.to, packet.length)
}

/// The sender of injection channel x puts the next flit of its packet, if it holds a credit.
pub(crate) fn send_more_at(channels: &mut [Channel], x: usize) -> bool
    requires x { x < length channels.old }
    requires room { ChannelsHaveRoom channels.old }
    ensures count { length channels.new ≡ length channels.old }
    ensures room { ChannelsHaveRoom channels.new }
    ensures owners { SameOwners channels.old channels.new }
    ensures others { OthersStay channels.old channels.new x x }
    ensures stays { result ≡ false → channels.new ≡ channels.old }
    ensures lines { (n : Net) (ls : ℕ → NetLine) → x < n.channels → n.injects x ≡ true
        → ShowAll ls channels.old → MakesEvent n ls (More x) channels.new result }
{
    send_more(&mut channels[x])
}

/// The router behind channel x, which is no ejection channel, takes its first flit, if its latch is
/// empty.
pub(crate) fn take_at(channels: &mut [Channel], x: usize) -> bool
    requires x { x < length channels.old }
    requires room { ChannelsHaveRoom channels.old }
    ensures count { length channels.new ≡ length channels.old }
    ensures room { ChannelsHaveRoom channels.new }
    ensures owners { SameOwners channels.old channels.new }
    ensures others { OthersStay channels.old channels.new x x }
    ensures stays { result ≡ false → channels.new ≡ channels.old }
    ensures lines { (n : Net) (ls : ℕ → NetLine) → x < n.channels → n.ejects x ≡ false
        → ShowAll ls channels.old → MakesEvent n ls (Take x) channels.new result }
{
    take(&mut channels[x])
}

/// A credit of channel x comes back, if one is on its way.
pub(crate) fn credit_at(channels: &mut [Channel], x: usize) -> bool
    requires x { x < length channels.old }
    requires room { ChannelsHaveRoom channels.old }
    ensures count { length channels.new ≡ length channels.old }
    ensures room { ChannelsHaveRoom channels.new }
    ensures owners { SameOwners channels.old channels.new }
    ensures others { OthersStay channels.old channels.new x x }
    ensures stays { result ≡ false → channels.new ≡ channels.old }
    ensures lines { (n : Net) (ls : ℕ → NetLine) → x < n.channels
        → ShowAll ls channels.old → MakesEvent n ls (Credit x) channels.new result }
{
    credit(&mut channels[x])
}

/// The receiver of ejection channel x takes its first flit, if there is one.
pub(crate) fn accept_at(channels: &mut [Channel], x: usize) -> bool
    requires x { x < length channels.old }
    requires room { ChannelsHaveRoom channels.old }
    ensures count { length channels.new ≡ length channels.old }
    ensures room { ChannelsHaveRoom channels.new }
    ensures owners { SameOwners channels.old channels.new }
    ensures others { OthersStay channels.old channels.new x x }
    ensures lines { (n : Net) (ls : ℕ → NetLine) → x < n.channels → n.ejects x ≡ true
        → ShowAll ls channels.old → MakesEvent n ls (Accept x) channels.new result }
{
    accept(&mut channels[x])
}

/// A flit is put into channel y from input x, if a credit is held.
fn put_at(channels: &mut [Channel], y: usize, flit: u64, x: usize, is_tail: bool) -> bool
    requires y { y < length channels.old }
    requires room { ChannelsHaveRoom channels.old }
    ensures count { length channels.new ≡ length channels.old }
    ensures room { ChannelsHaveRoom channels.new }
    ensures owners { OwnersAfter channels.old channels.new x y is_tail result }
    ensures others { OthersStay channels.old channels.new y y }
    ensures stays { result ≡ false → channels.new ≡ channels.old }
    ensures lines { (ls : ℕ → NetLine) → ShowAll ls channels.old
        → PutsAt ls channels.new y flit x is_tail result }
{
    put_from(&mut channels[y], flit, x, is_tail)
}

/// The flit in the latch behind channel x is gone.
fn unlatch_at(channels: &mut [Channel], x: usize)
    requires x { x < length channels.old }
    requires room { ChannelsHaveRoom channels.old }
    ensures count { length channels.new ≡ length channels.old }
    ensures room { ChannelsHaveRoom channels.new }
    ensures owners { SameOwners channels.old channels.new }
    ensures others { OthersStay channels.old channels.new x x }
    ensures lines { (ls : ℕ → NetLine) → ShowAll ls channels.old
        → ShowAll (update ls x (unlatched (ls x))) channels.new }
{
    unlatch(&mut channels[x]);
}

/// The owner that a channel must have where input x puts a flit.
fn owner_before(is_head: bool, x: usize) -> Option<usize>
    ensures { result ≡ cond is_head None (Some x) }
{
    if is_head { None } else { Some(x) }
}

/// The flit in the latch behind channel x goes into channel y, if its owner allows it and a credit
/// is held.
fn forward_at(
    channels: &mut [Channel],
    x: usize,
    y: usize,
    flit: u64,
    is_head: bool,
    is_tail: bool,
) -> bool
    requires x { x < length channels.old }
    requires y { y < length channels.old }
    requires apart { x ≢ y }
    requires room { ChannelsHaveRoom channels.old }
    ensures count { length channels.new ≡ length channels.old }
    ensures room { ChannelsHaveRoom channels.new }
    ensures owners { OwnersAfter channels.old channels.new x y is_tail result }
    ensures others { OthersStay channels.old channels.new x y }
    ensures stays { result ≡ false → channels.new ≡ channels.old }
    ensures lines { (n : Net) (ls : ℕ → NetLine) → IsLatchOutput n ls x y flit is_head is_tail
        → ShowAll ls channels.old → Forwards n ls channels.new x y flit is_head result }
{
    let owner = owner_before(is_head, x);
    if channels[y].owner != owner {
        return false;
    }
    if !put_at(channels, y, flit, x, is_tail) {
        return false;
    }
    unlatch_at(channels, x);
    true
}

/// The flit in the latch behind channel x goes into channel y, as in `forward_at`, and what is known of the
/// channel that input x owns is kept right.
pub(crate) fn forward_known(
    channels: &mut [Channel],
    known: &mut [Owned],
    x: usize,
    y: usize,
    flit: u64,
    is_head: bool,
    is_tail: bool,
) -> bool
    requires x { x < length channels.old }
    requires y { y < length channels.old }
    requires apart { x ≢ y }
    requires room { ChannelsHaveRoom channels.old }
    requires many { x < length known.old }
    requires owned { AreOwned known.old channels.old }
    ensures count { length channels.new ≡ length channels.old }
    ensures room { ChannelsHaveRoom channels.new }
    ensures many { length known.new ≡ length known.old }
    ensures owned { AreOwned known.new channels.new }
    ensures others { OthersStay channels.old channels.new x y }
    ensures stays { result ≡ false → channels.new ≡ channels.old }
    ensures lines { (n : Net) (ls : ℕ → NetLine) → IsLatchOutput n ls x y flit is_head is_tail
        → ShowAll ls channels.old → Forwards n ls channels.new x y flit is_head result }
{
    if !forward_at(channels, x, y, flit, is_head, is_tail) {
        return false;
    }
    known[x] = owned_after(known[x], y, is_tail);
    true
}
