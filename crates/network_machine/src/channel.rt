//! A channel, with what stands at its two ends, and what moves make of it.

ghost use Rattle.std.specs.Prelude.{◌≡◌, ◌<◌, ◌^◌, true, false, cond, Some, None};
ghost use Rattle.std.specs.Prelude.{if◌then◌else◌};
ghost use Rattle.wormhole.specs.State.{NetLine};
ghost use Rattle.wormhole.specs.Events.{unlatched};
ghost use Rattle.network_machine.specs.Lines.{ShowsLine, ChannelHasRoom, TakesFlit, PutsFlit};
ghost use Rattle.network_machine.specs.Lines.{PutsFrom, Credits, Accepts, Begins, SendsMore};
ghost use Rattle.network_machine.specs.Lets.{LetsTake, LetsReturn, LetsAccept, LetsBegin, LetsGoOn};
ghost use Rattle.network_machine.specs.Lets.{TellsFlits};

use crate::flit::{head_flit, rest_flit};
use crate::moves::Hindrance;
use arrayvec::ArrayVec;

/// A channel of a network. It holds 8 flits at most.
#[derive(Drop)]
pub struct Channel {
    /// The flits in it, the first to come out first.
    pub flits: ArrayVec<u64, 8>,
    /// The credits that its sending end holds.
    pub held: u64,
    /// Those that are on their way back there.
    pub returning: u64,
    /// The flit that the router behind it has taken.
    pub latch: Option<u64>,
    /// The input that owns it.
    pub owner: Option<usize>,
    /// How many flits of a packet in course its sender has yet to put.
    pub left: u64,
}

/// The router behind the channel takes its first flit, if its latch is empty.
pub fn take(channel: &mut Channel) -> bool
    requires { ChannelHasRoom channel.old }
    ensures room { ChannelHasRoom channel.new }
    ensures owner { channel.new.owner ≡ channel.old.owner }
    ensures stays { result ≡ false → channel.new ≡ channel.old }
    ensures line { (l : NetLine) → ShowsLine l channel.old → TakesFlit l channel.new result }
{
    if channel.latch.is_some() || channel.flits.is_empty() {
        return false;
    }
    let flit = channel.flits.remove(0);
    channel.returning += 1;
    channel.latch = Some(flit);
    true
}

/// A flit is put, if a credit is held.
pub fn put(channel: &mut Channel, flit: u64) -> bool
    requires { ChannelHasRoom channel.old }
    ensures room { ChannelHasRoom channel.new }
    ensures left { channel.new.left ≡ channel.old.left }
    ensures owner { channel.new.owner ≡ channel.old.owner }
    ensures stays { result ≡ false → channel.new ≡ channel.old }
    ensures line { (l : NetLine) → ShowsLine l channel.old → PutsFlit l channel.new flit result }
{
    if channel.held == 0 {
        return false;
    }
    channel.flits.push(flit);
    channel.held -= 1;
    true
}

/// A credit comes back, if one is on its way.
pub fn credit(channel: &mut Channel) -> bool
    requires { ChannelHasRoom channel.old }
    ensures room { ChannelHasRoom channel.new }
    ensures owner { channel.new.owner ≡ channel.old.owner }
    ensures stays { result ≡ false → channel.new ≡ channel.old }
    ensures line { (l : NetLine) → ShowsLine l channel.old → Credits l channel.new result }
{
    if channel.returning == 0 {
        return false;
    }
    channel.returning -= 1;
    channel.held += 1;
    true
}

/// The owner of a channel into which input x put a flit.
fn owner_after(x: usize, is_tail: bool) -> Option<usize>
    ensures { result ≡ cond is_tail None (Some x) }
{
    if is_tail { None } else { Some(x) }
}

/// A flit is put from input x, which owns the channel afterwards unless the flit `is_tail`.
pub fn put_from(channel: &mut Channel, flit: u64, x: usize, is_tail: bool) -> bool
    requires { ChannelHasRoom channel.old }
    ensures room { ChannelHasRoom channel.new }
    ensures owner { channel.new.owner
        ≡ (if result then cond is_tail None (Some x) else channel.old.owner) }
    ensures stays { result ≡ false → channel.new ≡ channel.old }
    ensures line { (l : NetLine) → ShowsLine l channel.old
        → PutsFrom l channel.new flit x is_tail result }
{
    if !put(channel, flit) {
        return false;
    }
    channel.owner = owner_after(x, is_tail);
    true
}

/// The flit in the latch is gone.
pub fn unlatch(channel: &mut Channel)
    requires { ChannelHasRoom channel.old }
    ensures room { ChannelHasRoom channel.new }
    ensures owner { channel.new.owner ≡ channel.old.owner }
    ensures line { (l : NetLine) → ShowsLine l channel.old → ShowsLine (unlatched l) channel.new }
{
    channel.latch = None;
}

/// A receiver takes the first flit, if there is one.
pub fn accept(channel: &mut Channel) -> bool
    requires { ChannelHasRoom channel.old }
    ensures room { ChannelHasRoom channel.new }
    ensures owner { channel.new.owner ≡ channel.old.owner }
    ensures line { (l : NetLine) → ShowsLine l channel.old → Accepts l channel.new result }
{
    if channel.flits.is_empty() {
        return false;
    }
    channel.flits.remove(0);
    channel.returning += 1;
    true
}

/// A sender begins a packet of this length to an ejection channel, if none is in course and it holds
/// a credit.
pub fn begin(channel: &mut Channel, to: usize, length: u64) -> bool
    requires room { ChannelHasRoom channel.old }
    requires to { to < 2 ^ 60 }
    ensures room { ChannelHasRoom channel.new }
    ensures owner { channel.new.owner ≡ channel.old.owner }
    ensures line { (l : NetLine) → ShowsLine l channel.old → Begins l channel.new to length result }
{
    if channel.left > 0 || length == 0 {
        return false;
    }
    if !put(channel, head_flit(to, length)) {
        return false;
    }
    channel.left = length - 1;
    true
}

/// A sender puts the next flit of the packet in course, if it holds a credit.
pub fn send_more(channel: &mut Channel) -> bool
    requires { ChannelHasRoom channel.old }
    ensures room { ChannelHasRoom channel.new }
    ensures owner { channel.new.owner ≡ channel.old.owner }
    ensures stays { result ≡ false → channel.new ≡ channel.old }
    ensures line { (l : NetLine) → ShowsLine l channel.old → SendsMore l channel.new result }
{
    if channel.left == 0 {
        return false;
    }
    if !put(channel, rest_flit(channel.left)) {
        return false;
    }
    channel.left -= 1;
    true
}

/// Why the router behind a channel can't take a flit, where it can't; x is its number.
pub fn take_hindrance(channel: &Channel, x: usize) -> Option<Hindrance>
    ensures { (l : NetLine) → ShowsLine l channel.now → LetsTake l result }
{
    if channel.latch.is_some() {
        return Some(Hindrance::LatchFull(x));
    }
    if channel.flits.is_empty() {
        return Some(Hindrance::Empty(x));
    }
    None
}

/// Why no credit comes back, where none does.
pub fn credit_hindrance(channel: &Channel, x: usize) -> Option<Hindrance>
    ensures { (l : NetLine) → ShowsLine l channel.now → LetsReturn l result }
{
    if channel.returning == 0 {
        return Some(Hindrance::NotReturning(x));
    }
    None
}

/// Why the receiver of a channel can't take a flit, where none is there.
pub fn accept_hindrance(channel: &Channel, x: usize) -> Option<Hindrance>
    ensures { (l : NetLine) → ShowsLine l channel.now → LetsAccept l result }
{
    if channel.flits.is_empty() {
        return Some(Hindrance::Empty(x));
    }
    None
}

/// Why a sender can't begin a packet, where it can't.
pub fn begin_hindrance(channel: &Channel, x: usize) -> Option<Hindrance>
    ensures { (l : NetLine) → ShowsLine l channel.now → LetsBegin l result }
{
    if channel.left > 0 {
        return Some(Hindrance::InCourse(x));
    }
    if channel.held == 0 {
        return Some(Hindrance::NoCredit(x));
    }
    None
}

/// Why a sender can't go on with its packet, where it can't.
pub fn more_hindrance(channel: &Channel, x: usize) -> Option<Hindrance>
    ensures { (l : NetLine) → ShowsLine l channel.now → LetsGoOn l result }
{
    if channel.left == 0 {
        return Some(Hindrance::NotInCourse(x));
    }
    if channel.held == 0 {
        return Some(Hindrance::NoCredit(x));
    }
    None
}

/// Whether a flit is in a channel or in the latch behind it.
pub fn has_flit(channel: &Channel) -> bool
    ensures { (l : NetLine) → ShowsLine l channel.now → TellsFlits l result }
{
    channel.latch.is_some() || !channel.flits.is_empty()
}
