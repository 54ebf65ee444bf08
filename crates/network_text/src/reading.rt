ghost use Rattle.std.specs.Prelude.{◌≡◌, ◌<◌, length, slice_get, OnOk, IfNone};
ghost use Rattle.network_judge.specs.Table.{is_sender, is_receiver};
ghost use Rattle.network_text.specs.Network.{nothing_read, is_hop, begun, has_reply, lacks};
ghost use Rattle.network_text.specs.Reading.{reading_of, IsRead};

use crate::reason::NetworkReason;
use network_judge::columns::columns_of;
use network_judge::walk::{is_receiver, is_sender, kind_at};
use network_judge::{Join, Kind, Reply};
use std::alloc::{AllocError, Allocator};

/// Which names are given under a number: that of the router, the routers at the ends of the channel,
/// and that of the channel.
#[derive(Clone, Copy)]
pub struct GivenNames {
    pub router: bool,
    pub link: bool,
    pub name: bool,
}

/// No name.
pub(crate) const UNNAMED: GivenNames = GivenNames {
    router: false,
    link: false,
    name: false,
};

/// What the lines of a network text gave so far.
#[derive(Drop)]
pub struct Reading<A: Allocator> {
    /// The kind of each channel; none before the number of channels is given.
    pub kinds: Vec<Kind, A>,
    pub joins: Vec<Join, A>,
    pub replies: Vec<Reply, A>,
    /// How many ejection channels there are.
    pub ejections: usize,
    /// Whether a choice was given.
    pub begun: bool,
    /// The column of each channel, once a choice was given.
    pub columns: Vec<usize, A>,
    /// The choices, once one was given; where there is none, the number of channels.
    pub choices: Vec<u32, A>,
    /// Which names are given under each number below 65536; none before the first.
    pub names: Vec<GivenNames, A>,
    /// How many flits each packet has; none where that is not given.
    pub flits: Option<u32>,
}

/// Whether a kind is that of hops.
pub(crate) fn is_hop(kind: Kind) -> bool
    ensures { result ≡ is_hop kind }
{
    match kind {
        Kind::Injection => false,
        Kind::Hop => true,
        Kind::Ejection => false,
    }
}

/// Whether a list has this reply.
pub(crate) fn has_reply(replies: &[Reply], from: usize, to: usize) -> bool
    ensures { result ≡ has_reply replies.now from to }
{
    for reply in replies {
        if reply.from == from && reply.to == to {
            return true;
        }
    }
    false
}

impl<A: Allocator + Copy> Reading<A> {
    /// Nothing is given.
    pub fn none(alloc: A) -> Reading<A>
        ensures none { reading_of result ≡ nothing_read }
        ensures read { IsRead result }
    {
        Reading {
            kinds: Vec::new(alloc),
            joins: Vec::new(alloc),
            replies: Vec::new(alloc),
            ejections: 0,
            begun: false,
            columns: Vec::new(alloc),
            choices: Vec::new(alloc),
            names: Vec::new(alloc),
            flits: None,
        }
    }

    /// Why the word at this place names no channel, where it doesn't.
    pub fn lacks(&self, place: u32, x: usize) -> Option<NetworkReason>
        ensures value { result ≡ lacks (reading_of self.now) place x }
        ensures there { IfNone result (x < length self.now.kinds.items) }
    {
        if self.kinds.is_empty() {
            return Some(NetworkReason::ChannelsFirst);
        }
        if x >= self.kinds.len() {
            return Some(NetworkReason::ChannelLimits(place, self.kinds.len()));
        }
        None
    }

    /// Whether a channel is an injection channel.
    pub(crate) fn injects(&self, x: usize) -> bool
        ensures { result ≡ is_sender (slice_get self.now.kinds.items x) }
    {
        is_sender(kind_at(&self.kinds, x))
    }

    /// Whether a channel is an ejection channel.
    pub fn ejects(&self, x: usize) -> bool
        ensures { result ≡ is_receiver (slice_get self.now.kinds.items x) }
    {
        is_receiver(kind_at(&self.kinds, x))
    }

    /// Has choices, none yet behind any channel, if none was given.
    ///
    /// Errors: out of memory.
    pub fn begin(&mut self, alloc: A) -> Result<(), AllocError>
        requires read { IsRead self.old }
        requires given { 0 < length self.old.kinds.items }
        ensures value { OnOk result (reading_of self.new ≡ begun (reading_of self.old)) }
        ensures read { OnOk result (IsRead self.new) }
    {
        if self.begun {
            return Ok(());
        }
        let count = self.kinds.len();
        let columns = columns_of(alloc, &self.kinds)?;
        let choices = vec![in alloc; count as u32; count * self.ejections]?;
        self.columns = columns;
        self.choices = choices;
        self.begun = true;
        Ok(())
    }
}
