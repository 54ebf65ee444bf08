//! What a network's table has, and what is judged of it. Channels are named by their numbers, from 0.

use std::alloc::{Allocator, Global};

/// What a channel is.
#[derive(Clone, Copy, PartialEq, Eq)]
pub enum Kind {
    /// An injection channel: a sender puts flits into it.
    Injection,
    /// A hop, from a router to a router.
    Hop,
    /// An ejection channel: a receiver takes flits from it.
    Ejection,
}

/// Packets go from an injection channel to an ejection channel.
#[derive(Clone, Copy)]
pub struct Join {
    /// The injection channel.
    pub from: usize,
    /// The ejection channel.
    pub to: usize,
}

/// Who takes packets from an ejection channel answers them on an injection channel.
#[derive(Clone, Copy)]
pub struct Reply {
    /// The ejection channel.
    pub from: usize,
    /// The injection channel.
    pub to: usize,
}

/// Why the walk from a channel to another is no route. A step is counted from 0, the first channel.
#[derive(Clone, Copy)]
pub enum Why {
    /// The first is no injection channel.
    NoSender,
    /// The second is no ejection channel.
    NoReceiver,
    /// At this step it is beyond the channels.
    Leaves(usize),
    /// At this step it comes to another ejection channel.
    Ejects(usize),
    /// At this step it comes to an injection channel.
    Injects(usize),
    /// It goes round for ever.
    Round,
}

/// A source-destination pair without a route.
#[derive(Clone, Copy)]
pub struct NoRoute {
    /// The pair.
    pub join: Join,
    /// Why its walk is no route.
    pub why: Why,
}

/// How a channel leads on to another.
#[derive(Clone, Copy)]
pub enum By {
    /// Packets to this ejection channel go from the one on to the other.
    To(usize),
    /// Packets from the one are answered on the other.
    Replied,
}

/// A channel, and how it leads on.
#[derive(Clone, Copy)]
pub struct Link {
    /// The channel.
    pub channel: usize,
    /// How it leads on.
    pub by: By,
}

/// What is judged of a network.
#[derive(Drop)]
pub enum Verdict<A: Allocator = Global> {
    /// A number for each channel, in channel order: they rise along every route and over every reply.
    Rising(Vec<usize, A>),
    /// The first source-destination pair without a route.
    NoRoute(NoRoute),
    /// Channels that wait for one another in a cycle: each leads on to the next, and the last to the
    /// first.
    Cycle(Vec<Link, A>),
}
