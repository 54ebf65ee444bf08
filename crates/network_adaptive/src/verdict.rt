//! What is judged of a network whose routers choose.

use std::alloc::{Allocator, Global};

/// Packets to a channel come to another one without an escape.
#[derive(Clone, Copy)]
pub struct NoEscape {
    /// The ejection channel that they go to.
    pub to: usize,
    /// The channel that they come to.
    pub at: usize,
}

/// Packets to a channel can go round: choices lead them from another channel, which they come to, back to
/// it.
#[derive(Clone, Copy)]
pub struct Round {
    /// The ejection channel that they go to.
    pub to: usize,
    /// The channel that they can come back to.
    pub at: usize,
}

/// How far packets can go.
#[derive(Clone, Copy)]
pub enum Travel {
    /// Each choice brings a packet nearer to its ejection channel, and the network's work is bounded.
    /// Packets go over so many channels at most, from their injection channel to their ejection channel,
    /// and some packet may go over so many; 0 where there are no packets.
    Bounded(usize),
    /// Packets can go round: they never deadlock, but nothing bounds how far they go.
    Round(Round),
}

/// How a channel of a cycle leads on to the next one.
#[derive(Drop)]
pub enum How<A: Allocator = Global> {
    /// A packet to this ejection channel that holds the one can go on over these channels, none of them
    /// an escape, and may then wait for the next one.
    Over(usize, Vec<usize, A>),
    /// Packets from the one are answered on this channel, the next one.
    Replied(usize),
}

/// A channel of a cycle, and how it leads on.
#[derive(Drop)]
pub struct Dependency<A: Allocator = Global> {
    /// The channel.
    pub channel: usize,
    /// How it leads on.
    pub how: How<A>,
}

/// What is judged of a network.
#[derive(Drop)]
pub enum Verdict<A: Allocator = Global> {
    /// A number for each channel, in channel order: they rise over every extended dependency and
    /// over every reply. And how far packets can go.
    Rising(Vec<usize, A>, Travel),
    /// The first channel without an escape, by destination.
    NoEscape(NoEscape),
    /// Channels that wait for one another in a cycle: each leads on to the next, and the last to
    /// the first.
    Cycle(Vec<Dependency<A>, A>),
}
