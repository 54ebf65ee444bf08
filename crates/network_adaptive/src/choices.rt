//! The graph of the choices for one destination.

ghost use Rattle.std.specs.Prelude.{◌≡◌, ◌+◌, ◌*◌, ◌<◌, ◌≤◌, length, slice_index};
ghost use Rattle.rising.specs.Chains.{IsNextColumn};
ghost use Rattle.network_adaptive.specs.Travel.{chosen_at, choice_graph, is_left};

use crate::spread::goes_on;
use network_judge::Kind;
use network_judge::walk::cell;
use rising::Graph;

/// The choices behind the channels that packets to one destination come to.
#[derive(Drop)]
pub struct Choices<'a> {
    /// The kind of each channel.
    pub kinds: &'a [Kind],
    /// The choices.
    pub choices: &'a [u32],
    /// Where those for the destination begin.
    pub base: usize,
    /// How many places each channel has.
    pub ways: usize,
    /// The channels that packets come to.
    pub seen: &'a [bool],
    ghost room: { base + length kinds.now * ways ≤ length choices.now },
    ghost size: { length seen.now ≡ length kinds.now },
}

impl<'a> Choices<'a> {
    /// The choice behind a channel at a place.
    pub(crate) fn choice(&self, x: usize, place: usize) -> usize
        requires x { x < length self.now.kinds.now }
        requires place { place < self.now.ways }
        ensures { result ≡ chosen_at self.now.choices.now self.now.base self.now.ways x place }
    {
        self.choices[self.base + cell(self.kinds.len(), self.ways, x, place)] as usize
    }

    /// Whether packets that come to a channel go on from it.
    pub(crate) fn goes_on(&self, x: usize) -> bool
        requires x { x < length self.now.kinds.now }
        ensures { result ≡ is_left self.now.kinds.now self.now.seen.now x }
    {
        self.seen[x] && goes_on(self.kinds, x)
    }

    /// The first place from one on at which packets go on from a channel, or the number of places.
    fn take_from(&self, x: usize, place: usize) -> usize
        requires x { x < length self.now.kinds.now }
        requires place { place ≤ self.now.ways }
        ensures { IsNextColumn (choice_graph self.now.kinds.now self.now.choices.now self.now.base
            self.now.ways self.now.seen.now) x place result }
    {
        if !self.goes_on(x) {
            return self.ways;
        }
        let mut at = place;
        while at < self.ways && self.choice(x, at) >= self.kinds.len() {
            at += 1;
        }
        at
    }
}

impl<'a> Graph for Choices<'a> {
    ghost digraph = { λ c. choice_graph c.kinds.now c.choices.now c.base c.ways c.seen.now };

    fn nodes(&self) -> usize {
        self.kinds.len()
    }

    fn columns(&self) -> usize {
        self.ways
    }

    fn first(&self, node: usize) -> usize {
        self.take_from(node, 0)
    }

    fn next(&self, node: usize, column: usize) -> usize {
        self.take_from(node, column + 1)
    }

    fn end(&self, node: usize, column: usize) -> usize {
        self.choice(node, column)
    }
}
