//! How a run ends.

ghost use Rattle.std.specs.Prelude.{◌<◌, ℕ, length, IfSome, IfNone};
ghost use Rattle.network_machine.specs.Endings.{IsFirstAt, PreventsAllAt, IsEnding};
ghost use Rattle.network_machine.specs.Endings.{HoldsFlit, HoldsNoFlit};

use crate::channel::{Channel, has_flit};
use crate::machine::Machine;
use crate::moves::{Ending, Move};
use std::alloc::Allocator;

/// A channel with a flit, or with one in the latch behind it.
fn standing(channels: &[Channel]) -> Option<usize>
    ensures some { IfSome result (HoldsFlit channels.now) }
    ensures none { IfNone result ((x : ℕ) → x < length channels.now → HoldsNoFlit channels.now x) }
{
    for x in 0..channels.len() {
        if has_flit(&channels[x]) {
            return Some(x);
        }
    }
    None
}

impl<'a, A: Allocator> Machine<'a, A> {
    /// The first move at a channel that an event makes, in the order more, take, put, accept, credit.
    fn first_at(&self, x: usize) -> Option<Move>
        ensures some { IfSome result (IsFirstAt self.now x) }
        ensures none { IfNone result (PreventsAllAt self.now x) }
    {
        if self.is_free(Move::More(x)) {
            return Some(Move::More(x));
        }
        if self.is_free(Move::Take(x)) {
            return Some(Move::Take(x));
        }
        if self.is_free(Move::Put(x)) {
            return Some(Move::Put(x));
        }
        if self.is_free(Move::Accept(x)) {
            return Some(Move::Accept(x));
        }
        if self.is_free(Move::Credit(x)) {
            return Some(Move::Credit(x));
        }
        None
    }

    /// How a run that led here ends: deadlocked, empty, or with the first move that may still be made
    /// without a new packet.
    pub fn ending(&self) -> Ending
        ensures { IsEnding self.now result }
    {
        for x in 0..self.channels() {
            if let Some(first) = self.first_at(x) {
                return Ending::Goes(first);
            }
        }
        match standing(&self.channels) {
            Some(_) => Ending::Locked,
            None => Ending::Empty,
        }
    }
}
