//! What a seat says of its tiles, and a fabric of its routers, without a look at the row.
ghost use Rattle.std.specs.Prelude.{◌≡◌, ◌≤◌, ◌<◌, ◌↔◌, ℕ, false, IsTrue, IfNone, IfSome};
ghost use Rattle.torus.specs.Shape.{dims_of, tiles_of};
ghost use Rattle.channel_number.specs.Ports.{port_count};
ghost use Rattle.torus.specs.declared.step.Choice.TheVariants.{TakeFrom, Put, CreditOf};
ghost use Rattle.core_laws.specs.Routers.{of_router};
ghost use Rattle.fabric_rule.specs.Runs.{IsAcceptedLoad};
ghost use Rattle.fabric_rule.specs.Known.{enabled};
ghost use Rattle.fabric_rule.specs.Groups.{Owns};
ghost use Rattle.fabric_rule.specs.Ended.{AreAllFinished};
ghost use Rattle.fabric.specs.Asking.{HasSeen, IsNextTile};
ghost use Rattle.fabric.specs.Lawful.{HasLawfulRun};

use crate::seats::{Fabric, TileSeat};
use std::alloc::Allocator;
use torus::Choice;

impl<A: Allocator> Fabric<A> {
    /// How many ports a router of the torus has.
    pub fn ports(&self) -> u32
        ensures { result ≡ port_count (dims_of self.now.load.shape) }
    {
        self.ports
    }
}

impl<A: Allocator> TileSeat<A> {
    /// What was loaded was accepted, and the run that the seat knows is lawful.
    pub fn accepted(&self)
        ensures accepted { IsAcceptedLoad self.now.load }
        ensures one_order { HasLawfulRun self.now.load self.now.run }
    {
        let _ = &self.slots;
    }

    /// The least tile of the seat's that is this one or a later one; `None` exactly where there is none.
    pub fn next_tile(&self, from: usize) -> Option<usize>
        ensures some { IfSome result (IsNextTile self.now.tiles from) }
        ensures within { IfSome result (λ t. t < tiles_of self.now.load.shape) }
        ensures none { IfNone result ((t : ℕ) → from ≤ t → Owns self.now.tiles t → ⊥) }
    {
        for number in from..self.slots.len() {
            if self.slots[number].is_some() {
                return Some(number);
            }
        }
        None
    }

    /// Whether a choice of a processor or a bank is worth an attempt: `false` only where it isn't enabled
    /// after the run that the seat knows.
    #[inline(always)]
    pub fn is_awake(&self, agent: u32, choice: Choice) -> bool
        requires { agent < 192 }
        ensures { result ≡ false
            → enabled self.now.load self.now.run (record { agent = agent; choice = choice }) ≡ false }
    {
        self.flags.is_choice_awake(agent as usize, choice)
    }

    /// The first input of a tile's router, from one on, whose take is worth an attempt; `ports` where
    /// none is: the takes before it aren't enabled after the run that the seat knows.
    #[inline(always)]
    pub fn next_take(&self, tile: u32, from: u32, ports: u32) -> u32
        requires tile { tile < 64 }
        requires ports { (from ≤ ports) × (ports < 32) }
        ensures within { (from ≤ result) × (result ≤ ports) }
        ensures idle { (i : ℕ) → from ≤ i → i < result
            → enabled self.now.load self.now.run (of_router tile (TakeFrom i)) ≡ false }
    {
        match self.flags.next_take(tile as usize, from, ports) {
            Some(input) => input,
            None => ports,
        }
    }

    /// The first input of a tile's router, from one on, whose put is worth an attempt; `ports` where none
    /// is: the puts before it aren't enabled after the run that the seat knows.
    #[inline(always)]
    pub fn next_put(&self, tile: u32, from: u32, ports: u32) -> u32
        requires tile { tile < 64 }
        requires ports { (from ≤ ports) × (ports < 32) }
        ensures within { (from ≤ result) × (result ≤ ports) }
        ensures idle { (i : ℕ) → from ≤ i → i < result
            → enabled self.now.load self.now.run (of_router tile (Put i)) ≡ false }
    {
        match self.flags.next_put(tile as usize, from, ports) {
            Some(input) => input,
            None => ports,
        }
    }

    /// The first output of a tile's router, from one on, whose credit is worth an attempt; `ports` where
    /// none is: the credits before it aren't enabled after the run that the seat knows.
    #[inline(always)]
    pub fn next_credit(&self, tile: u32, from: u32, ports: u32) -> u32
        requires tile { tile < 64 }
        requires ports { (from ≤ ports) × (ports < 32) }
        ensures within { (from ≤ result) × (result ≤ ports) }
        ensures idle { (o : ℕ) → from ≤ o → o < result
            → enabled self.now.load self.now.run (of_router tile (CreditOf o)) ≡ false }
    {
        match self.flags.next_credit(tile as usize, from, ports) {
            Some(output) => output,
            None => ports,
        }
    }

    /// Whether the seat has a tile, and all its processors have seen the end. If so, every script is
    /// finished in the run that the seat knows.
    pub fn has_seen(&self) -> bool
        ensures seen { IsTrue result ↔ HasSeen self.now }
        ensures ended { IsTrue result → AreAllFinished self.now.load self.now.run }
    {
        let mut some = false;
        for number in 0..self.slots.len() {
            if let Some(tile) = &self.slots[number] {
                if !tile.has_seen() {
                    return false;
                }
                some = true;
            }
        }
        some
    }
}
