//! The attempts of routers in a round: those that don't count as awake are left out.

ghost use Rattle.std.specs.Prelude.{◌≡◌, ◌<◌, ◌≤◌, ◌+◌, ◌*◌, None};
ghost use Rattle.torus.specs.Shape.{tiles_of};
ghost use Rattle.torus.specs.Choices.{takes_of_all, puts_of_all, credits_of_all};
ghost use Rattle.torus.specs.declared.step.Choice.TheVariants.{TakeFrom, Put, CreditOf};
ghost use Rattle.machine_parts.specs.Core.{step, attempts_of};
ghost use Rattle.machine_parts.specs.Machine.{core_after, built_to};
ghost use Rattle.machine_core.specs.Rounds.{attempts_between};

use crate::machine::Machine;
use std::alloc::Allocator;
use torus::{Choice, Stepped};

impl<A: Allocator> Machine<A> {
    /// Attempts to take a flit of each input of a tile's router, in order; those asleep are left out.
    pub(crate) fn attempt_takes(&mut self, tile: usize, ports: u32)
        requires tile { tile < tiles_of self.old.shape }
        requires ports { ports < 32 }
        ensures { self.new
            ≡ core_after self.old (attempts_of (3 * tile + 1) (takes_of_all ports)) }
    {
        let mut from = 0;
        while from < ports {
            from = self.attempt_take(tile, from, ports);
        }
    }

    /// Attempts the first take of a tile's router from an input on that counts as awake, and answers the
    /// input after it, or the end where there is none: those between are asleep.
    fn attempt_take(&mut self, tile: usize, from: u32, ports: u32) -> u32
        requires tile { tile < tiles_of self.old.shape }
        requires from { from < ports }
        requires ports { ports < 32 }
        ensures state { self.new ≡ core_after self.old
            (attempts_between (λ input. TakeFrom input) (3 * tile + 1) from result) }
        ensures later { from < result }
        ensures within { result ≤ ports }
    {
        let Some(input) = self.ports.next_take(tile, from, ports) else {
            return ports;
        };
        match self.step_router(tile, Choice::TakeFrom(input)) {
            Stepped::Moved => input + 1,
            Stepped::Idle => {
                self.take_sleeps(tile, input);
                input + 1
            }
        }
    }

    /// Counts a take of a tile's router as asleep that isn't enabled.
    pub(crate) fn take_sleeps(&mut self, tile: usize, input: u32)
        requires tile { tile < tiles_of self.old.shape }
        requires idle { step (built_to self.old) self.old.state
            (record { agent = 3 * tile + 1; choice = TakeFrom input }) ≡ None }
        ensures { self.new ≡ self.old }
    {
        self.ports.rest_take(tile, input);
    }

    /// Attempts to put the flit of each input of a tile's router, in order; those asleep are left out.
    pub(crate) fn attempt_puts(&mut self, tile: usize, ports: u32)
        requires tile { tile < tiles_of self.old.shape }
        requires ports { ports < 32 }
        ensures { self.new
            ≡ core_after self.old (attempts_of (3 * tile + 1) (puts_of_all ports)) }
    {
        let mut from = 0;
        while from < ports {
            from = self.attempt_put(tile, from, ports);
        }
    }

    /// Attempts the first put of a tile's router from an input on that counts as awake, and answers the
    /// input after it, or the end where there is none: those between are asleep.
    fn attempt_put(&mut self, tile: usize, from: u32, ports: u32) -> u32
        requires tile { tile < tiles_of self.old.shape }
        requires from { from < ports }
        requires ports { ports < 32 }
        ensures state { self.new ≡ core_after self.old
            (attempts_between (λ input. Put input) (3 * tile + 1) from result) }
        ensures later { from < result }
        ensures within { result ≤ ports }
    {
        let Some(input) = self.ports.next_put(tile, from, ports) else {
            return ports;
        };
        match self.step_router(tile, Choice::Put(input)) {
            Stepped::Moved => input + 1,
            Stepped::Idle => {
                self.put_sleeps(tile, input);
                input + 1
            }
        }
    }

    /// Counts a put of a tile's router as asleep that isn't enabled.
    pub(crate) fn put_sleeps(&mut self, tile: usize, input: u32)
        requires tile { tile < tiles_of self.old.shape }
        requires idle { step (built_to self.old) self.old.state
            (record { agent = 3 * tile + 1; choice = Put input }) ≡ None }
        ensures { self.new ≡ self.old }
    {
        self.ports.rest_put(tile, input);
    }

    /// Attempts to find a credit of each output of a tile's router, in order; those asleep are left out.
    pub(crate) fn attempt_credits(&mut self, tile: usize, ports: u32)
        requires tile { tile < tiles_of self.old.shape }
        requires ports { ports < 32 }
        ensures { self.new
            ≡ core_after self.old (attempts_of (3 * tile + 1) (credits_of_all ports)) }
    {
        let mut from = 0;
        while from < ports {
            from = self.attempt_credit(tile, from, ports);
        }
    }

    /// Attempts the first credit of a tile's router from an output on that counts as awake, and answers the
    /// output after it, or the end where there is none: those between are asleep.
    fn attempt_credit(&mut self, tile: usize, from: u32, ports: u32) -> u32
        requires tile { tile < tiles_of self.old.shape }
        requires from { from < ports }
        requires ports { ports < 32 }
        ensures state { self.new ≡ core_after self.old
            (attempts_between (λ output. CreditOf output) (3 * tile + 1) from result) }
        ensures later { from < result }
        ensures within { result ≤ ports }
    {
        let Some(output) = self.ports.next_credit(tile, from, ports) else {
            return ports;
        };
        match self.step_router(tile, Choice::CreditOf(output)) {
            Stepped::Moved => output + 1,
            Stepped::Idle => {
                self.credit_sleeps(tile, output);
                output + 1
            }
        }
    }

    /// Counts a credit of a tile's router as asleep that isn't enabled.
    pub(crate) fn credit_sleeps(&mut self, tile: usize, output: u32)
        requires tile { tile < tiles_of self.old.shape }
        requires idle { step (built_to self.old) self.old.state
            (record { agent = 3 * tile + 1; choice = CreditOf output }) ≡ None }
        ensures { self.new ≡ self.old }
    {
        self.ports.rest_credit(tile, output);
    }
}
