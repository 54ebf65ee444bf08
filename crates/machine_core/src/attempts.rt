//! Attempts of the agents of a tile, each of its kind, and the rounds that they make, in which agents that
//! are asleep are left out.

ghost use Rattle.std.specs.Prelude.{◌≡◌, ◌<◌, ◌+◌, ◌*◌, true, false, None};
ghost use Rattle.torus.specs.Shape.{tiles_of, dims_of};
ghost use Rattle.channel_number.specs.Ports.{port_count};
ghost use Rattle.machine_parts.specs.Rounds.{moves_in};
ghost use Rattle.machine_parts.specs.Core.{step, attempts_of, round_at, round};
ghost use Rattle.machine_parts.specs.Machine.{RunsOn, MakesMove, Steps, core_after, built_to};
ghost use Rattle.machine_parts.specs.Machine.{all_finished, core_next};
ghost use Rattle.torus.specs.Choices.{processor_choices, bank_choices, router_choices};
ghost use Rattle.torus.specs.Choices.{is_of_processor, is_of_bank};

use crate::machine::Machine;
use crate::noting::{Counts, lacks_room, note};
use std::alloc::Allocator;
use torus::{Choice, Stepped};

impl<A: Allocator> Machine<A> {
    /// Attempts a choice of a tile's processor.
    #[inline(always)]
    pub(crate) fn step_processor(&mut self, tile: usize, choice: Choice) -> Stepped
        requires { tile < tiles_of self.old.shape }
        ensures { Steps self.old self.new result (record { agent = 3 * tile; choice = choice }) }
    {
        let before = Counts::of(&self.tiles[tile]);
        let Some(op) = self.tiles[tile].attempt_processor(choice, &mut self.row) else {
            return Stepped::Idle;
        };
        self.awake.moved(3 * tile, op);
        self.ports.wake(op);
        note(self.tiles.as_slice(), &mut self.book, tile, before);
        self.left -= 1;
        Stepped::Moved
    }

    /// Attempts a choice of a tile's router: no event is noted of it.
    #[inline(always)]
    pub(crate) fn step_router(&mut self, tile: usize, choice: Choice) -> Stepped
        requires { tile < tiles_of self.old.shape }
        ensures { Steps self.old self.new result
            (record { agent = 3 * tile + 1; choice = choice }) }
    {
        let Some(op) = self.tiles[tile].attempt_router(choice, &mut self.row) else {
            return Stepped::Idle;
        };
        self.awake.moved(3 * tile + 1, op);
        self.ports.router_moved(tile, choice, op);
        self.left -= 1;
        Stepped::Moved
    }

    /// Attempts a choice of a tile's bank.
    #[inline(always)]
    pub(crate) fn step_bank(&mut self, tile: usize, choice: Choice) -> Stepped
        requires { tile < tiles_of self.old.shape }
        ensures { Steps self.old self.new result
            (record { agent = 3 * tile + 2; choice = choice }) }
    {
        if lacks_room(&self.tiles[tile], choice) {
            return Stepped::Idle;
        }
        let before = Counts::of(&self.tiles[tile]);
        let Some(op) = self.tiles[tile].attempt_bank(choice, &mut self.row) else {
            return Stepped::Idle;
        };
        self.awake.moved(3 * tile + 2, op);
        self.ports.wake(op);
        note(self.tiles.as_slice(), &mut self.book, tile, before);
        self.left -= 1;
        Stepped::Moved
    }

    /// Attempts a choice of a tile's processor, each in code of its own, where the choice is known.
    pub(crate) fn step_processor_by(&mut self, tile: usize, choice: Choice) -> Stepped
        requires { tile < tiles_of self.old.shape }
        ensures { Steps self.old self.new result (record { agent = 3 * tile; choice = choice }) }
    {
        match choice {
            Choice::Send => self.step_processor(tile, Choice::Send),
            Choice::Take => self.step_processor(tile, Choice::Take),
            Choice::Credit => self.step_processor(tile, Choice::Credit),
            Choice::Done => self.step_processor(tile, Choice::Done),
            Choice::Look => self.step_processor(tile, Choice::Look),
            _ => self.step_processor(tile, choice),
        }
    }

    /// Attempts a choice of a tile's router, each kind in code of its own.
    pub(crate) fn step_router_by(&mut self, tile: usize, choice: Choice) -> Stepped
        requires { tile < tiles_of self.old.shape }
        ensures { Steps self.old self.new result
            (record { agent = 3 * tile + 1; choice = choice }) }
    {
        match choice {
            Choice::TakeFrom(input) => self.step_router(tile, Choice::TakeFrom(input)),
            Choice::Put(input) => self.step_router(tile, Choice::Put(input)),
            Choice::CreditOf(output) => self.step_router(tile, Choice::CreditOf(output)),
            _ => self.step_router(tile, choice),
        }
    }

    /// Attempts a choice of a tile's bank, each in code of its own.
    pub(crate) fn step_bank_by(&mut self, tile: usize, choice: Choice) -> Stepped
        requires { tile < tiles_of self.old.shape }
        ensures { Steps self.old self.new result
            (record { agent = 3 * tile + 2; choice = choice }) }
    {
        match choice {
            Choice::Take => self.step_bank(tile, Choice::Take),
            Choice::Serve => self.step_bank(tile, Choice::Serve),
            Choice::Send => self.step_bank(tile, Choice::Send),
            Choice::Credit => self.step_bank(tile, Choice::Credit),
            _ => self.step_bank(tile, choice),
        }
    }

    /// Counts all choices of all agents as awake, so that the steps of a list have none to wake.
    pub(crate) fn rouse(&mut self)
        ensures { self.new ≡ self.old }
    {
        self.awake.rouse_all();
        self.ports.rouse_all();
    }

    /// Makes one round: attempts each choice of each agent once, the agents in their order. Where some
    /// script isn't finished, the round makes a move.
    pub fn round(&mut self)
        ensures state { self.new ≡ core_after self.old (round self.old.shape) }
        ensures moves { self.new.moves_left
            + moves_in (step (built_to self.old)) self.old.state (round self.old.shape)
            ≡ self.old.moves_left }
        ensures live { all_finished self.old.state ≡ false
            → MakesMove self.old (round self.old.shape) }
        ensures runs_on { RunsOn self.old self.new (round self.old.shape) }
    {
        let ports = 8 * self.torus.dims() + 2;
        for tile in 0..self.torus.tiles() {
            self.round_at(ports, tile);
        }
    }

    /// The part of a round at one tile, of so many ports of its router.
    fn round_at(&mut self, ports: u32, tile: u32)
        requires tile { tile < tiles_of self.old.shape }
        requires ports { ports ≡ port_count (dims_of self.old.shape) }
        ensures { self.new ≡ core_after self.old (round_at ports tile) }
    {
        let tile = tile as usize;
        self.turn_processor(tile);
        self.turn_router(tile, ports);
        self.turn_bank(tile);
    }

    /// The turn of a tile's processor: each of its choices, in order. It is left out where none counts as
    /// awake.
    fn turn_processor(&mut self, tile: usize)
        requires { tile < tiles_of self.old.shape }
        ensures { self.new ≡ core_after self.old (attempts_of (3 * tile) processor_choices) }
    {
        if !self.awake.is_processor_awake(3 * tile) {
            return;
        }
        self.try_processor(tile, Choice::Send);
        self.try_processor(tile, Choice::Take);
        self.try_processor(tile, Choice::Credit);
        self.try_processor(tile, Choice::Done);
        self.try_processor(tile, Choice::Look);
    }

    /// The turn of a tile's router, of so many ports.
    fn turn_router(&mut self, tile: usize, ports: u32)
        requires tile { tile < tiles_of self.old.shape }
        requires ports { ports ≡ port_count (dims_of self.old.shape) }
        ensures { self.new
            ≡ core_after self.old (attempts_of (3 * tile + 1) (router_choices ports)) }
    {
        if !self.awake.is_awake(3 * tile + 1) {
            return;
        }
        let left = self.left;
        self.attempt_takes(tile, ports);
        self.attempt_puts(tile, ports);
        self.attempt_credits(tile, ports);
        if self.left == left {
            self.awake.rest(3 * tile + 1);
        }
    }

    /// The turn of a tile's bank: each of its choices, in order. It is left out where none counts as
    /// awake.
    fn turn_bank(&mut self, tile: usize)
        requires { tile < tiles_of self.old.shape }
        ensures { self.new ≡ core_after self.old (attempts_of (3 * tile + 2) bank_choices) }
    {
        if !self.awake.is_bank_awake(3 * tile + 2) {
            return;
        }
        self.try_bank(tile, Choice::Take);
        self.try_bank(tile, Choice::Serve);
        self.try_bank(tile, Choice::Send);
        self.try_bank(tile, Choice::Credit);
    }

    /// Attempts a choice of a tile's processor, unless it counts as asleep; one that doesn't move falls
    /// asleep.
    #[inline(always)]
    fn try_processor(&mut self, tile: usize, choice: Choice)
        requires tile { tile < tiles_of self.old.shape }
        requires choice { is_of_processor choice ≡ true }
        ensures { self.new ≡ core_next self.old (record { agent = 3 * tile; choice = choice }) }
    {
        if !self.awake.is_choice_awake(3 * tile, choice) {
            return;
        }
        match self.step_processor(tile, choice) {
            Stepped::Moved => {}
            Stepped::Idle => self.choice_of_processor_sleeps(tile, choice),
        }
    }

    /// Attempts a choice of a tile's bank, unless it counts as asleep; one that doesn't move falls asleep.
    #[inline(always)]
    fn try_bank(&mut self, tile: usize, choice: Choice)
        requires tile { tile < tiles_of self.old.shape }
        requires choice { is_of_bank choice ≡ true }
        ensures { self.new ≡ core_next self.old (record { agent = 3 * tile + 2; choice = choice }) }
    {
        if !self.awake.is_choice_awake(3 * tile + 2, choice) {
            return;
        }
        match self.step_bank(tile, choice) {
            Stepped::Moved => {}
            Stepped::Idle => self.choice_of_bank_sleeps(tile, choice),
        }
    }

    /// Counts a choice of a tile's processor as asleep that isn't enabled.
    pub(crate) fn choice_of_processor_sleeps(&mut self, tile: usize, choice: Choice)
        requires tile { tile < tiles_of self.old.shape }
        requires choice { is_of_processor choice ≡ true }
        requires idle { step (built_to self.old) self.old.state
            (record { agent = 3 * tile; choice = choice }) ≡ None }
        ensures { self.new ≡ self.old }
    {
        self.awake.rest_choice(3 * tile, choice);
    }

    /// Counts a choice of a tile's bank as asleep that isn't enabled.
    pub(crate) fn choice_of_bank_sleeps(&mut self, tile: usize, choice: Choice)
        requires tile { tile < tiles_of self.old.shape }
        requires choice { is_of_bank choice ≡ true }
        requires idle { step (built_to self.old) self.old.state
            (record { agent = 3 * tile + 2; choice = choice }) ≡ None }
        ensures { self.new ≡ self.old }
    {
        self.awake.rest_choice(3 * tile + 2, choice);
    }
}
