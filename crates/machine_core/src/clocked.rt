//! Clocked rounds: each choice that is enabled when a round begins is attempted once. A first pass marks
//! these choices, and a second one attempts them.

ghost use Rattle.std.specs.Prelude.{◌≡◌, ◌+◌, ◌*◌, ◌%◌, ◌<◌, ◌≤◌, ◌++◌, ℕ, false, List, length};
ghost use Rattle.std.specs.Prelude.{is_some};
ghost use Rattle.torus.specs.Shape.{tiles_of};
ghost use Rattle.torus.specs.declared.step.Step.{Step};
ghost use Rattle.machine_parts.specs.AbstractScripts.{AreFinished};
ghost use Rattle.machine_parts.specs.Rounds.{moves_in};
ghost use Rattle.machine_parts.specs.ProgressMoves.{moves_left};
ghost use Rattle.machine_parts.specs.Core.{Load, run_of, step};
ghost use Rattle.machine_parts.specs.Machine.{IsAfter, RunsOn, MakesMove, Steps};
ghost use Rattle.machine_parts.specs.Machine.{core_after, built_to, all_finished};
ghost use Rattle.machine_parts.specs.Ports.{is_raised};
ghost use Rattle.machine_core.specs.Clocked.{clocked_round, clocked_rounds, NeedsClocked};
ghost use Rattle.machine_core.specs.Marked.{attempt_in, can_move, marked_between, marked_at};
ghost use Rattle.machine_core.specs.Marked.{SkipsIdle, MarksPart, MarksTile, IsClear};
ghost use Rattle.machine_core.specs.Marked.{KeepsOtherMarks};

use crate::machine::Machine;
use crate::part::{Marks, Part, choice_in};
use machine_parts::PortSet;
use std::alloc::Allocator;
use torus::{Choice, Step, Stepped};

impl<A: Allocator> Machine<A> {
    /// Makes one clocked round: each choice that is enabled now is attempted once, in the order of a round,
    /// as clocked hardware does. The puts of each router begin at input `turn mod p`, where p is the number
    /// of its inputs. Where some script isn't finished, the round makes a move.
    pub fn clocked_round(&mut self, turn: u64)
        ensures state { self.new ≡ core_after self.old (clocked_round self.old turn) }
        ensures moves { self.new.moves_left
            + moves_in (step (built_to self.old)) self.old.state (clocked_round self.old turn)
            ≡ self.old.moves_left }
        ensures live { all_finished self.old.state ≡ false
            → MakesMove self.old (clocked_round self.old turn) }
        ensures runs_on { RunsOn self.old self.new (clocked_round self.old turn) }
    {
        let tiles = self.torus.tiles();
        let ports = 8 * self.torus.dims() + 2;
        let first = (turn % ports as u64) as u32;
        let marks = self.marks(ports);
        for tile in 0..tiles {
            self.attempt_at(ports, first, tile, &marks);
        }
    }

    /// Makes clocked rounds, with the turns from 0 on, until every script is finished, and answers how
    /// many: the least number that does, which is at most the moves that were left.
    pub fn finish_clocked(&mut self) -> u64
        ensures state { self.new ≡ core_after self.old (clocked_rounds self.old result) }
        ensures needed { NeedsClocked self.old result }
        ensures few { (l : Load) (steps : List Step) → IsAfter l self.old steps
            → result ≤ moves_left l steps (length steps) }
        ensures left { result ≤ self.old.moves_left }
        ensures runs_on { RunsOn self.old self.new (clocked_rounds self.old result) }
        ensures scripts { (l : Load) (before : List Step) → IsAfter l self.old before
            → AreFinished (run_of l (before ++ clocked_rounds self.old result))
            (length (before ++ clocked_rounds self.old result)) l.scripts }
    {
        self.reached();
        let mut rounds = 0;
        while !self.finished() {
            self.clocked_round(rounds);
            rounds += 1;
        }
        rounds
    }

    /// Marks of each tile what is enabled now, of so many ports of each router.
    pub(crate) fn marks(&mut self, ports: u32) -> Marks
        requires { ports < 32 }
        ensures same { self.new ≡ self.old }
        ensures marked { (t : ℕ) → t < tiles_of self.old.shape → MarksTile self.old ports t result }
    {
        let tiles = self.torus.tiles();
        let mut marks = Marks::none();
        for tile in 0..tiles {
            self.mark_at(ports, tile, &mut marks);
        }
        marks
    }

    /// Marks what is enabled at one tile.
    fn mark_at(&mut self, ports: u32, tile: u32, marks: &mut Marks)
        requires tile { tile < tiles_of self.old.shape }
        requires few { tile < 64 }
        requires ports { ports < 32 }
        requires clear { IsClear marks.old tile }
        ensures same { self.new ≡ self.old }
        ensures marked { MarksTile self.old ports tile marks.new }
        ensures others { KeepsOtherMarks tile marks.old marks.new }
    {
        let tile = tile as usize;
        self.mark(Part::Processor, tile, 5, &mut marks.processors);
        self.mark(Part::Takes, tile, ports, &mut marks.takes);
        self.mark(Part::Puts, tile, ports, &mut marks.puts);
        self.mark(Part::Credits, tile, ports, &mut marks.credits);
        self.mark(Part::Bank, tile, 4, &mut marks.banks);
    }

    /// Marks those of the first so many attempts of a tile's part that are enabled, where none is marked;
    /// the others fall asleep.
    #[inline(always)]
    fn mark(&mut self, part: Part, tile: usize, end: u32, marks: &mut PortSet)
        requires tile { tile < tiles_of self.old.shape }
        requires few { tile < 64 }
        requires end { end < 32 }
        ensures same { self.new ≡ self.old }
        ensures marked { MarksPart self.old part tile end marks.old marks.new }
    {
        let mut from = 0;
        while from < end {
            let Some(number) = self.next_awake(part, tile, from, end) else {
                return;
            };
            if self.can_move(part, tile, number) {
                marks.raise(tile, number);
            } else {
                self.falls_asleep(part, tile, number);
            }
            from = number + 1;
        }
    }

    /// The first attempt of a tile's part, from a number on and below an end, that may be enabled; those
    /// before it aren't. `None` where none may be.
    #[inline(always)]
    fn next_awake(&self, part: Part, tile: usize, from: u32, end: u32) -> Option<u32>
        requires tile { tile < 64 }
        requires from { from < end }
        requires end { end < 32 }
        ensures { SkipsIdle self.now part tile from end result }
    {
        match part {
            Part::Processor | Part::Bank => Some(from),
            Part::Takes => self.ports.next_take(tile, from, end),
            Part::Puts => self.ports.next_put(tile, from, end),
            Part::Credits => self.ports.next_credit(tile, from, end),
        }
    }

    /// Whether an attempt of a tile's part is enabled.
    #[inline(always)]
    fn can_move(&self, part: Part, tile: usize, number: u32) -> bool
        requires { tile < 64 }
        ensures { result ≡ can_move self.now part tile number }
    {
        let choice = choice_in(part, number);
        match part {
            Part::Processor => self.is_choice_enabled(3 * tile, choice),
            Part::Takes | Part::Puts | Part::Credits => self.enabled(Step {
                agent: 3 * tile as u32 + 1,
                choice,
            }),
            Part::Bank => self.is_choice_enabled(3 * tile + 2, choice),
        }
    }

    /// Whether a choice of an agent is enabled: not, where it doesn't count as awake.
    #[inline(always)]
    fn is_choice_enabled(&self, agent: usize, choice: Choice) -> bool
        requires { agent < 192 }
        ensures { result ≡ is_some (step (built_to self.now) self.now.state
            (record { agent = agent; choice = choice })) }
    {
        self.awake.is_choice_awake(agent, choice)
            && self.enabled(Step {
                agent: agent as u32,
                choice,
            })
    }

    /// Counts an attempt of a tile's part as asleep that isn't enabled.
    #[inline(always)]
    fn falls_asleep(&mut self, part: Part, tile: usize, number: u32)
        requires tile { tile < tiles_of self.old.shape }
        requires idle { can_move self.old part tile number ≡ false }
        ensures { self.new ≡ self.old }
    {
        match part {
            Part::Processor => self.choice_of_processor_sleeps(tile, choice_in(part, number)),
            Part::Takes => self.take_sleeps(tile, number),
            Part::Puts => self.put_sleeps(tile, number),
            Part::Credits => self.credit_sleeps(tile, number),
            Part::Bank => self.choice_of_bank_sleeps(tile, choice_in(part, number)),
        }
    }

    /// Attempts what is marked at one tile, of so many ports of its router, with its puts from an input on
    /// and then those before it.
    fn attempt_at(&mut self, ports: u32, first: u32, tile: u32, marks: &Marks)
        requires tile { tile < tiles_of self.old.shape }
        requires few { tile < 64 }
        requires ports { ports < 32 }
        requires first { first < ports }
        ensures { self.new ≡ core_after self.old (marked_at marks.now ports first tile) }
    {
        let tile = tile as usize;
        self.attempt_marked(Part::Processor, tile, 0, 5, &marks.processors);
        self.attempt_marked(Part::Takes, tile, 0, ports, &marks.takes);
        self.attempt_marked(Part::Puts, tile, first, ports, &marks.puts);
        self.attempt_marked(Part::Puts, tile, 0, first, &marks.puts);
        self.attempt_marked(Part::Credits, tile, 0, ports, &marks.credits);
        self.attempt_marked(Part::Bank, tile, 0, 4, &marks.banks);
    }

    /// Attempts what is marked of a tile's part, from a number on and below an end, in order.
    #[inline(always)]
    pub(crate) fn attempt_marked(
        &mut self,
        part: Part,
        tile: usize,
        from: u32,
        end: u32,
        marks: &PortSet,
    )
        requires tile { tile < tiles_of self.old.shape }
        requires few { tile < 64 }
        requires end { end < 32 }
        requires from { from ≤ end }
        ensures { self.new
            ≡ core_after self.old (marked_between (is_raised marks.now tile) part tile from end) }
    {
        let mut at = from;
        while at < end {
            let Some(number) = marks.next(tile, at, end) else {
                return;
            };
            let _ = self.attempt_part(part, tile, number);
            at = number + 1;
        }
    }

    /// Makes an attempt of a tile's part.
    #[inline(always)]
    fn attempt_part(&mut self, part: Part, tile: usize, number: u32) -> Stepped
        requires { tile < tiles_of self.old.shape }
        ensures { Steps self.old self.new result (attempt_in part tile number) }
    {
        match part {
            Part::Processor => self.step_processor_by(tile, choice_in(part, number)),
            Part::Takes => self.step_router(tile, Choice::TakeFrom(number)),
            Part::Puts => self.step_router(tile, Choice::Put(number)),
            Part::Credits => self.step_router(tile, Choice::CreditOf(number)),
            Part::Bank => self.step_bank_by(tile, choice_in(part, number)),
        }
    }
}
