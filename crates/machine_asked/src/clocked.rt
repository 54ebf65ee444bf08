//! Clocked and fair rounds of a machine that is asked for operations.

ghost use Rattle.std.specs.Prelude.{◌≡◌, ◌+◌, ◌≤◌, ◌++◌, false, List, length};
ghost use Rattle.torus.specs.declared.step.Step.{Step};
ghost use Rattle.machine_parts.specs.Core.{Load, run_of, step};
ghost use Rattle.machine_parts.specs.Machine.{IsAfter, MakesMove, RunsOn, all_finished, built_to};
ghost use Rattle.machine_parts.specs.Machine.{core_after};
ghost use Rattle.machine_parts.specs.ProgressMoves.{moves_left};
ghost use Rattle.machine_parts.specs.Rounds.{moves_in};
ghost use Rattle.machine_parts.specs.AbstractScripts.{AreFinished};
ghost use Rattle.machine_core.specs.Clocked.{NeedsClocked, clocked_round, clocked_rounds};
ghost use Rattle.fair_rounds.specs.Guard.{holds};
ghost use Rattle.machine_asked.specs.Asked.{AreFewestFair, asked_attempts, fair_made};
ghost use Rattle.machine_asked.specs.Asked.{fair_rounds_made, fair_rounds_of};

use crate::asked::AskedMachine;
use std::alloc::Allocator;

impl<A: Allocator> AskedMachine<A> {
    /// Makes one clocked round, as `Machine::clocked_round` does.
    pub fn clocked_round(&mut self, turn: u64)
        ensures state { self.new.core
            ≡ core_after self.old.core (clocked_round self.old.core turn) }
        ensures moves { self.new.core.moves_left
            + moves_in (step (built_to self.old.core)) self.old.core.state
            (clocked_round self.old.core turn) ≡ self.old.core.moves_left }
        ensures live { all_finished self.old.core.state ≡ false
            → MakesMove self.old.core (clocked_round self.old.core turn) }
        ensures runs_on { RunsOn self.old.core self.new.core (clocked_round self.old.core turn) }
        ensures spins { self.new.spins ≡ self.old.spins }
        ensures guard { self.new.guard ≡ self.old.guard }
    {
        self.machine.clocked_round(turn);
    }

    /// Makes clocked rounds, with the turns from 0 on, until every script is finished, and answers how
    /// many, as `Machine::finish_clocked` does.
    pub fn finish_clocked(&mut self) -> u64
        ensures state { self.new.core
            ≡ core_after self.old.core (clocked_rounds self.old.core result) }
        ensures needed { NeedsClocked self.old.core result }
        ensures few { (l : Load) (steps : List Step) → IsAfter l self.old.core steps
            → result ≤ moves_left l steps (length steps) }
        ensures left { result ≤ self.old.core.moves_left }
        ensures runs_on { RunsOn self.old.core self.new.core
            (clocked_rounds self.old.core result) }
        ensures scripts { (l : Load) (before : List Step) → IsAfter l self.old.core before
            → AreFinished (run_of l (before ++ clocked_rounds self.old.core result))
            (length (before ++ clocked_rounds self.old.core result)) l.scripts }
        ensures spins { self.new.spins ≡ self.old.spins }
        ensures guard { self.new.guard ≡ self.old.guard }
    {
        self.machine.finish_clocked()
    }

    /// Makes one fair round: a clocked one, in which of the heads in a router's latches that goes first whose
    /// operation was issued first. Where the guard finds an operation out for more than 241 fair rounds for
    /// each tag of each tile, none begins; it answers whether. So no operation waits for ever.
    pub fn fair_round(&mut self) -> bool
        ensures made { self.new ≡ fair_made self.old }
        ensures held { result ≡ holds self.old.guard self.old.core }
        ensures moves { self.new.core.moves_left
            + moves_in (step (built_to self.old.core)) self.old.core.state (asked_attempts self.old)
            ≡ self.old.core.moves_left }
        ensures live { all_finished self.old.core.state ≡ false
            → MakesMove self.old.core (asked_attempts self.old) }
        ensures runs_on { RunsOn self.old.core self.new.core (asked_attempts self.old) }
    {
        self.guard.round(&mut self.machine)
    }

    /// Makes fair rounds until every script is finished, at most so many, and answers how many.
    pub fn fair_rounds(&mut self, most: u64) -> u64
        ensures made { self.new ≡ fair_rounds_made self.old result }
        ensures fewest { AreFewestFair self.old most result }
        ensures left { result ≤ self.old.core.moves_left }
        ensures runs_on { RunsOn self.old.core self.new.core (fair_rounds_of self.old result) }
    {
        for before in 0..most {
            if self.machine().finished() {
                return before;
            }
            self.fair_round();
        }
        most
    }
}
