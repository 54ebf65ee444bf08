//! Clocked and fair rounds of a machine that keeps a record.

ghost use Rattle.std.specs.Prelude.{◌≡◌, ◌+◌, ◌≤◌, ◌++◌, false, List, length};
ghost use Rattle.torus.specs.declared.step.Step.{Step};
ghost use Rattle.machine_parts.specs.Core.{Load, run_of, step};
ghost use Rattle.machine_parts.specs.Machine.{IsAfter, MakesMove, RunsOn, all_finished, built_to, core_after};
ghost use Rattle.machine_parts.specs.ProgressMoves.{moves_left};
ghost use Rattle.machine_parts.specs.Rounds.{moves_in};
ghost use Rattle.machine_parts.specs.AbstractScripts.{AreFinished};
ghost use Rattle.machine_core.specs.Clocked.{NeedsClocked, clocked_round, clocked_rounds};
ghost use Rattle.fair_rounds.specs.Guard.{holds};
ghost use Rattle.machine_asked.specs.Asked.{AreFewestFair, asked_attempts, fair_made};
ghost use Rattle.machine_asked.specs.Asked.{fair_rounds_made, fair_rounds_of};
ghost use Rattle.machine_record.specs.Action.{one_turned};
ghost use Rattle.machine_record.specs.Machine.{KeepsRecord};

use crate::Action;
use crate::keeping::{keep_clocked, keep_clocked_rounds, keep_fair_rounds};
use crate::recorded::RecordedMachine;
use std::alloc::Allocator;

impl<A: Allocator> RecordedMachine<A> {
    /// Makes one clocked round, as `Machine::clocked_round` does, and keeps it: with those before it, whose turns
    /// it goes on with, as one action.
    pub fn clocked_round(&mut self, turn: u64)
        ensures state { self.new.asked.core
            ≡ core_after self.old.asked.core (clocked_round self.old.asked.core turn) }
        ensures moves { self.new.asked.core.moves_left
            + moves_in (step (built_to self.old.asked.core)) self.old.asked.core.state
            (clocked_round self.old.asked.core turn) ≡ self.old.asked.core.moves_left }
        ensures live { all_finished self.old.asked.core.state ≡ false
            → MakesMove self.old.asked.core (clocked_round self.old.asked.core turn) }
        ensures runs_on { RunsOn self.old.asked.core self.new.asked.core
            (clocked_round self.old.asked.core turn) }
        ensures spins { self.new.asked.spins ≡ self.old.asked.spins }
        ensures guard { self.new.asked.guard ≡ self.old.asked.guard }
        ensures kept { KeepsRecord (one_turned turn) self.old self.new }
    {
        // By its 1 to 3 dimensions a router has 10, 18 or 26 inputs.
        let _dims = self.machine.machine().torus().dims();
        self.machine.clocked_round(turn);
        keep_clocked(&mut self.kept, turn);
    }

    /// Makes clocked rounds, with the turns from 0 on, until every script is finished, and answers how many, as
    /// `Machine::finish_clocked` does; and keeps them.
    pub fn finish_clocked(&mut self) -> u64
        ensures state { self.new.asked.core
            ≡ core_after self.old.asked.core (clocked_rounds self.old.asked.core result) }
        ensures needed { NeedsClocked self.old.asked.core result }
        ensures few { (l : Load) (steps : List Step) → IsAfter l self.old.asked.core steps
            → result ≤ moves_left l steps (length steps) }
        ensures left { result ≤ self.old.asked.core.moves_left }
        ensures runs_on { RunsOn self.old.asked.core self.new.asked.core
            (clocked_rounds self.old.asked.core result) }
        ensures scripts { (l : Load) (before : List Step) → IsAfter l self.old.asked.core before
            → AreFinished (run_of l (before ++ clocked_rounds self.old.asked.core result))
            (length (before ++ clocked_rounds self.old.asked.core result)) l.scripts }
        ensures spins { self.new.asked.spins ≡ self.old.asked.spins }
        ensures guard { self.new.asked.guard ≡ self.old.asked.guard }
        ensures kept { KeepsRecord (Action.ClockedRounds result) self.old self.new }
    {
        let rounds = self.machine.finish_clocked();
        keep_clocked_rounds(&mut self.kept, rounds);
        rounds
    }

    /// Makes one fair round, as `AskedMachine::fair_round` does, and keeps it.
    pub fn fair_round(&mut self) -> bool
        ensures made { self.new.asked ≡ fair_made self.old.asked }
        ensures held { result ≡ holds self.old.asked.guard self.old.asked.core }
        ensures moves { self.new.asked.core.moves_left
            + moves_in (step (built_to self.old.asked.core)) self.old.asked.core.state
            (asked_attempts self.old.asked) ≡ self.old.asked.core.moves_left }
        ensures live { all_finished self.old.asked.core.state ≡ false
            → MakesMove self.old.asked.core (asked_attempts self.old.asked) }
        ensures runs_on { RunsOn self.old.asked.core self.new.asked.core
            (asked_attempts self.old.asked) }
        ensures kept { KeepsRecord (Action.FairRounds 1) self.old self.new }
    {
        let held = self.machine.fair_round();
        keep_fair_rounds(&mut self.kept, 1);
        held
    }

    /// Makes fair rounds until every script is finished, at most so many, and answers how many; and keeps them.
    pub fn fair_rounds(&mut self, most: u64) -> u64
        ensures made { self.new.asked ≡ fair_rounds_made self.old.asked result }
        ensures fewest { AreFewestFair self.old.asked most result }
        ensures left { result ≤ self.old.asked.core.moves_left }
        ensures runs_on { RunsOn self.old.asked.core self.new.asked.core
            (fair_rounds_of self.old.asked result) }
        ensures kept { KeepsRecord (Action.FairRounds result) self.old self.new }
    {
        let rounds = self.machine.fair_rounds(most);
        keep_fair_rounds(&mut self.kept, rounds);
        rounds
    }
}
