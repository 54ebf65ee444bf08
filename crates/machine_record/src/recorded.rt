//! A machine that keeps a record of what is done to it, where that is asked for.

ghost use Rattle.std.specs.Prelude.{◌≡◌, ◌⊎◌, ◌+◌, ◌≤◌, ◌∷◌, ◌++◌, [], List, None, Ok, Some, false};
ghost use Rattle.std.specs.Prelude.{IfErr, IfOk, IfSome, OnErr, OnOk, length, map};
ghost use Rattle.std.specs.Str.Lines.{lines};
ghost use Rattle.torus.specs.declared.fault.Fault.{Fault};
ghost use Rattle.torus.specs.declared.step.Step.{Step};
ghost use Rattle.machine_parts.specs.Appended.{load_with};
ghost use Rattle.machine_parts.specs.Core.{Load, round, run_of, step};
ghost use Rattle.machine_parts.specs.Handed.{handed, moves_kept, refused};
ghost use Rattle.machine_parts.specs.Machine.{IsAfter, MakesMove, RunsOn, Steps, all_finished};
ghost use Rattle.machine_parts.specs.Machine.{built_to, core_after};
ghost use Rattle.machine_parts.specs.ProgressMoves.{moves_left};
ghost use Rattle.machine_parts.specs.Rounds.{moves_in};
ghost use Rattle.machine_parts.specs.AbstractScripts.{AreFinished};
ghost use Rattle.machine_core.specs.Loading.{HasLoaded, IsLoadFault, load_by};
ghost use Rattle.machine_core.specs.Rounds.{NeedsRounds, rounds_of};
ghost use Rattle.fair_rounds.specs.Guard.{usual_guard};
ghost use Rattle.machine_asked.specs.Asked.{IsAsked, IsNumberedLine, NeedsToWait, has_spin};
ghost use Rattle.machine_asked.specs.Asked.{index_asked, spins_with};
ghost use Rattle.machine_asked.specs.Opened.{IsOpened};
ghost use Rattle.machine_record.specs.Recording.{fresh_record, no_room};
ghost use Rattle.machine_record.specs.Calls.{IsFreshCall};
ghost use Rattle.machine_record.specs.Machine.{KeepsRecord, KeepsLine, KeepsStep};

use crate::keeping::{keep, keep_line, keep_rounds};
use crate::replay::make_rounds;
use crate::{Action, Record, begun, begun_without_scripts};
use lexer::LineFault;
use machine_asked::{AskedMachine, Machine, OpenedMachine};
use script::Line;
use std::alloc::{AllocError, Allocator, Global};
use std::marker::Model;
use torus::{Fault, Step, Stepped, Torus};

/// A machine that is asked for operations while it runs, and the record of what was done to it, where it
/// keeps one. The record makes this machine again.
///
/// A record ends where memory for it is refused, and the machine goes on without it: no step can fail.
#[derive(Drop)]
pub struct RecordedMachine<A: Allocator = Global> {
    pub(crate) machine: AskedMachine<A>,
    pub(crate) kept: Option<Record<A>>,
}

impl<A: Allocator> Model for RecordedMachine<A> {
    ghost use Rattle.machine_record.specs.Machine.{Recorded};

    ghost Value = { Recorded };

    ghost use Rattle.machine_record.specs.MachineInside.{recorded_of, IsRecorded};

    ghost view = { recorded_of };

    ghost invariant = { IsRecorded };
}

impl<A: Allocator + Copy> RecordedMachine<A> {
    /// Loads the machine of a text, as `AskedMachine::load` does, with a record of what is done to it from
    /// now on.
    ///
    /// Errors: the first fault of the texts with its line, taken in the order machine, scripts; or out of
    /// memory, at line 0.
    pub fn load(alloc: A, machine: &[u8], scripts: &[u8]) -> Result<RecordedMachine<A>, LineFault>
        ensures loaded { IfOk result
            (λ m. HasLoaded (load_by (lines machine.now) (lines scripts.now)) m.asked.core) }
        ensures spins { IfOk result
            (λ m. (l : Load) → load_by (lines machine.now) (lines scripts.now) ≡ Ok l
            → m.asked.spins ≡ map has_spin l.scripts) }
        ensures guard { IfOk result (λ m. m.asked.guard ≡ usual_guard m.asked.core) }
        ensures kept { IfOk result (λ m. m.kept ≡ Some (fresh_record machine.now scripts.now)) }
        ensures fault { IfErr result (IsLoadFault (load_by (lines machine.now) (lines scripts.now))) }
    {
        let asked = AskedMachine::load(alloc, machine, scripts)?;
        match begun(alloc, machine, scripts) {
            Ok(kept) => Ok(RecordedMachine {
                machine: asked,
                kept: Some(kept),
            }),
            Err(_) => Err(LineFault {
                fault: Fault::Memory,
                line: 0,
            }),
        }
    }

    /// Opens a machine by numbers, as `AskedMachine::open` does, with a record of what is done to it from now
    /// on.
    ///
    /// Errors: out of memory; or a number is out of its range.
    pub fn open(
        alloc: A,
        torus: Torus,
        depth: u32,
        tags: u32,
        opening: &[u64],
    ) -> Result<RecordedMachine<A>, AllocError>
        ensures opened { IfOk result (λ m. IsOpened torus depth tags opening.now m.asked) }
        ensures kept { IfOk result IsFreshCall }
    {
        let opened = AskedMachine::open_with_text(alloc, torus, depth, tags, opening)?;
        let OpenedMachine { machine, text } = opened;
        Ok(RecordedMachine {
            machine,
            kept: Some(begun_without_scripts(alloc, text)),
        })
    }
}

impl<A: Allocator> RecordedMachine<A> {
    /// A machine without a record.
    pub fn unrecorded(machine: AskedMachine<A>) -> RecordedMachine<A>
        ensures { result ≡ record { asked = machine; kept = None; room = no_room } }
    {
        RecordedMachine {
            machine,
            kept: None,
        }
    }

    /// The machine that is asked, to look at.
    #[inline(always)]
    pub fn asked(&self) -> &AskedMachine<A>
        ensures { result.now ≡ self.now.asked }
    {
        &self.machine
    }

    /// The machine below it, to look at.
    #[inline(always)]
    pub fn machine(&self) -> &Machine<A>
        ensures { result.now ≡ self.now.asked.core }
    {
        self.machine.machine()
    }

    /// The machine stands where some steps lead from an accepted load, whose scripts have these spins.
    pub fn reached(&self)
        ensures { IsAsked self.now.asked }
    {
        self.machine.reached()
    }

    /// Attempts one choice of one agent, as `Machine::step` does, and keeps a move.
    #[inline(always)]
    pub fn step(&mut self, step: Step) -> Stepped
        ensures step { Steps self.old.asked.core self.new.asked.core result step }
        ensures runs_on { RunsOn self.old.asked.core self.new.asked.core (step ∷ []) }
        ensures spins { self.new.asked.spins ≡ self.old.asked.spins }
        ensures guard { self.new.asked.guard ≡ self.old.asked.guard }
        ensures kept { KeepsStep step result self.old self.new }
    {
        match self.machine.step(step) {
            Stepped::Moved => {
                keep(&mut self.kept, Action::Move(step));
                Stepped::Moved
            }
            Stepped::Idle => Stepped::Idle,
        }
    }

    /// Makes one round, as `Machine::round` does, and keeps it.
    pub fn round(&mut self)
        ensures state { self.new.asked.core
            ≡ core_after self.old.asked.core (round self.old.asked.core.shape) }
        ensures moves { self.new.asked.core.moves_left
            + moves_in (step (built_to self.old.asked.core)) self.old.asked.core.state
            (round self.old.asked.core.shape) ≡ self.old.asked.core.moves_left }
        ensures live { all_finished self.old.asked.core.state ≡ false
            → MakesMove self.old.asked.core (round self.old.asked.core.shape) }
        ensures runs_on { RunsOn self.old.asked.core self.new.asked.core
            (round self.old.asked.core.shape) }
        ensures spins { self.new.asked.spins ≡ self.old.asked.spins }
        ensures guard { self.new.asked.guard ≡ self.old.asked.guard }
        ensures kept { KeepsRecord (Action.Rounds 1) self.old self.new }
    {
        self.machine.round();
        keep_rounds(&mut self.kept, 1);
    }

    /// Makes so many rounds, and keeps them by one action.
    pub fn rounds(&mut self, count: u32)
        ensures state { self.new.asked.core
            ≡ core_after self.old.asked.core (rounds_of self.old.asked.core.shape count) }
        ensures runs_on { RunsOn self.old.asked.core self.new.asked.core
            (rounds_of self.old.asked.core.shape count) }
        ensures spins { self.new.asked.spins ≡ self.old.asked.spins }
        ensures guard { self.new.asked.guard ≡ self.old.asked.guard }
        ensures kept { KeepsRecord (Action.Rounds count) self.old self.new }
    {
        make_rounds(&mut self.machine, count);
        keep(&mut self.kept, Action::Rounds(count));
    }

    /// Makes rounds until every script is finished, and answers how many, as `Machine::finish` does; and keeps
    /// them.
    pub fn finish(&mut self) -> u64
        ensures state { self.new.asked.core
            ≡ core_after self.old.asked.core (rounds_of self.old.asked.core.shape result) }
        ensures needed { NeedsRounds self.old.asked.core result }
        ensures few { (l : Load) (steps : List Step) → IsAfter l self.old.asked.core steps
            → result ≤ moves_left l steps (length steps) }
        ensures left { result ≤ self.old.asked.core.moves_left }
        ensures runs_on { RunsOn self.old.asked.core self.new.asked.core
            (rounds_of self.old.asked.core.shape result) }
        ensures scripts { (l : Load) (before : List Step) → IsAfter l self.old.asked.core before
            → AreFinished (run_of l (before ++ rounds_of self.old.asked.core.shape result))
            (length (before ++ rounds_of self.old.asked.core.shape result)) l.scripts }
        ensures spins { self.new.asked.spins ≡ self.old.asked.spins }
        ensures guard { self.new.asked.guard ≡ self.old.asked.guard }
        ensures kept { KeepsRecord (Action.Rounds result) self.old self.new }
    {
        let rounds = self.machine.finish();
        keep_rounds(&mut self.kept, rounds);
        rounds
    }

    /// Makes rounds until the operation of a processor that has this index is answered, or every script is
    /// finished, and answers how many: the least number that does. It keeps them.
    pub fn wait(&mut self, processor: u32, index: u32) -> u64
        ensures state { self.new.asked.core
            ≡ core_after self.old.asked.core (rounds_of self.old.asked.core.shape result) }
        ensures needed { NeedsToWait self.old.asked.core processor index result }
        ensures runs_on { RunsOn self.old.asked.core self.new.asked.core
            (rounds_of self.old.asked.core.shape result) }
        ensures spins { self.new.asked.spins ≡ self.old.asked.spins }
        ensures guard { self.new.asked.guard ≡ self.old.asked.guard }
        ensures kept { KeepsRecord (Action.Rounds result) self.old self.new }
    {
        let rounds = self.machine.wait(processor, index);
        keep_rounds(&mut self.kept, rounds);
        rounds
    }

    /// Gives a processor a further line, at any time, as `AskedMachine::append` does, and keeps the line.
    ///
    /// Errors: as of `AskedMachine::append`; nothing has changed then.
    pub fn append(&mut self, processor: u32, line: Line) -> Result<(), Fault>
        ensures taken { OnOk result ((refused self.old.asked.core processor line ≡ None)
            × (self.new.asked.core ≡ handed self.old.asked.core processor line)
            × (self.new.asked.spins ≡ spins_with self.old.asked.spins processor line)
            × (self.new.asked.guard ≡ self.old.asked.guard)) }
        ensures law { OnOk result ((l : Load) (steps : List Step)
            → IsAfter l self.old.asked.core steps
            → IsAfter (load_with l processor line) self.new.asked.core
            (moves_kept l self.old.asked.core processor steps)) }
        ensures kept { OnOk result (KeepsLine processor line self.old self.new) }
        ensures fault { IfErr result
            (λ fault. (refused self.old.asked.core processor line ≡ Some fault)
            ⊎ ((refused self.old.asked.core processor line ≡ None) × (fault ≡ Fault.Memory))) }
        ensures same { OnErr result (self.new ≡ self.old) }
    {
        self.machine.append(processor, line)?;
        keep_line(&mut self.kept, processor, line);
        Ok(())
    }

    /// Does what `append` does, and answers the index that the line's operation has, as `AskedMachine::ask` does.
    ///
    /// Errors: as of `append`; nothing has changed then.
    pub fn ask(&mut self, processor: u32, line: Line) -> Result<Option<u32>, Fault>
        ensures taken { OnOk result ((refused self.old.asked.core processor line ≡ None)
            × (self.new.asked.core ≡ handed self.old.asked.core processor line)
            × (self.new.asked.spins ≡ spins_with self.old.asked.spins processor line)
            × (self.new.asked.guard ≡ self.old.asked.guard)) }
        ensures law { OnOk result ((l : Load) (steps : List Step)
            → IsAfter l self.old.asked.core steps
            → IsAfter (load_with l processor line) self.new.asked.core
            (moves_kept l self.old.asked.core processor steps)) }
        ensures index { IfOk result (λ index. index ≡ index_asked self.old.asked processor line) }
        ensures numbered { IfOk result (λ index. IfSome index
            (λ i. (l : Load) (steps : List Step) → IsAfter l self.old.asked.core steps
            → self.old.asked.spins ≡ map has_spin l.scripts
            → IsNumberedLine (load_with l processor line) processor line i)) }
        ensures kept { OnOk result (KeepsLine processor line self.old self.new) }
        ensures fault { IfErr result
            (λ fault. (refused self.old.asked.core processor line ≡ Some fault)
            ⊎ ((refused self.old.asked.core processor line ≡ None) × (fault ≡ Fault.Memory))) }
        ensures same { OnErr result (self.new ≡ self.old) }
    {
        let index = self.machine.ask(processor, line)?;
        keep_line(&mut self.kept, processor, line);
        Ok(index)
    }
}
