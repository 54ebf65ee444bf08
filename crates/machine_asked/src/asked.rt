ghost use Rattle.std.specs.Prelude.{◌≡◌, ◌⊎◌, ◌+◌, ◌≤◌, ◌∷◌, ◌++◌, [], false, List, None};
ghost use Rattle.std.specs.Prelude.{Some, Ok, IfErr, IfOk, IfSome};
ghost use Rattle.std.specs.Prelude.{OnErr, OnOk, length, map, slice_get};
ghost use Rattle.std.specs.Str.Lines.{lines};
ghost use Rattle.torus.specs.declared.fault.Fault.{Fault};
ghost use Rattle.torus.specs.declared.step.Step.{Step};
ghost use Rattle.machine_parts.specs.Rounds.{moves_in};
ghost use Rattle.machine_parts.specs.AbstractScripts.{AreFinished};
ghost use Rattle.machine_parts.specs.Core.{Load, run_of, step, round};
ghost use Rattle.machine_parts.specs.Appended.{load_with};
ghost use Rattle.machine_parts.specs.Machine.{IsAfter, RunsOn};
ghost use Rattle.machine_parts.specs.Machine.{MakesMove, Steps};
ghost use Rattle.machine_parts.specs.Machine.{core_after};
ghost use Rattle.machine_parts.specs.Machine.{built_to, all_finished};
ghost use Rattle.machine_parts.specs.ProgressMoves.{moves_left};
ghost use Rattle.machine_parts.specs.Handed.{handed, moves_kept, refused};
ghost use Rattle.machine_core.specs.Rounds.{NeedsRounds, rounds_of};
ghost use Rattle.machine_core.specs.Loading.{HasLoaded, IsLoadFault, load_by};
ghost use Rattle.fair_rounds.specs.Guard.{usual_guard};
ghost use Rattle.machine_asked.specs.Asked.{IsAsked, IsNumberedLine, answer_to, has_spin};
ghost use Rattle.machine_asked.specs.Asked.{index_asked};
ghost use Rattle.machine_asked.specs.Asked.{is_behind_spin, spins_with};

use crate::answers::answer_of;
use crate::flags::{count_more, counts_of, is_operation, mark_spin, spins_of};
use fair_rounds::Guard;
use lexer::LineFault;
use machine_core::Machine;
use machine_parts::brings_words;
use one_order::Answer;
use script::{Line, read_machine, read_scripts};
use std::alloc::{Allocator, Global};
use std::marker::Model;
use torus::{Fault, Step, Stepped};

/// A machine whose scripts grow while it runs. Beside it stands of each script whether it has a spin and
/// how many operations it makes at most, by which the index of an operation that is asked is known; the
/// depth and the tags that were loaded; and the guard of its fair rounds.
#[derive(Drop)]
pub struct AskedMachine<A: Allocator = Global> {
    pub(crate) machine: Machine<A>,
    counts: Vec<u32, A>,
    spins: Vec<bool, A>,
    depth: u32,
    tags: u32,
    pub(crate) guard: Guard,
}

impl<A: Allocator> Model for AskedMachine<A> {
    ghost use Rattle.machine_asked.specs.Asked.{Asked};

    ghost Value = { Asked };

    ghost use Rattle.machine_asked.specs.Inside.{asked_of, IsAskedMachine};

    ghost view = { asked_of };

    ghost invariant = { IsAskedMachine };
}

impl<A: Allocator + Copy> AskedMachine<A> {
    /// Loads the machine of a text, whose processors follow the scripts of a text: it has made no step.
    ///
    /// Errors: the first fault of the texts with its line, taken in the order machine, scripts; or out of
    /// memory, at line 0.
    pub fn load(alloc: A, machine: &[u8], scripts: &[u8]) -> Result<AskedMachine<A>, LineFault>
        ensures loaded { IfOk result
            (λ m. HasLoaded (load_by (lines machine.now) (lines scripts.now)) m.core) }
        ensures spins { IfOk result
            (λ m. (l : Load) → load_by (lines machine.now) (lines scripts.now) ≡ Ok l
            → m.spins ≡ map has_spin l.scripts) }
        ensures guard { IfOk result (λ m. m.guard ≡ usual_guard m.core) }
        ensures fault { IfErr result (IsLoadFault
            (load_by (lines machine.now) (lines scripts.now))) }
    {
        let machine = read_machine(alloc, machine)?;
        let scripts = read_scripts(alloc, scripts, &machine)?;
        let tiles = machine.torus().tiles();
        let (depth, tags) = (machine.depth(), machine.tags());
        let _fits = scripts.fits(&machine);
        let Ok(counts) = counts_of(alloc, &scripts, tiles) else {
            return Err(out_of_memory());
        };
        let Ok(spins) = spins_of(alloc, &scripts, tiles) else {
            return Err(out_of_memory());
        };
        match Machine::load(alloc, machine, scripts) {
            Ok(machine) => {
                let guard = Guard::of(&machine);
                Ok(AskedMachine {
                    machine,
                    counts,
                    spins,
                    depth,
                    tags,
                    guard,
                })
            }
            Err(fault) => Err(LineFault { fault, line: 0 }),
        }
    }
}

/// Out of memory, which is at no line.
fn out_of_memory() -> LineFault
    ensures { result ≡ record { fault = Fault.Memory; line = 0 } }
{
    LineFault {
        fault: Fault::Memory,
        line: 0,
    }
}

impl<A: Allocator> AskedMachine<A> {
    /// The machine, to look at.
    #[inline(always)]
    pub fn machine(&self) -> &Machine<A>
        ensures { result.now ≡ self.now.core }
    {
        &self.machine
    }

    /// How many flits a channel holds, 1 to 8.
    pub fn depth(&self) -> u32
        ensures { result ≡ self.now.core.depth }
    {
        self.depth
    }

    /// How many tags a processor has, 1 to 16.
    pub fn tags(&self) -> u32
        ensures { result ≡ self.now.core.tags }
    {
        self.tags
    }

    /// The machine stands where some steps lead from an accepted load, whose scripts have these spins.
    pub fn reached(&self)
        ensures { IsAsked self.now }
    {
        let _ = &self.machine;
    }

    /// Attempts one choice of one agent, as `Machine::step` does.
    #[inline(always)]
    pub fn step(&mut self, step: Step) -> Stepped
        ensures step { Steps self.old.core self.new.core result step }
        ensures runs_on { RunsOn self.old.core self.new.core (step ∷ []) }
        ensures spins { self.new.spins ≡ self.old.spins }
        ensures guard { self.new.guard ≡ self.old.guard }
    {
        self.machine.step(step)
    }

    /// Makes one round, as `Machine::round` does.
    pub fn round(&mut self)
        ensures state { self.new.core ≡ core_after self.old.core (round self.old.core.shape) }
        ensures moves { self.new.core.moves_left
            + moves_in (step (built_to self.old.core)) self.old.core.state
            (round self.old.core.shape) ≡ self.old.core.moves_left }
        ensures live { all_finished self.old.core.state ≡ false
            → MakesMove self.old.core (round self.old.core.shape) }
        ensures runs_on { RunsOn self.old.core self.new.core (round self.old.core.shape) }
        ensures spins { self.new.spins ≡ self.old.spins }
        ensures guard { self.new.guard ≡ self.old.guard }
    {
        self.machine.round();
    }

    /// Makes rounds until every script is finished, and answers how many, as `Machine::finish` does.
    pub fn finish(&mut self) -> u64
        ensures state { self.new.core
            ≡ core_after self.old.core (rounds_of self.old.core.shape result) }
        ensures needed { NeedsRounds self.old.core result }
        ensures few { (l : Load) (steps : List Step) → IsAfter l self.old.core steps
            → result ≤ moves_left l steps (length steps) }
        ensures left { result ≤ self.old.core.moves_left }
        ensures runs_on { RunsOn self.old.core self.new.core
            (rounds_of self.old.core.shape result) }
        ensures scripts { (l : Load) (before : List Step) → IsAfter l self.old.core before
            → AreFinished (run_of l (before ++ rounds_of self.old.core.shape result))
            (length (before ++ rounds_of self.old.core.shape result)) l.scripts }
        ensures spins { self.new.spins ≡ self.old.spins }
        ensures guard { self.new.guard ≡ self.old.guard }
    {
        self.machine.finish()
    }

    /// The answer to the operation of a processor that has this index, from 0 in the order of issue; `None`
    /// where there is none yet, or no such processor. It looks at this answer, at as many as came before it of
    /// later operations, and at 16 more: not at those of all the run.
    pub fn answer_to(&self, processor: u32, index: u32) -> Option<Answer>
        ensures { result ≡ answer_to self.now.core processor index }
    {
        answer_of(self.machine.answers(processor)?, index)
    }

    /// How many operations a processor's script makes at most; `None` exactly where there is no such
    /// processor.
    pub fn operations(&self, processor: u32) -> Option<u32>
        ensures { result ≡ slice_get self.now.core.allowed processor }
    {
        self.counts.get(processor as usize).copied()
    }

    /// Whether a processor's script has a spin, so that the index of what is asked behind it isn't known.
    pub fn is_behind_spin(&self, processor: u32) -> bool
        ensures { result ≡ is_behind_spin self.now processor }
    {
        match self.spins.get(processor as usize) {
            Some(has) => *has,
            None => false,
        }
    }

    /// Gives a processor a further line, at any time, as `Machine::append` does.
    ///
    /// Errors: as of `Machine::append`; nothing has changed then.
    pub fn append(&mut self, processor: u32, line: Line) -> Result<(), Fault>
        ensures taken { OnOk result ((refused self.old.core processor line ≡ None)
            × (self.new.core ≡ handed self.old.core processor line)
            × (self.new.spins ≡ spins_with self.old.spins processor line)
            × (self.new.guard ≡ self.old.guard)) }
        ensures law { OnOk result ((l : Load) (steps : List Step) → IsAfter l self.old.core steps
            → IsAfter (load_with l processor line) self.new.core
            (moves_kept l self.old.core processor steps)) }
        ensures fault { IfErr result
            (λ fault. (refused self.old.core processor line ≡ Some fault)
            ⊎ ((refused self.old.core processor line ≡ None) × (fault ≡ Fault.Memory))) }
        ensures same { OnErr result (self.new ≡ self.old) }
    {
        brings_words(line);
        self.machine.append(processor, line)?;
        let own = processor as usize;
        count_more(&mut self.counts, own, line);
        mark_spin(&mut self.spins, own, line);
        Ok(())
    }

    /// Does what `append` does, and answers the index that the line's operation has among those of the
    /// processor, from 0; `None` where the line is no operation, or the processor's script has a spin. The
    /// operation that the processor issues under this index, whenever it does, is that of the line.
    ///
    /// Errors: as of `append`; nothing has changed then.
    pub fn ask(&mut self, processor: u32, line: Line) -> Result<Option<u32>, Fault>
        ensures taken { OnOk result ((refused self.old.core processor line ≡ None)
            × (self.new.core ≡ handed self.old.core processor line)
            × (self.new.spins ≡ spins_with self.old.spins processor line)
            × (self.new.guard ≡ self.old.guard)) }
        ensures law { OnOk result ((l : Load) (steps : List Step) → IsAfter l self.old.core steps
            → IsAfter (load_with l processor line) self.new.core
            (moves_kept l self.old.core processor steps)) }
        ensures index { IfOk result (λ index. index ≡ index_asked self.old processor line) }
        ensures numbered { IfOk result (λ index. IfSome index
            (λ i. (l : Load) (steps : List Step) → IsAfter l self.old.core steps
            → self.old.spins ≡ map has_spin l.scripts
            → IsNumberedLine (load_with l processor line) processor line i)) }
        ensures fault { IfErr result
            (λ fault. (refused self.old.core processor line ≡ Some fault)
            ⊎ ((refused self.old.core processor line ≡ None) × (fault ≡ Fault.Memory))) }
        ensures same { OnErr result (self.new ≡ self.old) }
    {
        brings_words(line);
        let index = self.index_asked(processor, line);
        self.append(processor, line)?;
        Ok(index)
    }

    /// The index that the operation of a line has that is put behind a script, if it is known.
    fn index_asked(&self, processor: u32, line: Line) -> Option<u32>
        ensures { result ≡ index_asked self.now processor line }
    {
        if is_operation(line) && !self.is_behind_spin(processor) {
            self.operations(processor)
        } else {
            None
        }
    }
}
