//! A further line for a script, at any time, and how many operations a machine's scripts may still be given.

ghost use Rattle.std.specs.Prelude.{◌≡◌, ◌⊎◌, List, Some, None, map, IfErr, OnOk, OnErr};
ghost use Rattle.torus.specs.declared.fault.Fault.{Fault};
ghost use Rattle.torus.specs.declared.step.Step.{Step};
ghost use Rattle.script_lines.specs.Lines.{operation_count};
ghost use Rattle.machine_parts.specs.Core.{Load};
ghost use Rattle.machine_parts.specs.Machine.{IsAfter};
ghost use Rattle.machine_parts.specs.Appended.{load_with};
ghost use Rattle.machine_parts.specs.Handed.{handed, moves_kept, refused};
ghost use Rattle.machine_core.specs.Growing.{room_left};

use crate::machine::Machine;
use machine_parts::{brings_words, home_of, put_line, refusal, sum_of, take_back};
use script::Line;
use std::alloc::{AllocError, Allocator};
use torus::Fault;

impl<A: Allocator> Machine<A> {
    /// How many operations the script of a processor may still be given: a script has at most 4096, and
    /// all together at most 65536. `None` exactly where there is no such processor.
    #[tactic(auto, using(crate::proofs::Allowed::all_small))]
    pub fn room_left(&self, processor: u32) -> Option<usize>
        ensures value { result ≡ room_left self.now.allowed processor }
        ensures scripts { (l : Load) (steps : List Step) → IsAfter l self.now steps
            → result ≡ room_left (map operation_count l.scripts) processor }
    {
        let own = *self.allowed.get(processor as usize)?;
        let all = sum_of(self.allowed.as_slice());
        Some((4096 - own).min(65536 - all))
    }

    /// Gives a processor a further line, at any time; where it has reported the end of its script, all
    /// reports are taken back first. The machine stands then where its moves lead from the load with the
    /// line at the end of that script.
    ///
    /// Errors: `Fault::Processor` where there is no such processor, `Fault::Address` where the line's
    /// address is none, `Fault::Range` where a spin hasn't 1 to 4096 loads, `Fault::Last` where a `last`
    /// has no operation before it, `Fault::Length` where the limits leave no room for its operations, and
    /// `Fault::Memory` when out of memory, in this order. The machine is as it was then.
    pub fn append(&mut self, processor: u32, line: Line) -> Result<(), Fault>
        ensures taken { OnOk result ((refused self.old processor line ≡ None)
            × (self.new ≡ handed self.old processor line)) }
        ensures law { OnOk result ((l : Load) (steps : List Step) → IsAfter l self.old steps
            → IsAfter (load_with l processor line) self.new (moves_kept l self.old processor steps)) }
        ensures fault { IfErr result (λ fault. (refused self.old processor line ≡ Some fault)
            ⊎ ((refused self.old processor line ≡ None) × (fault ≡ Fault.Memory))) }
        ensures same { OnErr result (self.new ≡ self.old) }
    {
        brings_words(line);
        if let Some(fault) = self.refusal(processor, line) {
            return Err(fault);
        }
        match self.take_line(processor, line) {
            Ok(()) => Ok(()),
            Err(_) => Err(Fault::Memory),
        }
    }

    /// Why the machine refuses a line for a processor; `None` where it takes the line.
    fn refusal(&self, processor: u32, line: Line) -> Option<Fault>
        ensures { result ≡ refused self.now processor line }
    {
        refusal(self.allowed.as_slice(), self.opening.len(), processor, line)
    }

    /// Takes a line for a processor that isn't refused.
    fn take_line(&mut self, processor: u32, line: Line) -> Result<(), AllocError>
        requires { refused self.old processor line ≡ None }
        ensures taken { OnOk result (self.new ≡ handed self.old processor line) }
        ensures same { OnErr result (self.new ≡ self.old) }
    {
        brings_words(line);
        let own = processor as usize;
        let more = line.operations() as usize;
        let room = self.allowed[own] + more;
        let all = sum_of(self.allowed.as_slice()) + more;
        let home = home_of(self.torus.tiles(), processor, line);
        let entries = self.tiles[home as usize].room() + more;
        self.book.reserve(processor, room, home, entries, all)?;
        put_line(&mut self.tiles, own, home as usize, line, room)?;
        let taken = take_back(&mut self.tiles, &mut self.row, &mut self.awake, own);
        self.awake.rouse(3 * own);
        self.allowed[own] = room;
        self.left += taken + 241 * more as u64;
        Ok(())
    }
}
