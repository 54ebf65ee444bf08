ghost use Rattle.std.specs.Prelude.{IfErr, IfOk, []};
ghost use Rattle.std.specs.Str.Lines.{lines};
ghost use Rattle.machine_parts.specs.Load.{Load};
ghost use Rattle.machine_parts.specs.Machine.{IsAfter};
ghost use Rattle.machine_core.specs.Loading.{HasLoaded, IsLoadFault, load_by};

use crate::Machine;
use lexer::LineFault;
use script::{read_machine, read_scripts};
use std::alloc::Allocator;

/// Loads the machine of a text, whose processors follow the scripts of a text: it has made no step.
///
/// Errors: the first fault of the texts with its line, taken in the order machine, scripts; or want of
/// memory, at line 0.
pub fn load<A: Allocator + Copy>(
    alloc: A,
    machine: &[u8],
    scripts: &[u8],
) -> Result<Machine<A>, LineFault>
    ensures loaded { IfOk result (HasLoaded (load_by (lines machine.now) (lines scripts.now))) }
    ensures fresh { IfOk result (λ m. (l : Load) × IsAfter l m []) }
    ensures fault { IfErr result (IsLoadFault (load_by (lines machine.now) (lines scripts.now))) }
{
    let machine = read_machine(alloc, machine)?;
    let scripts = read_scripts(alloc, scripts, &machine)?;
    match Machine::load(alloc, machine, scripts) {
        Ok(machine) => Ok(machine),
        Err(fault) => Err(LineFault { fault, line: 0 }),
    }
}
