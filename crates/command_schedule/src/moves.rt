ghost use Rattle.std.specs.Prelude.{IfErr, IfOk};
ghost use Rattle.std.specs.Str.Lines.{lines};
ghost use Rattle.program_fault.specs.Done.{output};
ghost use Rattle.program_fault.specs.Outcome.{IsReadFault};
ghost use Rattle.machine_core.specs.Run.{asked_of};
ghost use Rattle.command_schedule.specs.Asked.{HasOpened};
ghost use Rattle.command_schedule.specs.Schedules.{PrintsMoves};

use crate::output::{put_end, put_moves};
use machine_core::Machine;
use program_fault::ProgramFault;
use report_lines::Out;
use script::{read_machine, read_scripts, read_steps};
use std::alloc::Allocator;
use torus::Step;

/// Runs the listed steps on the machine of a text, whose processors follow the scripts of a text, and
/// prints those that moved, in their order, and a last line that says whether every script is
/// finished. Answers that. What is printed is a steps text of these moves.
///
/// Errors: the first fault of the texts, taken in the order machine, scripts, steps, or out of
/// memory; and nothing was written then. If the output fails, a beginning was written.
pub fn moves_text<A: Allocator + Copy, W: Out>(
    alloc: A,
    machine: &[u8],
    scripts: &[u8],
    steps: &[u8],
    out: &mut W,
) -> Result<bool, ProgramFault>
    ensures { PrintsMoves (asked_of (lines machine.now) (lines scripts.now) (lines steps.now))
        (output (W.taken out.old) (W.failures out.old))
        (output (W.taken out.new) (W.failures out.new)) result }
{
    let ready = open_texts(alloc, machine, scripts, steps)?;
    let Opened { mut machine, steps } = ready;
    put_moves(&mut machine, &steps, None, out)?;
    let finished = put_end(&machine, out)?;
    Ok(finished)
}

/// A machine that has made no step, and the steps that it is to make.
#[derive(Drop)]
struct Opened<A: Allocator> {
    machine: Machine<A>,
    steps: Vec<Step, A>,
}

/// What three texts ask for.
fn open_texts<A: Allocator + Copy>(
    alloc: A,
    machine: &[u8],
    scripts: &[u8],
    steps: &[u8],
) -> Result<Opened<A>, ProgramFault>
    ensures ok { IfOk result
        (λ o. HasOpened (asked_of (lines machine.now) (lines scripts.now) (lines steps.now))
        o.machine o.steps.items) }
    ensures err { IfErr result
        (IsReadFault (asked_of (lines machine.now) (lines scripts.now) (lines steps.now))) }
{
    let machine = read_machine(alloc, machine)?;
    let scripts = read_scripts(alloc, scripts, &machine)?;
    let steps = read_steps(alloc, steps, &machine)?;
    let machine = Machine::load(alloc, machine, scripts)?;
    Ok(Opened { machine, steps })
}
