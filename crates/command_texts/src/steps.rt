ghost use Rattle.std.specs.Prelude.{◌≡◌, ◌-◌, IfErr, IfOk};
ghost use Rattle.std.specs.Str.Lines.{lines};
ghost use Rattle.program_fault.specs.Done.{Does, output};
ghost use Rattle.program_fault.specs.Outcome.{IsReadFault, IsTextsFault};
ghost use Rattle.command_texts.specs.Ends.{ShowsReached};
ghost use Rattle.command_texts.specs.Run.{HasMoved, HasRun, IsRunOfMachine, IsNoFault, PrintsRun};
ghost use Rattle.command_texts.specs.Run.{asked_of};
ghost use Rattle.command_texts.specs.Telling.{TellsSteps};

use crate::ProgramFault;
use crate::ending::Ending;
use crate::in_rounds::{Progress, Silent};
use core_laws::machine_laws::{moves_are_counted, steps_decide_the_machine};
use machine_core::Machine;
use machine_report::{of_run, write_report};
use report_lines::Out;
use script::{read_machine, read_scripts, read_steps};
use std::alloc::Allocator;

/// Runs the listed steps on the machine of a text, whose processors follow the scripts of a text, and
/// prints the report of the run. Answers whether every script is finished.
///
/// Errors: the first fault of the texts, taken in the order machine, scripts, steps, or want of
/// memory; and nothing was written then. If the output fails, a beginning was written.
pub fn steps_text<A: Allocator + Copy, W: Out>(
    alloc: A,
    machine: &[u8],
    scripts: &[u8],
    steps: &[u8],
    out: &mut W,
) -> Result<bool, ProgramFault>
    ensures { PrintsRun (asked_of (lines machine.now) (lines scripts.now) (lines steps.now))
        (output (W.taken out.old) (W.failures out.old))
        (output (W.taken out.new) (W.failures out.new)) result }
{
    steps_text_with(
        alloc,
        machine,
        scripts,
        steps,
        out,
        &mut Silent,
        &mut Silent,
    )
}

/// Does what `steps_text` does, and reports to `progress` the end of the run, with how many of the steps
/// moved. A fault of the texts, and memory refused for the machine, come before it gets any report.
/// `ending` is shown the machine whose report is printed.
///
/// Errors: as `steps_text`.
pub fn steps_text_with<A: Allocator + Copy, W: Out, P: Progress, E: Ending>(
    alloc: A,
    machine: &[u8],
    scripts: &[u8],
    steps: &[u8],
    out: &mut W,
    progress: &mut P,
    ending: &mut E,
) -> Result<bool, ProgramFault>
    ensures prints { PrintsRun (asked_of (lines machine.now) (lines scripts.now) (lines steps.now))
        (output (W.taken out.old) (W.failures out.old))
        (output (W.taken out.new) (W.failures out.new)) result }
    ensures told { TellsSteps (asked_of (lines machine.now) (lines scripts.now) (lines steps.now))
        (P.heard progress.old) (P.heard progress.new) result }
    ensures ends { Does
        (ShowsReached (HasRun (asked_of (lines machine.now) (lines scripts.now) (lines steps.now)))
        (E.saw ending.new))
        (IsTextsFault (asked_of (lines machine.now) (lines scripts.now) (lines steps.now)))
        (output (W.taken out.old) (W.failures out.old))
        (output (W.taken out.new) (W.failures out.new)) result }
{
    let (machine, moves) = ran(alloc, machine, scripts, steps)?;
    progress.ended(moves, 0);
    ending.shown(&machine);
    print_run(alloc, &machine, out)
}

/// The machine after the steps, and how many of them moved.
fn ran<A: Allocator + Copy>(
    alloc: A,
    machine: &[u8],
    scripts: &[u8],
    steps: &[u8],
) -> Result<(Machine<A>, u64), ProgramFault>
    ensures ok { IfOk result
        (λ r. HasRun (asked_of (lines machine.now) (lines scripts.now) (lines steps.now)) r.0) }
    ensures moved { IfOk result
        (λ r. HasMoved (asked_of (lines machine.now) (lines scripts.now) (lines steps.now)) r.1) }
    ensures err { IfErr result
        (IsReadFault (asked_of (lines machine.now) (lines scripts.now) (lines steps.now))) }
{
    let machine = read_machine(alloc, machine)?;
    let scripts = read_scripts(alloc, scripts, &machine)?;
    let steps = read_steps(alloc, steps, &machine)?;
    let mut machine = Machine::load(alloc, machine, scripts)?;
    let most = machine.moves_left();
    machine.run(&steps);
    steps_decide_the_machine();
    moves_are_counted();
    let moves = moves_since(most, &machine);
    Ok((machine, moves))
}

/// How many moves a machine has made since so many were left.
pub(crate) fn moves_since<A: Allocator>(most: u64, machine: &Machine<A>) -> u64
    ensures { result ≡ most - machine.now.moves_left }
{
    most.saturating_sub(machine.moves_left())
}

/// Prints the report of the machine's run. Answers whether every script is finished.
pub(crate) fn print_run<A: Allocator + Copy, W: Out>(
    alloc: A,
    machine: &Machine<A>,
    out: &mut W,
) -> Result<bool, ProgramFault>
    ensures { Does (IsRunOfMachine machine.now) IsNoFault
        (output (W.taken out.old) (W.failures out.old))
        (output (W.taken out.new) (W.failures out.new)) result }
{
    let finished = machine.finished();
    let report = of_run(alloc, machine)?;
    write_report(out, &report)?;
    Ok(finished)
}
