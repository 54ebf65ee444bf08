ghost use Rattle.std.specs.Prelude.{◌≡◌, IfErr, IfOk, []};
ghost use Rattle.std.specs.Str.Lines.{lines};
ghost use Rattle.one_order.specs.Load.{Load};
ghost use Rattle.core_laws.specs.Core.{round};
ghost use Rattle.machine_core.specs.Loading.{HasLoaded, load_by};
ghost use Rattle.core_laws.specs.Machine.{IsAfter};
ghost use Rattle.fair_rounds.specs.declared.pacing.Pace.TheVariants.{InOrder};
ghost use Rattle.program_fault.specs.Done.{output};
ghost use Rattle.program_fault.specs.Outcome.{IsReadFault};
ghost use Rattle.command_schedule.specs.Rounds.{PutsRounds};
ghost use Rattle.command_schedule.specs.Schedules.{PrintsSchedule};

use crate::output::{put_end, put_moves};
use machine_core::{Machine, load};
use outcome_search::round_list::round_of;
use program_fault::ProgramFault;
use report_lines::{Out, OutputFailed};
use std::alloc::Allocator;
use torus::Step;

/// Runs the machine of a text, whose processors follow the scripts of a text, in rounds: until every
/// script is finished, and at most so many rounds. Prints the moves of each round, in their order,
/// behind a heading with the round's number, and a last line that says whether every script is
/// finished. Answers that. What is printed is a steps text of these moves.
///
/// Errors: the first fault of the texts, taken in the order machine, scripts, or out of memory; and
/// nothing was written then. If the output fails, a beginning was written.
pub fn schedule_text<A: Allocator + Copy, W: Out>(
    alloc: A,
    machine: &[u8],
    scripts: &[u8],
    rounds: u64,
    out: &mut W,
) -> Result<bool, ProgramFault>
    ensures { PrintsSchedule InOrder (load_by (lines machine.now) (lines scripts.now)) rounds
        (output (W.taken out.old) (W.failures out.old))
        (output (W.taken out.new) (W.failures out.new)) result }
{
    let mut machine = loaded(alloc, machine, scripts)?;
    let round = round_of(alloc, machine.torus())?;
    put_rounds(&mut machine, &round, rounds, out)?;
    let finished = put_end(&machine, out)?;
    Ok(finished)
}

/// The machine before any step.
pub(crate) fn loaded<A: Allocator + Copy>(
    alloc: A,
    machine: &[u8],
    scripts: &[u8],
) -> Result<Machine<A>, ProgramFault>
    ensures ok { IfOk result (HasLoaded (load_by (lines machine.now) (lines scripts.now))) }
    ensures err { IfErr result (IsReadFault (load_by (lines machine.now) (lines scripts.now))) }
{
    Ok(load(alloc, machine, scripts)?)
}

/// Makes rounds of these attempts until every script is finished, and at most so many, and puts their
/// moves.
fn put_rounds<A: Allocator, W: Out>(
    machine: &mut Machine<A>,
    attempts: &[Step],
    rounds: u64,
    out: &mut W,
) -> Result<(), OutputFailed>
    requires { attempts.now ≡ round machine.old.shape }
    ensures { (l : Load) → IsAfter l machine.old []
        → PutsRounds InOrder l rounds machine.new (output (W.taken out.old) (W.failures out.old))
        (output (W.taken out.new) (W.failures out.new)) result }
{
    for before in 0..rounds {
        if machine.finished() {
            return Ok(());
        }
        put_moves(machine, attempts, Some(before + 1), out)?;
    }
    Ok(())
}
