ghost use Rattle.std.specs.Prelude.{◌≡◌, ◌≤◌, ◌<◌, ◌+◌, ◌^◌, [], Some, OnOk, length, take};
ghost use Rattle.std.specs.Str.Lines.{lines};
ghost use Rattle.one_order.specs.Load.{Load};
ghost use Rattle.core_laws.specs.Machine.{IsAfter, core_after};
ghost use Rattle.core_laws.specs.MachineMoves.{moves_from};
ghost use Rattle.machine_core.specs.Loading.{load_by};
ghost use Rattle.machine_core.specs.Clocked.{clocked_round};
ghost use Rattle.fair_rounds.specs.declared.pacing.Pace.TheVariants.{Turned};
ghost use Rattle.program_fault.specs.Done.{output};
ghost use Rattle.command_schedule.specs.Drawn.{enabled_now};
ghost use Rattle.command_schedule.specs.Line.{text_of};
ghost use Rattle.command_schedule.specs.Output.{Took, headed};
ghost use Rattle.command_schedule.specs.Rounds.{PutsRounds};
ghost use Rattle.command_schedule.specs.Schedules.{PrintsSchedule};
ghost use Rattle.command_schedule.specs.Turned.{AreTurned, HasChoiceRoom};

use crate::in_rounds::loaded;
use crate::output::{put_end, put_moves};
use crate::turned_list::{attempts_at, turned_rounds};
use machine_core::Machine;
use outcome_search::round_list::round_of;
use program_fault::ProgramFault;
use report_lines::{Out, OutputFailed};
use std::alloc::Allocator;
use torus::Step;

/// Does what `schedule_text` does, in clocked rounds, with the turns from 0 on: each attempts once what
/// is enabled when it begins.
///
/// Errors: as `schedule_text`.
pub fn clocked_schedule_text<A: Allocator + Copy, W: Out>(
    alloc: A,
    machine: &[u8],
    scripts: &[u8],
    rounds: u64,
    out: &mut W,
) -> Result<bool, ProgramFault>
    ensures { PrintsSchedule Turned (load_by (lines machine.now) (lines scripts.now)) rounds
        (output (W.taken out.old) (W.failures out.old))
        (output (W.taken out.new) (W.failures out.new)) result }
{
    let mut machine = loaded(alloc, machine, scripts)?;
    let turned = turned_rounds(alloc, machine.torus())?;
    let mut room = round_of(alloc, machine.torus())?;
    put_clocked_rounds(&mut machine, &turned, &mut room, rounds, out)?;
    let finished = put_end(&machine, out)?;
    Ok(finished)
}

/// Makes clocked rounds, of these attempts at each turn, until every script is finished, and at most so
/// many, and puts their moves. There is room for the attempts of one round.
fn put_clocked_rounds<A: Allocator, W: Out>(
    machine: &mut Machine<A>,
    turned: &[Vec<Step, A>],
    room: &mut [Step],
    rounds: u64,
    out: &mut W,
) -> Result<(), OutputFailed>
    requires turned { AreTurned machine.old.shape turned.now }
    requires room { HasChoiceRoom machine.old.shape room.old }
    ensures { (l : Load) → IsAfter l machine.old []
        → PutsRounds Turned l rounds machine.new (output (W.taken out.old) (W.failures out.old))
        (output (W.taken out.new) (W.failures out.new)) result }
{
    for before in 0..rounds {
        if machine.finished() {
            return Ok(());
        }
        put_clocked_round(machine, turned, room, before, out)?;
    }
    Ok(())
}

/// Makes the clocked round behind so many, of these attempts at each turn, and puts its moves.
fn put_clocked_round<A: Allocator, W: Out>(
    machine: &mut Machine<A>,
    turned: &[Vec<Step, A>],
    room: &mut [Step],
    before: u64,
    out: &mut W,
) -> Result<(), OutputFailed>
    requires few { before + 1 < 2 ^ 64 }
    requires turned { AreTurned machine.old.shape turned.now }
    requires room { HasChoiceRoom machine.old.shape room.old }
    ensures machine { OnOk result
        (machine.new ≡ core_after machine.old (clocked_round machine.old before)) }
    ensures took { Took (text_of (headed (Some (before + 1))
        (moves_from machine.old (clocked_round machine.old before))))
        (output (W.taken out.old) (W.failures out.old))
        (output (W.taken out.new) (W.failures out.new)) result }
    ensures room { length room.new ≡ length room.old }
{
    let attempts = attempts_at(turned, before);
    let count = keep_enabled(machine, attempts, room);
    put_moves(machine, &room[..count], Some(before + 1), out)
}

/// Keeps those of the attempts that are enabled now, in their order, and answers how many.
fn keep_enabled<A: Allocator>(machine: &Machine<A>, attempts: &[Step], room: &mut [Step]) -> usize
    requires { length attempts.now ≤ length room.old }
    ensures kept { take result room.new ≡ enabled_now machine.now attempts.now }
    ensures within { result ≤ length room.new }
    ensures room { length room.new ≡ length room.old }
{
    let mut count = 0;
    for attempt in attempts {
        if !machine.enabled(*attempt) {
            continue;
        }
        room[count] = *attempt;
        count += 1;
    }
    count
}
