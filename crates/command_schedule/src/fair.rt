//! The moves of fair rounds.

ghost use Rattle.std.specs.Prelude.{◌≡◌, ◌≤◌, ◌<◌, ◌+◌, ◌^◌, [], ℕ, Some, Option};
ghost use Rattle.std.specs.Prelude.{IfOk, Ok, OnOk, length};
ghost use Rattle.std.specs.Str.Lines.{lines};
ghost use Rattle.one_order.specs.Load.{Load};
ghost use Rattle.core_laws.specs.Machine.{IsAfter, core_after};
ghost use Rattle.core_laws.specs.MachineMoves.{moves_from};
ghost use Rattle.machine_core.specs.Loading.{load_by};
ghost use Rattle.tile.specs.declared.agent.Agent.TheVariants.{Processor};
ghost use Rattle.core_laws.specs.Mirrors.{tile_at};
ghost use Rattle.machine_core.specs.Guarded.{guarded_round, held_back, is_begin};
ghost use Rattle.machine_core.specs.Oldest.{oldest};
ghost use Rattle.fair_rounds.specs.Guard.{holds, guard_after};
ghost use Rattle.fair_rounds.specs.declared.pacing.Pace.TheVariants.{Fair};
ghost use Rattle.fair_rounds.specs.Fewest.{AreFewestPaced};
ghost use Rattle.fair_rounds.specs.Paces.{first_guard, guard_behind};
ghost use Rattle.program_fault.specs.Done.{output};
ghost use Rattle.command_schedule.specs.Fair.{fair_finished, is_held_back};
ghost use Rattle.command_schedule.specs.Line.{text_of};
ghost use Rattle.command_schedule.specs.Output.{Took, headed};
ghost use Rattle.command_schedule.specs.Rounds.{PutsRounds};
ghost use Rattle.command_schedule.specs.Schedules.{PrintsSchedule};

use crate::fair_list::{MOST_ATTEMPTS, keep_round};
use crate::in_rounds::loaded;
use crate::output::{put_attempt, put_end};
use fair_rounds::Guard;
use machine_core::Machine;
use program_fault::ProgramFault;
use report_lines::{Out, OutputFailed};
use std::alloc::Allocator;
use tile::{Agent, agent_kind, agent_tile};
use torus::{Choice, Step};

/// What the schedule of fair rounds came to.
#[derive(Clone, Copy)]
pub struct FairEnd {
    /// Whether every script is finished.
    pub finished: bool,
    /// In how many rounds a guard held operations back.
    pub held: u64,
}

/// Does what `schedule_text` does, in fair rounds, with a guard of so many rounds, or with the usual one; and
/// answers also in how many rounds it held operations back.
///
/// Errors: as `schedule_text`.
pub fn fair_schedule_text<A: Allocator + Copy, W: Out>(
    alloc: A,
    machine: &[u8],
    scripts: &[u8],
    rounds: u64,
    most: Option<u64>,
    out: &mut W,
) -> Result<FairEnd, ProgramFault>
    ensures prints { PrintsSchedule (Fair most)
        (load_by (lines machine.now) (lines scripts.now)) rounds
        (output (W.taken out.old) (W.failures out.old))
        (output (W.taken out.new) (W.failures out.new)) (fair_finished result) }
    ensures held { IfOk result (λ end. (l : Load) (k : ℕ)
        → load_by (lines machine.now) (lines scripts.now) ≡ Ok l
        → AreFewestPaced (Fair most) l rounds k → end.held ≡ (guard_behind (Fair most) l k).held) }
{
    let mut machine = loaded(alloc, machine, scripts)?;
    let mut guard = first_of(&machine, most);
    let mut room = [Step {
        agent: 0,
        choice: Choice::Send,
    }; MOST_ATTEMPTS];
    put_fair_rounds(&mut machine, &mut guard, &mut room, rounds, out)?;
    let finished = put_end(&machine, out)?;
    Ok(FairEnd {
        finished,
        held: guard.held_rounds(),
    })
}

/// The guard with which fair rounds of a machine begin: of so many rounds, or the usual one.
fn first_of<A: Allocator>(machine: &Machine<A>, most: Option<u64>) -> Guard
    ensures { result ≡ first_guard (Fair most) machine.now }
{
    match most {
        Some(most) => Guard::new(most),
        None => Guard::of(machine),
    }
}

/// Makes fair rounds by a guard until every script is finished, and at most so many, and puts their moves.
/// There is room for the attempts of one round.
fn put_fair_rounds<A: Allocator, W: Out>(
    machine: &mut Machine<A>,
    guard: &mut Guard,
    room: &mut [Step],
    rounds: u64,
    out: &mut W,
) -> Result<(), OutputFailed>
    requires { 5568 ≤ length room.old }
    ensures puts { (l : Load) (most : Option ℕ) → IsAfter l machine.old []
        → guard.old ≡ first_guard (Fair most) machine.old
        → PutsRounds (Fair most) l rounds machine.new
        (output (W.taken out.old) (W.failures out.old))
        (output (W.taken out.new) (W.failures out.new)) result }
    ensures guard { OnOk result ((l : Load) (most : Option ℕ) → IsAfter l machine.old []
        → guard.old ≡ first_guard (Fair most) machine.old
        → (k : ℕ) → AreFewestPaced (Fair most) l rounds k
        → guard.new ≡ guard_behind (Fair most) l k) }
{
    for before in 0..rounds {
        if machine.finished() {
            return Ok(());
        }
        put_fair_round(machine, guard, room, before, out)?;
    }
    Ok(())
}

/// Makes the fair round behind so many, by a guard, and puts its moves.
fn put_fair_round<A: Allocator, W: Out>(
    machine: &mut Machine<A>,
    guard: &mut Guard,
    room: &mut [Step],
    before: u64,
    out: &mut W,
) -> Result<(), OutputFailed>
    requires few { before + 1 < 2 ^ 64 }
    requires room { 5568 ≤ length room.old }
    ensures machine { OnOk result (machine.new ≡ core_after machine.old
        (guarded_round oldest (holds guard.old machine.old) machine.old)) }
    ensures guard { guard.new ≡ guard_after guard.old machine.old }
    ensures took { Took (text_of (headed (Some (before + 1))
        (moves_from machine.old (guarded_round oldest (holds guard.old machine.old) machine.old))))
        (output (W.taken out.old) (W.failures out.old))
        (output (W.taken out.new) (W.failures out.new)) result }
    ensures room { length room.new ≡ length room.old }
{
    let held = guard.watch(machine);
    let count = keep_round(machine, room);
    put_guarded(machine, held, &room[..count], before + 1, out)
}

/// Attempts the steps of the round of a number, one after the other, but those that begin an operation where
/// that is `held` back, and puts those that moved.
fn put_guarded<A: Allocator, W: Out>(
    machine: &mut Machine<A>,
    held: bool,
    steps: &[Step],
    number: u64,
    out: &mut W,
) -> Result<(), OutputFailed>
    ensures machine { OnOk result
        (machine.new ≡ core_after machine.old (held_back held machine.old steps.now)) }
    ensures took { Took (text_of (headed (Some number)
        (moves_from machine.old (held_back held machine.old steps.now))))
        (output (W.taken out.old) (W.failures out.old))
        (output (W.taken out.new) (W.failures out.new)) result }
{
    let mut heading = Some(number);
    for step in steps {
        if holds_back(machine, held, *step) {
            continue;
        }
        heading = put_attempt(machine, *step, heading, out)?;
    }
    Ok(())
}

/// Whether an attempt is held back: it would begin an operation.
fn holds_back<A: Allocator>(machine: &Machine<A>, held: bool, step: Step) -> bool
    ensures { result ≡ is_held_back held machine.now step }
{
    if !held {
        return false;
    }
    match agent_kind(step.agent) {
        Agent::Processor => begins(machine, agent_tile(step.agent), step.choice),
        Agent::Router | Agent::Bank => false,
    }
}

/// Whether a choice of a tile's processor begins an operation: it sends, and no request is in course.
fn begins<A: Allocator>(machine: &Machine<A>, tile: u32, choice: Choice) -> bool
    ensures { result
        ≡ is_begin Processor choice (tile_at machine.now.state tile).processor.to_put }
{
    match choice {
        Choice::Send => machine.is_between_requests(tile),
        _ => false,
    }
}
