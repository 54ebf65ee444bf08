//! Steps and rounds of the machine that a handle holds.

ghost use Rattle.std.specs.Prelude.{◌≡◌};
ghost use Rattle.c_handles.specs.HeldMachine.{held};
ghost use Rattle.torusmem_c.specs.Held.{HandleTells, OnCore, OnHeld};
ghost use Rattle.torusmem_c.specs.Outcome.{c_outcome};
ghost use Rattle.torusmem_c.specs.Steps.{MakesAllSteps, MakesNamed, MakesRound, MakesSteps, SaysFinished, TellsFinished};
ghost use Rattle.torusmem_c.specs.Steps.{TellsMovesLeft, enabled_told, first_unnamed, moved_number, steps_named};

use crate::choice::{attempt_named, step_named};
use crate::outcome::{Code, Outcome};
use c_handles::MachineHandle;
use machine_record::RecordedMachine;
use machine_report::Machine;
use torus::{Stepped, Torus};

/// Attempts one choice of one agent: 1 where it moved, 0 where it was idle.
///
/// Errors: there is no such agent, or it has no such choice. Nothing changes then.
#[unsafe(no_mangle)]
pub extern "C" fn torusmem_step(
    handle: &mut MachineHandle,
    agent: u32,
    choice: u32,
    number: u32,
) -> Outcome
    ensures { OnHeld (MakesNamed agent choice number) (held handle.old) (held handle.new) result }
{
    match handle.machine() {
        Some(machine) => made(machine, agent, choice, number),
        None => Outcome::empty(),
    }
}

/// Makes the step that is named, if there is one.
#[inline(always)]
fn made(machine: &mut RecordedMachine, agent: u32, choice: u32, number: u32) -> Outcome
    ensures { OnCore (MakesNamed agent choice number) machine.old.asked machine.new.asked result }
{
    match step_named(machine.machine().torus(), agent, choice, number) {
        Some(attempt) => Outcome::done(moved(machine.step(attempt))),
        None => Outcome::no_such(),
    }
}

/// 1 where a step moved, 0 where it was idle.
#[inline(always)]
fn moved(stepped: Stepped) -> u64
    ensures { result ≡ moved_number stepped }
{
    match stepped {
        Stepped::Moved => 1,
        Stepped::Idle => 0,
    }
}

/// An attempt as C writes it: an agent, the number of a choice, and that of an input or output where the
/// choice needs one.
#[repr(C)]
#[derive(Clone, Copy)]
pub struct AttemptRecord {
    pub agent: u32,
    pub choice: u32,
    pub number: u32,
}

/// The place of the first attempt that names no step of a torus.
fn first_unnamed(torus: &Torus, attempts: &[AttemptRecord]) -> Option<usize>
    ensures { result ≡ first_unnamed torus.now attempts.now }
{
    let mut at = 0;
    for it in attempts {
        if step_named(torus, it.agent, it.choice, it.number).is_none() {
            return Some(at);
        }
        at += 1;
    }
    None
}

/// Makes attempts, if all of them name steps.
fn made_if_named(machine: &mut RecordedMachine, attempts: &[AttemptRecord]) -> Outcome
    ensures { OnCore (MakesAllSteps attempts.now) machine.old.asked machine.new.asked result }
{
    match first_unnamed(machine.machine().torus(), attempts) {
        Some(at) => Outcome::of(Code::NoSuch, at as u64),
        None => Outcome::done(made_all(machine, attempts)),
    }
}

/// Attempts choices of agents, one after the other, and answers how many of them moved.
///
/// Errors: one of them is no choice of an agent; the place of the first such is told, and none is made.
#[unsafe(no_mangle)]
pub extern "C" fn torusmem_run(handle: &mut MachineHandle, attempts: &[AttemptRecord]) -> Outcome
    ensures { OnHeld (MakesAllSteps attempts.now) (held handle.old) (held handle.new) result }
{
    match handle.machine() {
        Some(machine) => made_if_named(machine, attempts),
        None => Outcome::empty(),
    }
}

/// How many moves are left.
fn moves_left(machine: &RecordedMachine) -> u64
    ensures { result ≡ machine.now.asked.core.moves_left }
{
    machine.machine().moves_left()
}

/// Makes the steps that are named, one after the other, and answers how many of them moved: each move
/// takes one from the moves that are left.
fn made_all(machine: &mut RecordedMachine, attempts: &[AttemptRecord]) -> u64
    ensures { OnCore (MakesSteps (steps_named attempts.now)) machine.old.asked machine.new.asked
        (c_outcome Code.Done result) }
{
    machine.reached();
    let left = moves_left(machine);
    for it in attempts {
        if let Some(attempt) = attempt_named(it.agent, it.choice, it.number) {
            let _ = machine.step(attempt);
        }
    }
    left - moves_left(machine)
}

/// Whether one choice of one agent is enabled: 1 or 0.
///
/// Errors: there is no such agent, or it has no such choice.
#[unsafe(no_mangle)]
pub extern "C" fn torusmem_enabled(
    handle: &mut MachineHandle,
    agent: u32,
    choice: u32,
    number: u32,
) -> Outcome
    ensures { OnHeld (HandleTells (enabled_told agent choice number)) (held handle.old)
        (held handle.new) result }
{
    match handle.machine() {
        Some(machine) => enabled_told(machine.machine(), agent, choice, number),
        None => Outcome::empty(),
    }
}

/// Whether the step that is named is enabled, if there is one.
fn enabled_told(machine: &Machine, agent: u32, choice: u32, number: u32) -> Outcome
    ensures { result ≡ enabled_told agent choice number machine.now }
{
    match step_named(machine.torus(), agent, choice, number) {
        Some(attempt) => Outcome::told(machine.enabled(attempt)),
        None => Outcome::no_such(),
    }
}

/// Makes one round.
#[unsafe(no_mangle)]
pub extern "C" fn torusmem_round(handle: &mut MachineHandle) -> Outcome
    ensures { OnHeld MakesRound (held handle.old) (held handle.new) result }
{
    match handle.machine() {
        Some(machine) => {
            machine.round();
            Outcome::done(0)
        }
        None => Outcome::empty(),
    }
}

/// Makes rounds until every script is finished, and answers how many.
#[unsafe(no_mangle)]
pub extern "C" fn torusmem_finish(handle: &mut MachineHandle) -> Outcome
    ensures { OnHeld SaysFinished (held handle.old) (held handle.new) result }
{
    match handle.machine() {
        Some(machine) => Outcome::done(machine.finish()),
        None => Outcome::empty(),
    }
}

/// Whether every script is finished: 1 or 0.
#[unsafe(no_mangle)]
pub extern "C" fn torusmem_finished(handle: &mut MachineHandle) -> Outcome
    ensures { OnHeld TellsFinished (held handle.old) (held handle.new) result }
{
    match handle.machine() {
        Some(machine) => Outcome::told(machine.machine().finished()),
        None => Outcome::empty(),
    }
}

/// How many moves the scripts still allow.
#[unsafe(no_mangle)]
pub extern "C" fn torusmem_moves_left(handle: &mut MachineHandle) -> Outcome
    ensures { OnHeld TellsMovesLeft (held handle.old) (held handle.new) result }
{
    match handle.machine() {
        Some(machine) => Outcome::done(machine.machine().moves_left()),
        None => Outcome::empty(),
    }
}
