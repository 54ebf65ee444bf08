//! What a record's actions do to a machine.

ghost use Rattle.std.specs.Prelude.{◌≡◌, IfOk};
ghost use Rattle.machine_asked.specs.Asked.{fair_rounds_made};
ghost use Rattle.machine_record.specs.Replay.{acted, acted_by, clocked_rounds_made, machine_moved};
ghost use Rattle.machine_record.specs.Replay.{rounds_made, row_handed, turned_made};
ghost use Rattle.machine_record.specs.Replayed.{ComesInTurn, Replays};

use crate::action::{Turns, turn_behind};
use crate::{Action, LineRow};
use machine_asked::AskedMachine;
use std::alloc::{AllocError, Allocator};
use torus::{Fault, Step, Stepped};

/// Makes a move. Answers whether the choice was enabled; nothing has changed otherwise.
fn moved<A: Allocator>(machine: &mut AskedMachine<A>, step: Step) -> bool
    ensures { ComesInTurn (machine_moved machine.old step) machine.new result }
{
    match machine.step(step) {
        Stepped::Moved => true,
        Stepped::Idle => false,
    }
}

/// Makes so many rounds.
pub(crate) fn make_rounds<A: Allocator>(machine: &mut AskedMachine<A>, count: u32)
    ensures { machine.new ≡ rounds_made machine.old count }
{
    for made in 0..count {
        machine.round();
    }
}

/// Makes so many clocked rounds, with the turns from 0 on.
fn make_clocked<A: Allocator>(machine: &mut AskedMachine<A>, count: u32)
    ensures { machine.new ≡ clocked_rounds_made machine.old count }
{
    for turn in 0..count {
        machine.clocked_round(turn as u64);
    }
}

/// Makes so many fair rounds.
fn make_fair<A: Allocator>(machine: &mut AskedMachine<A>, count: u32)
    ensures { machine.new ≡ fair_rounds_made machine.old count }
{
    for made in 0..count {
        machine.fair_round();
    }
}

/// Makes clocked rounds in a row, each of the turn behind that of the one before it.
fn make_turned<A: Allocator>(machine: &mut AskedMachine<A>, turns: Turns)
    ensures { machine.new ≡ turned_made machine.old turns.first turns.count }
{
    for made in 0..turns.count {
        machine.clocked_round(turn_behind(turns.first, made));
    }
}

/// Hands a processor the line of a row. Answers whether the row is a line, and the machine takes it.
///
/// Errors: out of memory.
fn hand<A: Allocator>(machine: &mut AskedMachine<A>, row: LineRow) -> Result<bool, AllocError>
    ensures { IfOk result (λ done. ComesInTurn (row_handed machine.old row) machine.new done) }
{
    let Some(line) = row.line() else {
        return Ok(false);
    };
    match machine.append(row.processor, line) {
        Ok(()) => Ok(true),
        Err(Fault::Memory) => Err(AllocError),
        Err(_) => Ok(false),
    }
}

/// Does what an action says. Answers whether it can be done.
///
/// Errors: out of memory.
fn act<A: Allocator>(
    machine: &mut AskedMachine<A>,
    rows: &[LineRow],
    action: Action,
) -> Result<bool, AllocError>
    ensures { IfOk result (λ done. ComesInTurn (acted rows.now machine.old action) machine.new done) }
{
    match action {
        Action::Move(step) => Ok(moved(machine, step)),
        Action::Rounds(count) => {
            make_rounds(machine, count);
            Ok(true)
        }
        Action::Line(number) => match rows.get(number as usize) {
            Some(row) => hand(machine, *row),
            None => Ok(false),
        },
        Action::Clocked(turn) => {
            machine.clocked_round(turn as u64);
            Ok(true)
        }
        Action::ClockedRounds(count) => {
            make_clocked(machine, count);
            Ok(true)
        }
        Action::FairRounds(count) => {
            make_fair(machine, count);
            Ok(true)
        }
        Action::Turned(turns) => {
            make_turned(machine, turns);
            Ok(true)
        }
    }
}

/// Does what the action of a number says. Answers whether there is one, and it can be done.
///
/// Errors: out of memory.
fn act_by<A: Allocator>(
    machine: &mut AskedMachine<A>,
    rows: &[LineRow],
    number: u32,
) -> Result<bool, AllocError>
    ensures { IfOk result (λ done. ComesInTurn (acted_by rows.now machine.old number) machine.new done) }
{
    match Action::of_number(number) {
        Some(action) => act(machine, rows, action),
        None => Ok(false),
    }
}

/// Does what the actions of some numbers say, one after the other, up to the first that can't be done. Answers
/// its place among them, if there is one.
///
/// Errors: out of memory.
pub fn replay<A: Allocator>(
    machine: &mut AskedMachine<A>,
    rows: &[LineRow],
    actions: &[u32],
) -> Result<Option<usize>, AllocError>
    ensures { IfOk result (λ at. Replays rows.now actions.now machine.old machine.new at) }
{
    let mut at = 0;
    for number in actions {
        if !act_by(machine, rows, *number)? {
            return Ok(Some(at));
        }
        at += 1;
    }
    Ok(None)
}
