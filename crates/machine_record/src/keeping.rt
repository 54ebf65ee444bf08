//! What is kept of what is done to a machine: nothing, or a record.

ghost use Rattle.std.specs.Prelude.{◌≡◌, ◌⊎◌, ◌<◌, ◌≤◌, true, false, OnErr, OnOk, None, Some, length, vec_capacity, vec_len};
ghost use Rattle.std.specs.Prelude.{option_and_then};
ghost use Rattle.machine_record.specs.Action.{action_of, is_narrow, joined, joined_last, one_turned};
ghost use Rattle.machine_record.specs.Recorded.{recording_of, room_of};
ghost use Rattle.machine_record.specs.Machine.{HasNoLessRoom, with_action, with_row};
ghost use Rattle.machine_record.specs.MachineInside.{KeepsRowWithin, KeepsWithin};

use crate::action::{TURNS, Turns};
use crate::{Action, LineRow, Record};
use script::Line;
use std::alloc::{AllocError, Allocator};

/// One more than the greatest number of rounds, and of lines, that a record can name.
const MOST: u64 = 268435456;

/// What the action of a number and one behind it are together; `None` where they can't be joined.
#[tactic(auto, using(crate::proofs::Joins::joins_no_move, crate::proofs::Joins::joins_no_line, crate::proofs::Joins::joins_no_clocked))]
#[inline(always)]
fn joined_by(number: u32, next: Action) -> Option<Action>
    ensures { result ≡ option_and_then (λ last. joined last next) (action_of number) }
{
    match next {
        Action::Move(_) | Action::Line(_) | Action::Clocked(_) | Action::ClockedRounds(_) => None,
        _ => Action::of_number(number)?.joined(next),
    }
}

/// What the last action of a record and one behind it are together.
#[inline(always)]
fn joined_last(actions: &[u32], next: Action) -> Option<Action>
    ensures { result ≡ joined_last actions.now next }
{
    match actions.len() {
        0 => None,
        count => joined_by(actions[count - 1], next),
    }
}

/// Puts an action behind a record: it is joined to the last, where that can be.
///
/// Errors: no number names it, or out of memory.
#[inline(always)]
fn put<A: Allocator>(kept: &mut Record<A>, action: Action) -> Result<(), AllocError>
    ensures put { OnOk result ((is_narrow action ≡ true)
        × (recording_of kept.new ≡ with_action action (recording_of kept.old))
        × HasNoLessRoom (room_of (Some kept.old)) (room_of (Some kept.new))) }
    ensures full { OnErr result ((is_narrow action ≡ false)
        ⊎ ((joined_last kept.old.actions.items action ≡ None)
        × (vec_capacity kept.old.actions ≤ vec_len kept.old.actions))) }
{
    if !action.is_narrow() {
        return Err(AllocError);
    }
    let Some(both) = joined_last(&kept.actions, action) else {
        kept.actions.push(action.number())?;
        return Ok(());
    };
    let last = kept.actions.len() - 1;
    kept.actions[last] = both.number();
    Ok(())
}

/// Keeps an action. The record ends where no number names the action, or memory is refused.
#[tactic(auto, using(crate::proofs::Kept::keeps_none, crate::proofs::Kept::keeps_put, crate::proofs::Kept::ends_full))]
#[inline(always)]
pub(crate) fn keep<A: Allocator>(kept: &mut Option<Record<A>>, action: Action)
    ensures { KeepsWithin action kept.old kept.new }
{
    let Some(record) = kept else {
        return;
    };
    if put(record, action).is_err() {
        *kept = None;
    }
}

/// Keeps rounds. The record ends where no number names them, or memory is refused.
#[tactic(auto, using(crate::proofs::Kept::ends_wide))]
pub(crate) fn keep_rounds<A: Allocator>(kept: &mut Option<Record<A>>, count: u64)
    ensures { KeepsWithin (Action.Rounds count) kept.old kept.new }
{
    if count < MOST {
        keep(kept, Action::Rounds(count as u32));
    } else {
        *kept = None;
    }
}

/// Keeps a clocked round of a turn. The record ends where memory is refused.
pub(crate) fn keep_clocked<A: Allocator>(kept: &mut Option<Record<A>>, turn: u64)
    ensures { KeepsWithin (one_turned turn) kept.old kept.new }
{
    keep(
        kept,
        Action::Turned(Turns {
            first: (turn % u64::from(TURNS)) as u32,
            count: 1,
        }),
    );
}

/// Keeps clocked rounds, with the turns from 0 on. The record ends where no number names them, or memory is
/// refused.
#[tactic(auto, using(crate::proofs::Kept::ends_wide))]
pub(crate) fn keep_clocked_rounds<A: Allocator>(kept: &mut Option<Record<A>>, count: u64)
    ensures { KeepsWithin (Action.ClockedRounds count) kept.old kept.new }
{
    if count < MOST {
        keep(kept, Action::ClockedRounds(count as u32));
    } else {
        *kept = None;
    }
}

/// Keeps fair rounds. The record ends where no number names them, or memory is refused.
#[tactic(auto, using(crate::proofs::Kept::ends_wide))]
pub(crate) fn keep_fair_rounds<A: Allocator>(kept: &mut Option<Record<A>>, count: u64)
    ensures { KeepsWithin (Action.FairRounds count) kept.old kept.new }
{
    if count < MOST {
        keep(kept, Action::FairRounds(count as u32));
    } else {
        *kept = None;
    }
}

/// Puts a line that a processor is handed behind a record.
///
/// Errors: no number names it, or out of memory.
fn put_line<A: Allocator>(
    kept: &mut Record<A>,
    processor: u32,
    line: Line,
) -> Result<(), AllocError>
    ensures put { OnOk result ((length kept.old.rows.items < 268435456)
        × (recording_of kept.new ≡ with_row processor line (recording_of kept.old))
        × HasNoLessRoom (room_of (Some kept.old)) (room_of (Some kept.new))) }
    ensures full { OnErr result ((268435456 ≤ vec_len kept.old.rows)
        ⊎ (vec_capacity kept.old.rows ≤ vec_len kept.old.rows)
        ⊎ (vec_capacity kept.old.actions ≤ vec_len kept.old.actions)) }
{
    let number = kept.rows.len();
    if number as u64 >= MOST {
        return Err(AllocError);
    }
    kept.rows.push(LineRow::of(processor, line))?;
    kept.actions.push(Action::Line(number as u32).number())?;
    Ok(())
}

/// Keeps that a processor was handed a line. The record ends where no number names it, or memory is refused.
#[tactic(auto, using(crate::proofs::Kept::keeps_no_row, crate::proofs::Kept::keeps_row, crate::proofs::Kept::ends_at_row))]
pub(crate) fn keep_line<A: Allocator>(kept: &mut Option<Record<A>>, processor: u32, line: Line)
    ensures { KeepsRowWithin processor line kept.old kept.new }
{
    let Some(record) = kept else {
        return;
    };
    if put_line(record, processor, line).is_err() {
        *kept = None;
    }
}
