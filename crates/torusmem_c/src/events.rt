//! What happened to the operations that a machine has served, as C sees it.

ghost use Rattle.std.specs.Prelude.{◌≡◌, ◌⊎◌, ◌++◌, ◌∷◌, [], None, IfOk, OnOk, filter};
ghost use Rattle.std.specs.List.{flat_map};
ghost use Rattle.std.specs.List.Sorted.{IsNonDecreasingBy, IsPermutation};
ghost use Rattle.c_handles.specs.HeldMachine.{held};
ghost use Rattle.torusmem_c.specs.Held.{OnHeld};
ghost use Rattle.torusmem_c.specs.Happened.{IsHappenedSince, PutsHappened, PutsHappenedFrom, PutsHappenedSince};
ghost use Rattle.torusmem_c.specs.Happened.{happened_to, is_since, served_of};
ghost use Rattle.torusmem_c.specs.Room.{LacksMemory};

use crate::order::{OrderedRecord, ordered_record, rows_from};
use crate::outcome::{Outcome, no_memory};
use crate::room::put_over;
use c_handles::MachineHandle;
use machine_core::Ordered;
use std::alloc::{AllocError, Global};

/// What happened to an operation: its number among all events, from 1; 0 for its issue, 1 for its service and 2
/// for its answer; and the operation.
#[repr(C)]
#[derive(Clone, Copy)]
pub struct HappenedRecord {
    pub number: u32,
    pub what: u32,
    pub operation: OrderedRecord,
}

/// Puts an event behind others, if it has this number or a higher one.
fn put_since(
    events: &mut Vec<HappenedRecord>,
    from: u32,
    event: HappenedRecord,
) -> Result<(), AllocError>
    ensures { OnOk result
        (events.new.items ≡ events.old.items ++ filter (is_since from) (event ∷ [])) }
{
    if event.number >= from {
        events.push(event)?;
    }
    Ok(())
}

/// Puts the issue and the service of a row behind other events, from a number on.
fn put_served(events: &mut Vec<HappenedRecord>, from: u32, row: Ordered) -> Result<(), AllocError>
    ensures { OnOk result (events.new.items
        ≡ events.old.items ++ filter (is_since from) (served_of row)) }
{
    let operation = ordered_record(row);
    put_since(
        events,
        from,
        HappenedRecord {
            number: row.issued,
            what: 0,
            operation,
        },
    )?;
    put_since(
        events,
        from,
        HappenedRecord {
            number: row.served,
            what: 1,
            operation,
        },
    )?;
    Ok(())
}

/// Puts what happened to the operation of a row behind other events, from a number on.
fn put_row(events: &mut Vec<HappenedRecord>, from: u32, row: Ordered) -> Result<(), AllocError>
    ensures { OnOk result (events.new.items
        ≡ events.old.items ++ filter (is_since from) (happened_to row)) }
{
    put_served(events, from, row)?;
    let Some(number) = row.answered else {
        return Ok(());
    };
    put_since(
        events,
        from,
        HappenedRecord {
            number,
            what: 2,
            operation: ordered_record(row),
        },
    )?;
    Ok(())
}

/// What happened to the operations of rows, from a number on, by rows.
fn happened(alloc: Global, from: u32, rows: &[Ordered]) -> Result<Vec<HappenedRecord>, AllocError>
    ensures { IfOk result (λ events.
        events.items ≡ filter (is_since from) (flat_map happened_to rows.now)) }
{
    let mut events = Vec::new(alloc);
    for row in rows {
        put_row(&mut events, from, *row)?;
    }
    Ok(events)
}

/// Puts events in the order of their numbers.
fn put_in_order(events: &mut Vec<HappenedRecord>)
    ensures rising { IsNonDecreasingBy (λ e. e.number) events.new.items }
    ensures same { IsPermutation events.old.items events.new.items }
{
    events.sort_unstable_by_key(|event| event.number);
}

/// What happened to the operations of rows, from a number on, in the order of the numbers.
fn happened_in_order(
    alloc: Global,
    from: u32,
    rows: &[Ordered],
) -> Result<Vec<HappenedRecord>, AllocError>
    ensures { IfOk result (λ events. IsHappenedSince from rows.now events.items) }
{
    let mut events = happened(alloc, from, rows)?;
    put_in_order(&mut events);
    Ok(events)
}

/// Puts what happened to the operations of rows, from a number on, into a buffer, unless memory is refused.
fn put_happened(alloc: Global, rows: &[Ordered], from: u32, out: &mut [HappenedRecord]) -> Outcome
    ensures { PutsHappenedSince from rows.now out.old out.new result
        ⊎ LacksMemory out.old out.new result }
{
    match happened_in_order(alloc, from, rows) {
        Ok(events) => put_over(events.as_slice(), out),
        Err(_) => no_memory(),
    }
}

/// Puts the issues, services and answers of the operations that are served, from a number on, into a buffer, in
/// their order.
///
/// Errors: out of memory, or the buffer is too short. It is as it was then.
#[unsafe(no_mangle)]
pub extern "C" fn torusmem_events(
    alloc: Global,
    handle: &mut MachineHandle,
    from: u32,
    out: &mut [HappenedRecord],
) -> Outcome
    ensures held { OnHeld (PutsHappened from out.old out.new) (held handle.old) (held handle.new)
        result }
    ensures empty { held handle.old ≡ None → out.new ≡ out.old }
{
    match handle.machine() {
        Some(machine) => put_happened(alloc, machine.machine().rows(), from, out),
        None => Outcome::empty(),
    }
}

/// Puts the issues, services and answers, from a number on, of the operations whose rows stand in the order from
/// a row on, into a buffer, in their order. It looks at these rows alone.
///
/// Errors: out of memory, or the buffer is too short. It is as it was then.
#[unsafe(no_mangle)]
pub extern "C" fn torusmem_events_from(
    alloc: Global,
    handle: &mut MachineHandle,
    row: u32,
    from: u32,
    out: &mut [HappenedRecord],
) -> Outcome
    ensures held { OnHeld (PutsHappenedFrom row from out.old out.new) (held handle.old)
        (held handle.new) result }
    ensures empty { held handle.old ≡ None → out.new ≡ out.old }
{
    match handle.machine() {
        Some(machine) => put_happened(alloc, rows_from(machine.machine().rows(), row), from, out),
        None => Outcome::empty(),
    }
}
