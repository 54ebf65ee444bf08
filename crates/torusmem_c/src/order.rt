//! The one legal order of what a machine has served, as C sees it.

ghost use Rattle.std.specs.Prelude.{◌≡◌, ◌+◌, ◌≤◌, None, drop, length, map};
ghost use Rattle.c_handles.specs.HeldMachine.{held};
ghost use Rattle.torusmem_c.specs.Held.{HandleTells, OnHeld};
ghost use Rattle.torusmem_c.specs.Orders.{PutsOrdered, answered_first, answered_told, ordered_record};
ghost use Rattle.torusmem_c.specs.Room.{put_over, put_outcome};

use crate::outcome::{Code, Outcome};
use c_handles::MachineHandle;
use machine_core::Ordered;

/// A row of the order: the service, the operation, and the numbers of its issue, its service and its answer
/// among all events, from 1; 0 where it isn't answered yet.
#[repr(C)]
#[derive(Clone, Copy)]
pub struct OrderedRecord {
    pub bank: u32,
    pub place: u32,
    pub source: u32,
    pub index: u32,
    pub issued: u32,
    pub served: u32,
    pub answered: u32,
}

/// What C sees of a row of the order.
pub(crate) fn ordered_record(row: Ordered) -> OrderedRecord
    ensures { result ≡ ordered_record row }
{
    OrderedRecord {
        bank: row.bank,
        place: row.place,
        source: row.source,
        index: row.index,
        issued: row.issued,
        served: row.served,
        answered: row.answered.unwrap_or(0),
    }
}

/// The rows from a number on.
pub(crate) fn rows_from(rows: &[Ordered], from: u32) -> &[Ordered]
    ensures { result.now ≡ drop from rows.now }
{
    let from = from as usize;
    if from < rows.len() {
        &rows[from..]
    } else {
        &rows[rows.len()..]
    }
}

/// Puts what C sees of some rows at the front of a buffer, and answers how many they are; where the buffer is
/// too short for all, it stays as it was.
fn put_rows(rows: &[Ordered], out: &mut [OrderedRecord]) -> Outcome
    ensures buffer { out.new ≡ put_over (map ordered_record rows.now) out.old }
    ensures value { result ≡ put_outcome (map ordered_record rows.now) out.old }
{
    let count = rows.len();
    if count > out.len() {
        return Outcome::of(Code::Short, count as u64);
    }
    for at in 0..count {
        out[at] = ordered_record(rows[at]);
    }
    Outcome::done(count as u64)
}

/// Puts the rows of the one legal order of the run so far, from a number on, into a buffer: the order of the
/// banks' services. It takes no memory, and looks at these rows alone.
///
/// Errors: the buffer is too short. It is as it was then.
#[unsafe(no_mangle)]
pub extern "C" fn torusmem_order(
    handle: &mut MachineHandle,
    from: u32,
    out: &mut [OrderedRecord],
) -> Outcome
    ensures held { OnHeld (PutsOrdered from out.old out.new) (held handle.old) (held handle.new)
        result }
    ensures empty { held handle.old ≡ None → out.new ≡ out.old }
{
    match handle.machine() {
        Some(machine) => put_rows(rows_from(machine.machine().rows(), from), out),
        None => Outcome::empty(),
    }
}

/// How many rows in front of the first one that has no answer there are.
fn answered_first(rows: &[Ordered]) -> usize
    ensures count { result ≡ answered_first rows.now }
    ensures within { result ≤ length rows.now }
{
    for at in 0..rows.len() {
        if rows[at].answered.is_none() {
            return at;
        }
    }
    rows.len()
}

/// The number of the first of these rows, of which the first has a number, that has no answer.
fn answered_to(rows: &[Ordered], from: u32) -> u64
    ensures { result ≡ from + answered_first rows.now }
{
    u64::from(from) + answered_first(rows) as u64
}

/// The number of the first row of the order, from a row on, whose operation has no answer: how many rows there
/// are, where each has one. It looks at the rows between alone.
#[unsafe(no_mangle)]
pub extern "C" fn torusmem_answered_to(handle: &mut MachineHandle, from: u32) -> Outcome
    ensures { OnHeld (HandleTells (answered_told from)) (held handle.old) (held handle.new) result }
{
    match handle.machine() {
        Some(machine) => {
            let rows = rows_from(machine.machine().rows(), from);
            Outcome::done(answered_to(rows, from))
        }
        None => Outcome::empty(),
    }
}
