//! Machines that keep a record of what is done to them, their bytes, and machines that bytes make.

ghost use Rattle.std.specs.Prelude.{◌≡◌, None};
ghost use Rattle.std.specs.Str.Lines.{lines};
ghost use Rattle.c_handles.specs.HeldMachine.{held, held_whole};
ghost use Rattle.machine_core.specs.Loading.{load_by};
ghost use Rattle.torusmem_c.specs.Saving.{Clones, ClonesTo, KeepsFresh, PutsKept, Restores, RestoresEmpty};
ghost use Rattle.torusmem_c.specs.Saving.{Saves, unrestored_outcome};
ghost use Rattle.torusmem_c.specs.Texts.{Loads};

use crate::outcome::{Code, Outcome, fault_outcome, no_memory};
use crate::room::put_over;
use c_handles::MachineHandle;
use machine_record::{RecordedMachine, Unrestored};
use std::alloc::Global;

/// Loads the machine of a text, whose processors follow the scripts of a text, into an empty handle. It keeps
/// a record of what is done to it.
///
/// Errors: the first fault of the texts, taken in the order machine, scripts; out of memory; or that
/// the handle holds a machine already. It holds what it held then.
#[unsafe(no_mangle)]
pub extern "C" fn torusmem_load_recorded(
    alloc: Global,
    handle: &mut MachineHandle,
    machine: &[u8],
    scripts: &[u8],
) -> Outcome
    ensures loads { Loads (load_by (lines machine.now) (lines scripts.now)) (held handle.old)
        (held handle.new) result }
    ensures kept { KeepsFresh machine.now scripts.now (held_whole handle.old)
        (held_whole handle.new) }
{
    if let Some(_held) = handle.machine() {
        return Outcome::of(Code::Full, 0);
    }
    match RecordedMachine::load(alloc, machine, scripts) {
        Ok(machine) => match handle.hold(machine) {
            Ok(()) => Outcome::done(0),
            Err(_) => no_memory(),
        },
        Err(fault) => fault_outcome(fault),
    }
}

/// Puts the bytes of a machine's record into a buffer.
fn put_record(alloc: Global, machine: &RecordedMachine, out: &mut [u8]) -> Outcome
    ensures { PutsKept machine.now machine.now.kept out.old out.new result }
{
    match machine.saved(alloc) {
        Ok(Some(bytes)) => put_over(bytes.as_slice(), out),
        Ok(None) => Outcome::of(Code::NoRecord, 0),
        Err(_) => no_memory(),
    }
}

/// Puts the bytes of the machine's record into a buffer. They make this machine again.
///
/// Errors: the machine keeps no record, or out of memory.
#[unsafe(no_mangle)]
pub extern "C" fn torusmem_save(
    alloc: Global,
    handle: &mut MachineHandle,
    out: &mut [u8],
) -> Outcome
    ensures { Saves out.old out.new (held_whole handle.old) (held_whole handle.new) result }
{
    match handle.machine() {
        Some(machine) => put_record(alloc, machine, out),
        None => Outcome::empty(),
    }
}

/// Why bytes make no machine, as C sees it.
fn unrestored_outcome(why: Unrestored) -> Outcome
    ensures { result ≡ unrestored_outcome why }
{
    match why {
        Unrestored::Memory => no_memory(),
        Unrestored::At(place) => Outcome::of(Code::BadRecord, place),
        Unrestored::Action(at) => Outcome::of(Code::BadAction, at),
        Unrestored::Text(fault) => fault_outcome(fault),
    }
}

/// Holds the machine that bytes make in an empty handle.
fn restored(alloc: Global, handle: &mut MachineHandle, bytes: &[u8]) -> Outcome
    requires held { held handle.old ≡ None }
    requires whole { held_whole handle.old ≡ None }
    ensures { RestoresEmpty bytes.now (held_whole handle.new) result }
{
    match RecordedMachine::restore(alloc, bytes) {
        Ok(machine) => match handle.hold(machine) {
            Ok(()) => Outcome::done(0),
            Err(_) => no_memory(),
        },
        Err(why) => unrestored_outcome(why),
    }
}

/// Makes the machine of a record's bytes again, in an empty handle: it shows and steps as the machine did that
/// was saved, and keeps its record.
///
/// Errors: the handle holds a machine; the place of the first byte that is no record's; the number of an
/// action that can't be done; the fault of a text of the record; or out of memory. It holds what it held then.
#[unsafe(no_mangle)]
pub extern "C" fn torusmem_restore(
    alloc: Global,
    handle: &mut MachineHandle,
    bytes: &[u8],
) -> Outcome
    ensures { Restores bytes.now (held_whole handle.old) (held_whole handle.new) result }
{
    if let Some(_held) = handle.machine() {
        return Outcome::of(Code::Full, 0);
    }
    restored(alloc, handle, bytes)
}

/// Holds the same machine once more in an empty handle.
fn cloned(alloc: Global, machine: &RecordedMachine, fresh: &mut MachineHandle) -> Outcome
    requires held { held fresh.old ≡ None }
    requires whole { held_whole fresh.old ≡ None }
    ensures { ClonesTo machine.now (held_whole fresh.new) result }
{
    match machine.cloned(alloc) {
        Ok(Some(machine)) => match fresh.hold(machine) {
            Ok(()) => Outcome::done(0),
            Err(_) => no_memory(),
        },
        Ok(None) => Outcome::of(Code::NoRecord, 0),
        Err(_) => no_memory(),
    }
}

/// Makes the same machine once more, in another, empty handle, with the same record.
///
/// Errors: the other handle holds a machine; this one holds none, or keeps no record; or out of memory. The
/// other handle holds what it held then.
#[unsafe(no_mangle)]
pub extern "C" fn torusmem_clone(
    alloc: Global,
    handle: &mut MachineHandle,
    fresh: &mut MachineHandle,
) -> Outcome
    ensures { Clones (held_whole handle.old) (held_whole handle.new) (held_whole fresh.old)
        (held_whole fresh.new) result }
{
    if let Some(_held) = fresh.machine() {
        return Outcome::of(Code::Full, 0);
    }
    match handle.machine() {
        Some(machine) => cloned(alloc, machine, fresh),
        None => Outcome::empty(),
    }
}
