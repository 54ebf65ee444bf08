//! A machine that is opened by numbers, and one that goes on where another stands.

ghost use Rattle.std.specs.Prelude.{◌≡◌, IfOk, IfSome, None, length};
ghost use Rattle.c_handles.specs.HeldMachine.{held, held_whole};
ghost use Rattle.machine_asked.specs.Opened.{IsOpened};
ghost use Rattle.machine_record.specs.Calls.{IsFreshCall, RecordsAnew};
ghost use Rattle.torusmem_c.specs.Opening.{GoesOnRunning, KeepsHandle, Opens, Reopens, opening_words, shape_asked, torus_asked};
ghost use Rattle.torusmem_c.specs.Saving.{KeepsOpened, RecordsOn};

use crate::outcome::{Code, Outcome, no_memory};
use crate::shape::ShapeRecord;
use c_handles::MachineHandle;
use machine_asked::AskedMachine;
use machine_record::RecordedMachine;
use std::alloc::{AllocError, Global};
use torus::{Fault, Torus};

/// The torus of the dimensions that a record has.
fn torus_asked(shape: &ShapeRecord) -> Result<Torus, Fault>
    ensures { result ≡ torus_asked shape.now }
{
    if shape.dims > 3 {
        return Err(Fault::Dimensions);
    }
    let dims = shape.dims as usize;
    Torus::mixed(&shape.radices[..dims], &shape.datelines[..dims])
}

/// The torus of the dimensions that a record has, if its other numbers are in their ranges, and there are
/// not more opening words than words.
fn shape_asked(shape: &ShapeRecord, given: usize) -> Result<Torus, Fault>
    ensures { result ≡ shape_asked shape.now given }
{
    let torus = torus_asked(shape)?;
    if shape.depth < 1 || shape.depth > 8 {
        return Err(Fault::Range);
    }
    if shape.tags < 1 || shape.tags > 16 {
        return Err(Fault::Range);
    }
    if shape.words < 1 || shape.words > 65536 {
        return Err(Fault::Range);
    }
    if given > shape.words as usize {
        return Err(Fault::Address);
    }
    Ok(torus)
}

/// So many words, of which the first are given, and the others are 0.
fn opening_words(alloc: Global, words: u32, given: &[u64]) -> Result<Vec<u64>, AllocError>
    ensures { IfOk result (λ opening. opening.items ≡ opening_words words given.now) }
{
    let mut opening = Vec::from_slice(alloc, given)?;
    let more = (words as usize).saturating_sub(given.len());
    for place in 0..more {
        let _ = place;
        opening.push(0)?;
    }
    Ok(opening)
}

/// The machine of a torus, of the depth and the tags of a record, that opens with these words.
fn opened(
    alloc: Global,
    torus: Torus,
    shape: &ShapeRecord,
    words: &[u64],
) -> Result<AskedMachine, AllocError>
    ensures { IfOk result (IsOpened torus shape.now.depth shape.now.tags
        (opening_words shape.now.words words.now)) }
{
    let opening = opening_words(alloc, shape.words, words)?;
    AskedMachine::open(alloc, torus, shape.depth, shape.tags, opening.as_slice())
}

/// Holds a machine in an empty handle.
fn kept(handle: &mut MachineHandle, machine: AskedMachine) -> Outcome
    requires { held handle.old ≡ None }
    ensures { KeepsHandle machine 0 (held handle.new) result }
{
    match handle.hold(RecordedMachine::unrecorded(machine)) {
        Ok(()) => Outcome::done(0),
        Err(_) => no_memory(),
    }
}

/// Opens the machine of a shape into an empty handle, whose first words are given, and whose others are 0. No
/// processor has a line.
///
/// Errors: the handle holds a machine; the first fault of the shape, in the order dimensions, radices, tiles,
/// datelines, depth, tags, number of words; more words are given than there are; or out of memory. It
/// holds what it held then.
#[unsafe(no_mangle)]
pub extern "C" fn torusmem_open(
    alloc: Global,
    handle: &mut MachineHandle,
    shape: &ShapeRecord,
    words: &[u64],
) -> Outcome
    ensures { Opens (shape_asked shape.now (length words.now)) shape.now.depth shape.now.tags
        (opening_words shape.now.words words.now) (held handle.old) (held handle.new) result }
{
    if let Some(_held) = handle.machine() {
        return Outcome::of(Code::Full, 0);
    }
    let torus = match shape_asked(shape, words.len()) {
        Ok(torus) => torus,
        Err(fault) => return Outcome::of(Code::Fault(fault), 0),
    };
    match opened(alloc, torus, shape, words) {
        Ok(machine) => kept(handle, machine),
        Err(_) => no_memory(),
    }
}

/// The machine of a torus, of the depth and the tags of a record, that opens with these words; and a record
/// of what is done to it.
fn opened_recorded(
    alloc: Global,
    torus: Torus,
    shape: &ShapeRecord,
    words: &[u64],
) -> Result<RecordedMachine, AllocError>
    ensures opened { IfOk result (λ m. IsOpened torus shape.now.depth shape.now.tags
        (opening_words shape.now.words words.now) m.asked) }
    ensures kept { IfOk result IsFreshCall }
{
    let opening = opening_words(alloc, shape.words, words)?;
    RecordedMachine::open(alloc, torus, shape.depth, shape.tags, opening.as_slice())
}

/// Holds a machine with its record, where it keeps one, in an empty handle, and answers this number.
fn kept_recorded(handle: &mut MachineHandle, machine: RecordedMachine, value: u64) -> Outcome
    requires held { held handle.old ≡ None }
    requires whole { held_whole handle.old ≡ None }
    ensures held { KeepsHandle machine.asked value (held handle.new) result }
    ensures whole { IfSome (held_whole handle.new) (λ v. v ≡ machine) }
{
    match handle.hold(machine) {
        Ok(()) => Outcome::done(value),
        Err(_) => no_memory(),
    }
}

/// Opens the machine of a shape into an empty handle, as `torusmem_open` does. It keeps a record of what is
/// done to it.
///
/// Errors: as of `torusmem_open`.
#[unsafe(no_mangle)]
pub extern "C" fn torusmem_open_recorded(
    alloc: Global,
    handle: &mut MachineHandle,
    shape: &ShapeRecord,
    words: &[u64],
) -> Outcome
    ensures opens { Opens (shape_asked shape.now (length words.now)) shape.now.depth shape.now.tags
        (opening_words shape.now.words words.now) (held handle.old) (held handle.new) result }
    ensures kept { KeepsOpened (held_whole handle.old) (held_whole handle.new) }
{
    if let Some(_held) = handle.machine() {
        return Outcome::of(Code::Full, 0);
    }
    let torus = match shape_asked(shape, words.len()) {
        Ok(torus) => torus,
        Err(fault) => return Outcome::of(Code::Fault(fault), 0),
    };
    match opened_recorded(alloc, torus, shape, words) {
        Ok(machine) => kept_recorded(handle, machine, 0),
        Err(_) => no_memory(),
    }
}

/// Finishes a machine, and holds one that goes on where it stands in an empty handle.
fn gone_on(alloc: Global, machine: &mut RecordedMachine, fresh: &mut MachineHandle) -> Outcome
    requires held { held fresh.old ≡ None }
    requires whole { held_whole fresh.old ≡ None }
    ensures goes_on { GoesOnRunning machine.old.asked machine.new.asked (held fresh.new) result }
    ensures kept { IfSome (held_whole fresh.new) (RecordsAnew machine.new.kept) }
{
    let rounds = machine.finish();
    match machine.reopened(alloc) {
        Ok(made) => kept_recorded(fresh, made, rounds),
        Err(_) => no_memory(),
    }
}

/// Makes rounds until every script is finished, and opens a machine of the same shape into another, empty
/// handle, whose opening words are the words of this one then; answers how many rounds. The other machine
/// keeps a record where this one does.
///
/// Errors: the other handle holds a machine, or this one none, and nothing changes then; or out of memory
/// for the other machine.
#[unsafe(no_mangle)]
pub extern "C" fn torusmem_reopen(
    alloc: Global,
    handle: &mut MachineHandle,
    fresh: &mut MachineHandle,
) -> Outcome
    ensures goes_on { Reopens (held handle.old) (held handle.new) (held fresh.old) (held fresh.new)
        result }
    ensures kept { RecordsOn (held_whole handle.new) (held_whole fresh.old) (held_whole fresh.new) }
{
    if let Some(_held) = fresh.machine() {
        return Outcome::of(Code::Full, 0);
    }
    match handle.machine() {
        Some(machine) => gone_on(alloc, machine, fresh),
        None => Outcome::empty(),
    }
}
