//! A machine as bytes, and the machine that bytes make again.

ghost use Rattle.std.specs.Prelude.{◌≡◌, IfErr, IfOk, IfSome, MatchOption, None, Ok, option_map};
ghost use Rattle.machine_record.specs.Bytes.{record_bytes};
ghost use Rattle.machine_record.specs.Reading.{record_in_bytes};
ghost use Rattle.machine_record.specs.Recorded.{recording_of};
ghost use Rattle.machine_record.specs.Machine.{AreAlikeMachines};
ghost use Rattle.machine_record.specs.Calls.{IsLoaded, IsMadeAgain, IsRestored, IsUnmade, IsUnread, IsUnrestored};

use crate::recorded::RecordedMachine;
use crate::replay::replay;
use crate::{Record, Unread, bytes_of, copied, record_of};
use lexer::LineFault;
use machine_asked::AskedMachine;
use std::alloc::{AllocError, Allocator};
use torus::Fault;

/// Why bytes make no machine.
#[derive(Clone, Copy)]
pub enum Unrestored {
    /// Memory was refused.
    Memory,
    /// What stands at this place is no record's.
    At(u64),
    /// The record's action of this number, from 0, can't be done.
    Action(u64),
    /// A text of the record has this fault.
    Text(LineFault),
}

/// Loads the machine of a record's texts.
fn loaded<A: Allocator + Copy>(alloc: A, kept: &Record<A>) -> Result<AskedMachine<A>, Unrestored>
    ensures ok { IfOk result (IsLoaded (recording_of kept.now)) }
    ensures err { IfErr result (IsUnmade (recording_of kept.now)) }
{
    match AskedMachine::load(alloc, &kept.machine, &kept.scripts) {
        Ok(machine) => Ok(machine),
        Err(fault) => match fault.fault {
            Fault::Memory => Err(Unrestored::Memory),
            _ => Err(Unrestored::Text(fault)),
        },
    }
}

/// The machine that a record makes.
fn made<A: Allocator + Copy>(alloc: A, kept: Record<A>) -> Result<RecordedMachine<A>, Unrestored>
    ensures ok { IfOk result (IsMadeAgain (recording_of kept)) }
    ensures err { IfErr result (IsUnmade (recording_of kept)) }
{
    let mut machine = loaded(alloc, &kept)?;
    match replay(&mut machine, &kept.rows, &kept.actions) {
        Ok(None) => Ok(RecordedMachine {
            machine,
            kept: Some(kept),
        }),
        Ok(Some(at)) => Err(Unrestored::Action(at as u64)),
        Err(_) => Err(Unrestored::Memory),
    }
}

/// The record that bytes are.
fn read<A: Allocator + Copy>(alloc: A, bytes: &[u8]) -> Result<Record<A>, Unrestored>
    ensures ok { IfOk result (λ kept. record_in_bytes bytes.now ≡ Ok (recording_of kept)) }
    ensures err { IfErr result (IsUnread bytes.now) }
{
    match record_of(alloc, bytes) {
        Ok(kept) => Ok(kept),
        Err(Unread::Memory) => Err(Unrestored::Memory),
        Err(Unread::At(place)) => Err(Unrestored::At(place)),
    }
}

impl<A: Allocator + Copy> RecordedMachine<A> {
    /// The machine that bytes make, with their record: it is loaded from its texts, and what was done is done
    /// again.
    ///
    /// Errors: out of memory; the place of what is no record's; the fault of a text; or the number of an action that
    /// can't be done.
    pub fn restore(alloc: A, bytes: &[u8]) -> Result<RecordedMachine<A>, Unrestored>
        ensures ok { IfOk result (IsRestored bytes.now) }
        ensures err { IfErr result (IsUnrestored bytes.now) }
    {
        let kept = read(alloc, bytes)?;
        made(alloc, kept)
    }

    /// The bytes of its record, which make this machine again; `None` where it keeps none.
    ///
    /// Errors: out of memory.
    pub fn saved(&self, alloc: A) -> Result<Option<Vec<u8, A>>, AllocError>
        ensures bytes { IfOk result (λ bytes.
            option_map (λ b. b.items) bytes ≡ option_map record_bytes self.now.kept) }
        ensures back { IfOk result (λ bytes. IfSome bytes (λ b. IsRestored b.items self.now)) }
    {
        match &self.kept {
            Some(kept) => Ok(Some(bytes_of(alloc, kept)?)),
            None => Ok(None),
        }
    }

    /// A copy of the machine and of its record, made by doing again what is recorded. `None` where the
    /// machine keeps no record.
    ///
    /// Errors: out of memory.
    pub fn cloned(&self, alloc: A) -> Result<Option<RecordedMachine<A>>, AllocError>
        ensures { IfOk result
            (λ machine. MatchOption machine (self.now.kept ≡ None) (λ m. AreAlikeMachines m self.now)) }
    {
        match &self.kept {
            Some(kept) => match made(alloc, copied(alloc, kept)?) {
                Ok(machine) => Ok(Some(machine)),
                Err(_) => Err(AllocError),
            },
            None => Ok(None),
        }
    }
}
