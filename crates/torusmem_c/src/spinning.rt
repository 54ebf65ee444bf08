//! The spins of the scripts that ran out of loads, as C sees them.

ghost use Rattle.std.specs.Prelude.{◌≡◌, ◌⊎◌, IfOk, None, map};
ghost use Rattle.std.specs.Str.Lines.{lines};
ghost use Rattle.c_handles.specs.HeldMachine.{held};
ghost use Rattle.sentences.specs.Told.{scripts_read};
ghost use Rattle.torusmem_c.specs.Held.{OnHeld};
ghost use Rattle.torusmem_c.specs.Room.{LacksMemory};
ghost use Rattle.torusmem_c.specs.Spins.{PutsSpins, TellsSpins, spin_record};

use crate::outcome::{Outcome, fault_outcome, no_memory};
use crate::room::put_over;
use c_handles::MachineHandle;
use machine_report::{Machine, answers_of};
use sentences::{EndedSpin, ended_scripts};
use std::alloc::{AllocError, Global};

/// A spin that ran out of loads: its processor, its line in the scripts text, from 1, and the number
/// that none of its loads found.
#[repr(C)]
#[derive(Clone, Copy)]
pub struct SpinRecord {
    pub processor: u32,
    pub address: u32,
    pub loads: u32,
    pub line: u64,
    pub sought: u64,
}

/// What C sees of a spin that ran out of loads.
fn spin_record(spin: EndedSpin) -> SpinRecord
    ensures { result ≡ spin_record spin }
{
    SpinRecord {
        processor: spin.processor,
        address: spin.address,
        loads: spin.loads,
        line: spin.line,
        sought: spin.wanted,
    }
}

/// What C sees of spins that ran out of loads.
fn records_of(alloc: Global, spins: &[EndedSpin]) -> Result<Vec<SpinRecord>, AllocError>
    ensures { IfOk result (λ records. records.items ≡ map spin_record spins.now) }
{
    let mut records = Vec::new(alloc);
    for spin in spins {
        records.push(spin_record(*spin))?;
    }
    Ok(records)
}

/// Puts the spins that ran out of loads into a buffer, unless memory is refused.
fn put_spins(
    alloc: Global,
    held: &Machine,
    machine: &[u8],
    scripts: &[u8],
    out: &mut [SpinRecord],
) -> Outcome
    ensures { TellsSpins (scripts_read (lines machine.now) (lines scripts.now)) (lines scripts.now)
        held.now out.old out.new result ⊎ LacksMemory out.old out.new result }
{
    let Ok(answers) = answers_of(alloc, held) else {
        return no_memory();
    };
    let ended = match ended_scripts(alloc, machine, scripts, &answers) {
        Ok(ended) => ended,
        Err(fault) => return fault_outcome(fault),
    };
    match records_of(alloc, &ended.spins) {
        Ok(records) => put_over(records.as_slice(), out),
        Err(_) => no_memory(),
    }
}

/// Puts the spins that ran out of loads so far into a buffer: those of the scripts text, by the answers
/// that the processors have.
///
/// Errors: the first fault of the texts, or out of memory. The buffer is as it was then.
#[unsafe(no_mangle)]
pub extern "C" fn torusmem_spins_out(
    alloc: Global,
    handle: &mut MachineHandle,
    machine: &[u8],
    scripts: &[u8],
    out: &mut [SpinRecord],
) -> Outcome
    ensures held { OnHeld (PutsSpins (lines machine.now) (lines scripts.now) out.old out.new)
        (held handle.old) (held handle.new) result }
    ensures empty { held handle.old ≡ None → out.new ≡ out.old }
{
    match handle.machine() {
        Some(held) => put_spins(alloc, held.machine(), machine, scripts, out),
        None => Outcome::empty(),
    }
}
