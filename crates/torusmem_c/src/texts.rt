//! What comes from texts and goes into texts: loads, reports, and the check of a report.

ghost use Rattle.std.specs.Prelude.{◌≡◌, ◌⊎◌, IfErr, IfOk, None};
ghost use Rattle.std.specs.Str.Lines.{lines};
ghost use Rattle.machine_report.specs.Report.{machine_report};
ghost use Rattle.c_handles.specs.HeldMachine.{held};
ghost use Rattle.machine_core.specs.Loading.{load_by};
ghost use Rattle.report_check.specs.Good.{GoodReport};
ghost use Rattle.report_lines.specs.Line.{text_of};
ghost use Rattle.torusmem_c.specs.Held.{OnHeld};
ghost use Rattle.torusmem_c.specs.Room.{LacksMemory};
ghost use Rattle.torusmem_c.specs.Texts.{SaysGood, SaysVerdict, Loads, PutsReport, PutsText};
ghost use Rattle.torusmem_c.specs.Texts.{check_outcome};

use crate::outcome::{Code, Outcome, fault_outcome, no_memory};
use crate::room::put_over;
use c_handles::MachineHandle;
use machine_asked::AskedMachine;
use machine_record::RecordedMachine;
use machine_report::{Machine, Out, check_report, of_run, write_report};
use report_check::CheckFault;
use std::alloc::{AllocError, Global};

/// A text that grows as it is written; its failed puts are those for which memory was refused.
#[derive(Drop)]
pub(crate) struct Text {
    pub(crate) bytes: Vec<u8>,
    pub(crate) refused: u64,
}

impl Out for Text {
    ghost use Rattle.std.specs.Prelude.{Some};

    ghost taken = { λ text. Some text.bytes.items };

    ghost failures = { λ text. text.refused };

    fn put(&mut self, bytes: &[u8]) -> usize {
        if bytes.is_empty() {
            return 0;
        }
        if self.bytes.extend_from_slice(bytes).is_err() {
            self.refused = self.refused.saturating_add(1);
            return 0;
        }
        bytes.len()
    }
}

/// What C sees of a fault of a report.
fn check_outcome(fault: CheckFault) -> Outcome
    ensures { result ≡ check_outcome fault }
{
    match fault {
        CheckFault::BadReport { line } => Outcome::of(Code::BadReport, line),
        CheckFault::Memory => no_memory(),
    }
}

/// Loads the machine of a text, whose processors follow the scripts of a text, into an empty handle.
///
/// Errors: the first fault of the texts, taken in the order machine, scripts; out of memory; or that
/// the handle holds a machine already. It holds what it held then.
#[unsafe(no_mangle)]
pub extern "C" fn torusmem_load(
    alloc: Global,
    handle: &mut MachineHandle,
    machine: &[u8],
    scripts: &[u8],
) -> Outcome
    ensures { Loads (load_by (lines machine.now) (lines scripts.now)) (held handle.old)
        (held handle.new) result }
{
    if let Some(_held) = handle.machine() {
        return Outcome::of(Code::Full, 0);
    }
    match AskedMachine::load(alloc, machine, scripts) {
        Ok(machine) => match handle.hold(RecordedMachine::unrecorded(machine)) {
            Ok(()) => Outcome::done(0),
            Err(_) => no_memory(),
        },
        Err(fault) => fault_outcome(fault),
    }
}

/// Lets go of the machine that the handle holds, if any.
#[unsafe(no_mangle)]
pub extern "C" fn torusmem_free(alloc: Global, handle: &mut MachineHandle)
    ensures { held handle.new ≡ None }
{
    let _ = alloc;
    handle.release();
}

/// The text of the report of the machine's run.
fn report_text(alloc: Global, machine: &Machine) -> Result<Vec<u8>, AllocError>
    ensures good { IfOk result (λ text. GoodReport text.items) }
    ensures text { IfOk result (λ text. text.items ≡ text_of (machine_report machine.now)) }
{
    let Ok(report) = of_run(alloc, machine) else {
        return Err(AllocError);
    };
    let mut text = Text {
        bytes: Vec::new(alloc),
        refused: 0,
    };
    match write_report(&mut text, &report) {
        Ok(()) => Ok(text.bytes),
        Err(_) => Err(AllocError),
    }
}

/// Puts the text of the report of the machine's run into a buffer, unless memory is refused.
fn put_report(alloc: Global, machine: &Machine, out: &mut [u8]) -> Outcome
    ensures { PutsText machine.now out.old out.new result ⊎ LacksMemory out.old out.new result }
{
    match report_text(alloc, machine) {
        Ok(text) => put_over(text.as_slice(), out),
        Err(_) => no_memory(),
    }
}

/// Puts the report of the run so far into a buffer.
#[unsafe(no_mangle)]
pub extern "C" fn torusmem_report(
    alloc: Global,
    handle: &mut MachineHandle,
    out: &mut [u8],
) -> Outcome
    ensures held { OnHeld (PutsReport out.old out.new) (held handle.old) (held handle.new) result }
    ensures empty { held handle.old ≡ None → out.new ≡ out.old }
{
    match handle.machine() {
        Some(machine) => put_report(alloc, machine.machine(), out),
        None => Outcome::empty(),
    }
}

/// Checks a report. Errors: its first bad line, or out of memory.
#[unsafe(no_mangle)]
pub extern "C" fn torusmem_check(alloc: Global, report: &[u8]) -> Outcome
    ensures verdict { SaysVerdict report.now result }
    ensures only { GoodReport report.now → SaysGood result }
{
    match check_report(alloc, report) {
        Ok(()) => Outcome::done(0),
        Err(fault) => check_outcome(fault),
    }
}
