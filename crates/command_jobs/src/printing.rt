//! What a job prints on standard output, and what is printed on standard error behind it.

use crate::answering::Ended;
use crate::naming::names;
use crate::run_end::RunEnd;
use command_line::Job;
use program_fault::{ProgramFault, fault_text, status_of, tell_end};
use report_lines::Piped;
use report_lines::output::put_all;
use std::io::{self, BufWriter, Printer, Write};
use torus::Fault;

/// Standard output, over a buffer.
///
/// Errors: out of memory.
pub fn writer<R: Print + AllocGlobal>(rt: &R) -> Result<BufWriter<Printer<'_, R>>, ProgramFault> {
    match BufWriter::new(rt.alloc(), io::writer(rt)) {
        Ok(writer) => Ok(writer),
        Err(_) => Err(ProgramFault::Fault(Fault::Memory)),
    }
}

/// Writes what a buffer still has.
///
/// Errors: the output failed.
pub fn flushed<W: Write>(writer: &mut W) -> Result<(), ProgramFault> {
    if writer.flush().is_err() {
        return Err(ProgramFault::Output);
    }
    Ok(())
}

/// Prints bytes on standard output, to the last one.
///
/// Errors: the output failed, or out of memory.
pub fn all_printed<R: Print + AllocGlobal>(rt: &R, bytes: &[u8]) -> Result<(), ProgramFault> {
    let mut writer = writer(rt)?;
    put_all(&mut Piped::new(&mut writer), bytes)?;
    flushed(&mut writer)
}

/// Says how the run of a job ended, behind its report, where that was found: all of it where that is to be
/// told, and else how many spins ran out of loads, where every script is finished. Before it comes in how
/// many rounds a guard held operations back, where it did.
pub fn tell_end_of<R: Eprint>(rt: &R, job: &Job, end: &RunEnd, ended: Ended, is_told: bool) {
    tell_held(rt, ended.held);
    if !is_told {
        tell_spent(rt, end, ended.finished);
        return;
    }
    if let (Some(course), Some(found), Some(name)) = (
        ended.course,
        end.found(),
        names(job).second,
    ) {
        tell_end(rt, name, found, ended.finished, course);
    }
}

/// Says in how many rounds a guard held operations back, where it did.
fn tell_held<R: Eprint>(rt: &R, held: u64) {
    if held > 0 {
        let rounds = if held == 1 { "round" } else { "rounds" };
        let _ = eprintln!(rt; "the guard held operations back in {held} {rounds}");
    }
}

/// Says how many spins ran out of loads, where some did though every script is finished.
fn tell_spent<R: Eprint>(rt: &R, end: &RunEnd, finished: bool) {
    let Some(found) = end.found() else {
        return;
    };
    let count = found.spins.len();
    if finished && count > 0 {
        let spins = if count == 1 { "spin" } else { "spins" };
        let _ = eprintln!(rt; "{count} {spins} ran out of loads");
    }
}

/// The exit status of a fault, which is printed on standard error.
pub fn fault_told<R: Eprint>(rt: &R, fault: &ProgramFault) -> u8 {
    let text = fault_text(fault);
    let _ = eprintln!(rt; "{text}");
    status_of(&Err(*fault))
}
