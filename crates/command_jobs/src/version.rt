//! The version of the program, and the table of its commands.
ghost use Rattle.program_fault.specs.Done.{output};
ghost use Rattle.command_jobs.specs.Jobs.{PrintsCommands, PrintsVersion};

use crate::printing::{fault_told, flushed, writer};
use command_line::CommandTable;
use program_fault::{ProgramFault, status_of};
use report_lines::output::put_all;
use report_lines::{Out, Piped};
use std::alloc::Global;
use torus::Fault;

/// Prints the version of the program.
///
/// Errors: the output failed, and a beginning was written.
pub fn version_text<W: Out>(out: &mut W) -> Result<(), ProgramFault>
    ensures { PrintsVersion (output (W.taken out.old) (W.failures out.old))
        (output (W.taken out.new) (W.failures out.new)) result }
{
    put_all(out, b"torusmem 0.3.0\n")?;
    Ok(())
}

/// Prints the table of the commands.
///
/// Errors: memory ran out, and nothing was written; or the output failed, and a beginning was.
pub fn commands_text<W: Out>(alloc: Global, out: &mut W) -> Result<(), ProgramFault>
    ensures { PrintsCommands (output (W.taken out.old) (W.failures out.old))
        (output (W.taken out.new) (W.failures out.new)) result }
{
    let Ok(text) = format!(in alloc; "{}", CommandTable) else {
        return Err(ProgramFault::Fault(Fault::Memory));
    };
    put_all(out, text.as_bytes())?;
    Ok(())
}

/// Prints the version of the program on standard output, and answers the exit status; a fault goes
/// to standard error.
pub fn version_told<R: Print + Eprint + AllocGlobal>(rt: &R) -> u8 {
    match printed(rt) {
        Ok(()) => status_of(&Ok(true)),
        Err(fault) => fault_told(rt, &fault),
    }
}

/// Prints the table of the commands on standard output, and answers the exit status; a fault goes to
/// standard error.
pub fn commands_told<R: Print + Eprint + AllocGlobal>(rt: &R) -> u8 {
    match commands_printed(rt) {
        Ok(()) => status_of(&Ok(true)),
        Err(fault) => fault_told(rt, &fault),
    }
}

/// Prints the version to the last byte.
fn printed<R: Print + AllocGlobal>(rt: &R) -> Result<(), ProgramFault> {
    let mut writer = writer(rt)?;
    version_text(&mut Piped::new(&mut writer))?;
    flushed(&mut writer)
}

/// Prints the table of the commands to the last byte.
fn commands_printed<R: Print + AllocGlobal>(rt: &R) -> Result<(), ProgramFault> {
    let mut writer = writer(rt)?;
    commands_text(rt.alloc(), &mut Piped::new(&mut writer))?;
    flushed(&mut writer)
}
