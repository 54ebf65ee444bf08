//! What a watch of a table of operations comes to.

ghost use Rattle.std.specs.Prelude.{◌≡◌, ◌⊎◌, IfOk, IfErr};
ghost use Rattle.std.specs.Str.Lines.{lines};
ghost use Rattle.torus.specs.declared.fault.Fault.TheVariants as fault;
ghost use Rattle.program_fault.specs.declared.fault.ProgramFault.TheVariants as program;
ghost use Rattle.command_verdicts.specs.Tables.{IsTableFault};
ghost use Rattle.command_verdicts.specs.WatchedTable.{IsWatchedTable, IsWatchedText};
ghost use Rattle.command_verdicts.specs.WatchedTable.{verdict_of_watch};
ghost use Rattle.command_verdicts.specs.Judging.{IsTraceFault};

use crate::Judged;
use crate::table::{fault_in_table, traced, verdict_in_table};
use command_watch::{Watched, watch_trace};
use program_fault::ProgramFault;
use std::alloc::Allocator;
use torus::Fault;
use trace_text::read_trace;

/// The verdict of a watch of a whole trace.
fn verdict_of_watch(watched: Watched) -> Judged
    ensures { result ≡ verdict_of_watch watched }
{
    match watched {
        Watched::Linearizable => Judged::Linearizable,
        Watched::No { line } => Judged::NotLinearizable { line },
        Watched::TooMany { line } => Judged::TooMany { line },
    }
}

/// Watches the trace of a text to its end.
///
/// Errors: the first fault of the text, or out of memory.
fn watch_text<A: Allocator + Copy>(
    alloc: A,
    text: &[u8],
    configurations: u64,
) -> Result<Judged, ProgramFault>
    ensures verdict { IfOk result (IsWatchedText (lines text.now) configurations) }
    ensures fault { IfErr result
        (λ e. (e ≡ program.Fault fault.Memory) ⊎ IsTraceFault (lines text.now) e) }
{
    let trace = read_trace(alloc, text)?;
    match watch_trace(alloc, &trace, configurations as usize) {
        Ok(watched) => Ok(verdict_of_watch(watched)),
        Err(_) => Err(ProgramFault::Fault(Fault::Memory)),
    }
}

/// Watches the trace of a table of operations to its end, with at most so many configurations of a
/// word at once. The lines of a verdict and of a fault are those of the table.
///
/// Errors: the first fault of the table, or else of its trace text, or out of memory.
pub fn watch_table<A: Allocator + Copy>(
    alloc: A,
    table: &[u8],
    configurations: u64,
) -> Result<Judged, ProgramFault>
    ensures verdict { IfOk result (IsWatchedTable (lines table.now) configurations) }
    ensures fault { IfErr result
        (λ e. (e ≡ program.Fault fault.Memory) ⊎ IsTableFault (lines table.now) e) }
{
    let trace = traced(alloc, table)?;
    match watch_text(alloc, &trace.text, configurations) {
        Ok(verdict) => Ok(verdict_in_table(&trace, verdict)),
        Err(fault) => Err(fault_in_table(&trace, fault)),
    }
}
