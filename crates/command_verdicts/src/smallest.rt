//! A small part of the trace of a text that no order explains, if none explains the whole.

ghost use Rattle.std.specs.Prelude.{◌≡◌, true, false, IfOk};
ghost use Rattle.std.specs.Str.Lines.{lines};
ghost use Rattle.command_verdicts.specs.Hints.{begins_table};
ghost use Rattle.command_verdicts.specs.Smallest.{TellsShrunk, TellsShrunkTable};

use crate::explaining::explain_no_order;
use crate::explaining_table::last_line;
use crate::hints::begins_table;
use crate::table::traced;
use program_fault::ProgramFault;
use state_search::Ending;
use state_search::parts::kept_count;
use std::alloc::{Allocator, Global};
use torus::Fault;
use trace_answer::{ShrunkTrace, shrunk_trace};
use trace_text::read_trace;

/// What is left of the trace of a text, with at most so many configurations of a word at once; `None` where an order
/// explains the trace, or that isn't decided. The search begins near the answer of a line.
///
/// Errors: the first fault of the text, or out of memory.
fn shrunk_text<A: Allocator + Copy>(
    alloc: A,
    text: &[u8],
    line: u64,
    configurations: u64,
) -> Result<Option<ShrunkTrace<A>>, ProgramFault>
    ensures { IfOk result (TellsShrunk (lines text.now) configurations) }
{
    let trace = read_trace(alloc, text)?;
    match shrunk_trace(alloc, &trace, line, configurations as usize) {
        Ok(left) => Ok(left),
        Err(_) => Err(ProgramFault::Fault(Fault::Memory)),
    }
}

/// What is left of the trace of a table, as `shrunk_text` answers it of its trace text. The line is one of the table.
///
/// Errors: the first fault of the table, or of its trace text, or out of memory.
fn shrunk_table<A: Allocator + Copy>(
    alloc: A,
    table: &[u8],
    line: u64,
    configurations: u64,
) -> Result<Option<ShrunkTrace<A>>, ProgramFault>
    ensures { IfOk result (TellsShrunkTable (lines table.now) configurations) }
{
    let trace = traced(alloc, table)?;
    let line = last_line(&trace.lines, line).unwrap_or(0);
    shrunk_text(alloc, &trace.text, line, configurations)
}

/// What is left of the trace of a text, or of that of a table, with at most so many configurations of a word at once; `None`
/// where an order explains the trace, or that isn't decided. The search begins near the answer of a line.
///
/// Errors: the first fault of the text, or out of memory.
pub fn shrunk_of<A: Allocator + Copy>(
    alloc: A,
    text: &[u8],
    line: u64,
    configurations: u64,
) -> Result<Option<ShrunkTrace<A>>, ProgramFault>
    ensures table { begins_table (lines text.now) ≡ true
        → IfOk result (TellsShrunkTable (lines text.now) configurations) }
    ensures trace { begins_table (lines text.now) ≡ false
        → IfOk result (TellsShrunk (lines text.now) configurations) }
{
    if begins_table(text) {
        shrunk_table(alloc, text, line, configurations)
    } else {
        shrunk_text(alloc, text, line, configurations)
    }
}

/// Why a part is no smaller.
fn ending_text(ending: Ending) -> &'static str {
    match ending {
        Ending::Minimal => {
            "without any single one the rest has an order or is not decided, \
            or another one lacks what it found"
        }
        Ending::Spent => "no more parts are judged",
    }
}

/// Says how many operations are left after so many parts, and why no fewer.
pub(crate) fn tell_left<R: Eprint>(rt: &R, left: usize, judged: u32, why: &str) {
    let operations = if left == 1 {
        "operation is"
    } else {
        "operations are"
    };
    let parts = if judged == 1 { "part" } else { "parts" };
    let _ = eprintln!(rt; "{left} {operations} left, after {judged} {parts}: {why}");
}

/// Says how small a part is and why it has no order, as `explain_no_order` does, with the lines of its own
/// text under the name `smallest`.
pub fn tell_smallest<R: Eprint + AllocGlobal>(
    rt: &R,
    shrunk: &ShrunkTrace<Global>,
    configurations: u32,
) {
    tell_left(
        rt,
        kept_count(&shrunk.part.kept),
        shrunk.part.judged,
        ending_text(shrunk.part.ending),
    );
    explain_no_order(rt, "smallest", &shrunk.text, shrunk.line, configurations);
}
