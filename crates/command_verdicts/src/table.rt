//! The judge of tables of operations, by their trace texts.

ghost use Rattle.std.specs.Prelude.{◌≡◌, ◌⊎◌, true, false, IfOk, IfErr};
ghost use Rattle.std.specs.Str.Lines.{lines};
ghost use Rattle.torus.specs.declared.fault.Fault.TheVariants as fault;
ghost use Rattle.program_fault.specs.Done.{output};
ghost use Rattle.command_verdicts.specs.Hints.{begins_table};
ghost use Rattle.command_verdicts.specs.Judging.{PrintsOrder};
ghost use Rattle.command_verdicts.specs.Reporting.{PrintsReport};
ghost use Rattle.command_verdicts.specs.Tables.{IsRefusedTable, IsTraceOfTable, PrintsTableOrder};
ghost use Rattle.command_verdicts.specs.Tables.{PrintsTableReport, answer_in_table, fault_in_table};
ghost use Rattle.command_verdicts.specs.Tables.{verdict_in_table, why_in_table};

use crate::command::{Judged, linearize_text};
use crate::hints::begins_table;
use crate::report::report_text;
use lexer::LineFault;
use program_fault::ProgramFault;
use report_lines::Out;
use std::alloc::Allocator;
use trace_table::{TableTrace, read_table};
use trace_text::Unfound;

/// Why the trace text of a table is not judged, with the line of the table.
fn why_in_table<A: Allocator>(trace: &TableTrace<A>, why: Unfound) -> Unfound
    ensures { result ≡ why_in_table trace.now.lines.items why }
{
    match why {
        Unfound::Memory => Unfound::Memory,
        Unfound::Configurations { line } => Unfound::Configurations {
            line: trace.table_line(line),
        },
        Unfound::Operations { line } => Unfound::Operations {
            line: trace.table_line(line),
        },
    }
}

/// A verdict on the trace text of a table, with the lines of the table.
pub(crate) fn verdict_in_table<A: Allocator>(trace: &TableTrace<A>, verdict: Judged) -> Judged
    ensures { result ≡ verdict_in_table trace.now.lines.items verdict }
{
    match verdict {
        Judged::Linearizable => Judged::Linearizable,
        Judged::NotLinearizable { line } => Judged::NotLinearizable {
            line: trace.table_line(line),
        },
        Judged::NotLinearizableBy { line, why } => Judged::NotLinearizableBy {
            line: trace.table_line(line),
            why: why_in_table(trace, why),
        },
        Judged::TooMany { line } => Judged::TooMany {
            line: trace.table_line(line),
        },
        Judged::TooOpen { line } => Judged::TooOpen {
            line: trace.table_line(line),
        },
        Judged::NoReport { why } => Judged::NoReport { why },
    }
}

/// A fault of the trace text of a table, at the line of the table.
pub(crate) fn fault_in_table<A: Allocator>(
    trace: &TableTrace<A>,
    fault: ProgramFault,
) -> ProgramFault
    ensures { result ≡ fault_in_table trace.now.lines.items fault }
{
    match fault {
        ProgramFault::Line(found) => ProgramFault::Line(LineFault {
            fault: found.fault,
            line: trace.table_line(found.line),
        }),
        other => other,
    }
}

/// What is answered of the trace text of a table, with the lines of the table.
fn answer_in_table<A: Allocator>(
    trace: &TableTrace<A>,
    answer: Result<Judged, ProgramFault>,
) -> Result<Judged, ProgramFault>
    ensures { result ≡ answer_in_table trace.now.lines.items answer }
{
    match answer {
        Ok(verdict) => Ok(verdict_in_table(trace, verdict)),
        Err(fault) => Err(fault_in_table(trace, fault)),
    }
}

/// The trace text of a table.
///
/// Errors: the first fault of the table, or out of memory at line 0.
pub(crate) fn traced<A: Allocator + Copy>(
    alloc: A,
    table: &[u8],
) -> Result<TableTrace<A>, LineFault>
    ensures trace { IfOk result
        (λ t. IsTraceOfTable (lines table.now) t.text.items t.lines.items) }
    ensures fault { IfErr result
        (λ found. (found.fault ≡ fault.Memory) ⊎ IsRefusedTable (lines table.now) found) }
{
    match read_table(alloc, table) {
        Ok(trace) => Ok(trace),
        Err(refusal) => Err(LineFault::from(refusal)),
    }
}

/// Judges the trace of a table, as `linearize_text` does that of a text; the lines of a verdict and of a
/// fault are those of the table.
///
/// Errors: the first fault of the table, or else of its trace text, or out of memory; and nothing was
/// written then. If the output fails, a beginning was written.
pub fn linearize_table<A: Allocator + Copy, W: Out>(
    alloc: A,
    table: &[u8],
    configurations: u64,
    out: &mut W,
) -> Result<Judged, ProgramFault>
    ensures { PrintsTableOrder (lines table.now) configurations
        (output (W.taken out.old) (W.failures out.old))
        (output (W.taken out.new) (W.failures out.new)) result }
{
    let trace = traced(alloc, table)?;
    let answer = linearize_text(alloc, &trace.text, configurations, out);
    answer_in_table(&trace, answer)
}

/// Judges the trace of a table of operations, and prints the report of an order, as `report_text` does.
///
/// Errors: as `linearize_table`.
pub fn report_table<A: Allocator + Copy, W: Out>(
    alloc: A,
    table: &[u8],
    configurations: u64,
    out: &mut W,
) -> Result<Judged, ProgramFault>
    ensures { PrintsTableReport (lines table.now) configurations
        (output (W.taken out.old) (W.failures out.old))
        (output (W.taken out.new) (W.failures out.new)) result }
{
    let trace = traced(alloc, table)?;
    let answer = report_text(alloc, &trace.text, configurations, out);
    answer_in_table(&trace, answer)
}

/// Judges a table of operations, if the text begins as one, and else a trace text, and prints an order.
///
/// Errors: those of `linearize_table`, and those of `linearize_text`.
pub fn judged_order_text<A: Allocator + Copy, W: Out>(
    alloc: A,
    text: &[u8],
    configurations: u64,
    out: &mut W,
) -> Result<Judged, ProgramFault>
    ensures table { begins_table (lines text.now) ≡ true
        → PrintsTableOrder (lines text.now) configurations
        (output (W.taken out.old) (W.failures out.old))
        (output (W.taken out.new) (W.failures out.new)) result }
    ensures trace { begins_table (lines text.now) ≡ false
        → PrintsOrder (lines text.now) configurations
        (output (W.taken out.old) (W.failures out.old))
        (output (W.taken out.new) (W.failures out.new)) result }
{
    if begins_table(text) {
        linearize_table(alloc, text, configurations, out)
    } else {
        linearize_text(alloc, text, configurations, out)
    }
}

/// Judges a table of operations, if the text begins as one, and else a trace text, and prints the report of
/// an order.
///
/// Errors: those of `report_table`, and those of `report_text`.
pub fn judged_report_text<A: Allocator + Copy, W: Out>(
    alloc: A,
    text: &[u8],
    configurations: u64,
    out: &mut W,
) -> Result<Judged, ProgramFault>
    ensures table { begins_table (lines text.now) ≡ true
        → PrintsTableReport (lines text.now) configurations
        (output (W.taken out.old) (W.failures out.old))
        (output (W.taken out.new) (W.failures out.new)) result }
    ensures trace { begins_table (lines text.now) ≡ false
        → PrintsReport (lines text.now) configurations
        (output (W.taken out.old) (W.failures out.old))
        (output (W.taken out.new) (W.failures out.new)) result }
{
    if begins_table(text) {
        report_table(alloc, text, configurations, out)
    } else {
        report_text(alloc, text, configurations, out)
    }
}
