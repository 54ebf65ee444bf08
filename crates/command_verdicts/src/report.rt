//! Judges a trace text, and prints the report of the order that explains it.

ghost use Rattle.std.specs.Prelude.{◌≡◌, ℕ};
ghost use Rattle.std.specs.Str.Lines.{lines};
ghost use Rattle.program_fault.specs.Done.{output};
ghost use Rattle.trace_laws.specs.Orders.{IsOrder};
ghost use Rattle.trace_text.specs.Traced.{opening_of};
ghost use Rattle.trace_answer.specs.Whole.{IsWholeTrace};
ghost use Rattle.command_verdicts.specs.Reporting.{PrintsReport, PutsTraceReport, unreported};

use crate::command::Judged;
use program_fault::ProgramFault;
use report_lines::{Out, write_report};
use std::alloc::Allocator;
use torus::Fault;
use trace_answer::laws::texts_are_whole;
use trace_answer::{Unfit, report_of_order};
use trace_laws::Call;
use trace_text::{Finding, TraceText, Unfound, read_trace};

/// What is answered where an order has no report.
fn unreported(why: Unfit) -> Result<Judged, ProgramFault>
    ensures { result ≡ unreported why }
{
    match why {
        Unfit::Memory => Err(ProgramFault::Fault(Fault::Memory)),
        _ => Ok(Judged::NoReport { why }),
    }
}

/// Writes the report of an order of a trace, if it has one.
fn put_report<A: Allocator + Copy, W: Out>(
    alloc: A,
    trace: &TraceText<A>,
    order: &[Call],
    out: &mut W,
) -> Result<Judged, ProgramFault>
    requires whole { IsWholeTrace trace.now }
    requires explains { IsOrder (opening_of trace.now) trace.now.events order.now }
    ensures { (bound : ℕ) → PutsTraceReport trace.now bound
        (output (W.taken out.old) (W.failures out.old))
        (output (W.taken out.new) (W.failures out.new)) result }
{
    match report_of_order(alloc, trace, order) {
        Ok(report) => {
            write_report(out, &report)?;
            Ok(Judged::Linearizable)
        }
        Err(why) => unreported(why),
    }
}

/// Judges the trace of a text, with at most so many configurations of a word at once. Where it is
/// linearizable, the report of an order that explains it is printed, if it is within the limits of
/// reports; else nothing is written.
///
/// Errors: the first fault of the text, or out of memory; and nothing was written then. If the output
/// fails, a beginning was written.
pub fn report_text<A: Allocator + Copy, W: Out>(
    alloc: A,
    trace: &[u8],
    configurations: u64,
    out: &mut W,
) -> Result<Judged, ProgramFault>
    ensures { PrintsReport (lines trace.now) configurations
        (output (W.taken out.old) (W.failures out.old))
        (output (W.taken out.new) (W.failures out.new)) result }
{
    let trace = read_trace(alloc, trace)?;
    texts_are_whole();
    match trace.linearize(alloc, configurations as usize) {
        Ok(Finding::Linearizable(order)) => put_report(alloc, &trace, &order, out),
        Ok(Finding::No { line }) => Ok(Judged::NotLinearizable { line }),
        Ok(Finding::NoBy { line, why }) => Ok(Judged::NotLinearizableBy { line, why }),
        Err(Unfound::Memory) => Err(ProgramFault::Fault(Fault::Memory)),
        Err(Unfound::Configurations { line }) => Ok(Judged::TooMany { line }),
        Err(Unfound::Operations { line }) => Ok(Judged::TooOpen { line }),
    }
}
