//! Judges a trace text, and prints the order that explains it.

ghost use Rattle.std.specs.Str.Lines.{lines};
ghost use Rattle.program_fault.specs.Done.{output};
ghost use Rattle.command_verdicts.specs.Judging.{PrintsOrder};

use program_fault::ProgramFault;
use report_lines::Out;
use std::alloc::Allocator;
use torus::Fault;
use trace_answer::{Unfit, write_order};
use trace_text::{Finding, Unfound, read_trace};

/// What a trace text is judged to be.
#[derive(Clone, Copy)]
pub enum Judged {
    /// It is linearizable, and an order that explains it is printed.
    Linearizable,
    /// What comes before the event of this line is linearizable, and with it no more.
    NotLinearizable { line: u64 },
    /// With the event of this line it is linearizable no more; whether what comes before it is isn't decided, for this
    /// reason.
    NotLinearizableBy { line: u64, why: Unfound },
    /// It isn't decided: at the answer of this line a word has more configurations than were allowed.
    TooMany { line: u64 },
    /// It isn't decided: at the issue of this line 64 other operations are open on its word.
    TooOpen { line: u64 },
    /// It is linearizable, and the order has no report, since it passes this limit.
    NoReport { why: Unfit },
}

/// Judges the trace of a text, with at most so many configurations of a word at once. Where it is
/// linearizable, the operations are printed in an order that explains it, a line each, and
/// `linearizable` behind them; else nothing is written.
///
/// Errors: the first fault of the text, or out of memory; and nothing was written then. If the output
/// fails, a beginning was written.
pub fn linearize_text<A: Allocator + Copy, W: Out>(
    alloc: A,
    trace: &[u8],
    configurations: u64,
    out: &mut W,
) -> Result<Judged, ProgramFault>
    ensures { PrintsOrder (lines trace.now) configurations
        (output (W.taken out.old) (W.failures out.old))
        (output (W.taken out.new) (W.failures out.new)) result }
{
    let trace = read_trace(alloc, trace)?;
    match trace.linearize(alloc, configurations as usize) {
        Ok(Finding::Linearizable(order)) => {
            write_order(out, trace.issued(), &order)?;
            Ok(Judged::Linearizable)
        }
        Ok(Finding::No { line }) => Ok(Judged::NotLinearizable { line }),
        Ok(Finding::NoBy { line, why }) => Ok(Judged::NotLinearizableBy { line, why }),
        Err(Unfound::Memory) => Err(ProgramFault::Fault(Fault::Memory)),
        Err(Unfound::Configurations { line }) => Ok(Judged::TooMany { line }),
        Err(Unfound::Operations { line }) => Ok(Judged::TooOpen { line }),
    }
}
