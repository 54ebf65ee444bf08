ghost use Rattle.program_fault.specs.Done.{output};
ghost use Rattle.command_texts.specs.Done.{PrintsVerdict};

use crate::ProgramFault;
use report_check::check_report;
use report_lines::Out;
use report_lines::output::put_all;
use std::alloc::Allocator;

/// Checks a report, and prints `good report` if it is one.
///
/// Errors: the first bad line of a report that is not good, or out of memory; and nothing was
/// written then. If the output fails, a beginning was written.
pub fn check_text<A: Allocator + Copy, W: Out>(
    alloc: A,
    report: &[u8],
    out: &mut W,
) -> Result<(), ProgramFault>
    ensures { PrintsVerdict report.now (output (W.taken out.old) (W.failures out.old))
        (output (W.taken out.new) (W.failures out.new)) result }
{
    check_report(alloc, report)?;
    put_all(out, b"good report\n")?;
    Ok(())
}
