//! Reading what a report says of its run.

ghost use Rattle.std.specs.Prelude.{◌≡◌, List, IfOk};
ghost use Rattle.std.specs.List.{AllByRecursion};
ghost use Rattle.report_lines.specs.Fits.{FitsLine};
ghost use Rattle.report_lines.specs.Line.{text_of};
ghost use Rattle.report_lines.specs.declared.line.ReportLine.{ReportLine};
ghost use Rattle.report_model.specs.Run.{report_run_of, run_seen};

use crate::run::RunLines;
use report_lines::read_line;
use std::alloc::{AllocError, Allocator};

/// What the lines of a report say of its run.
///
/// Errors: out of memory.
pub(crate) fn read_run<A: Allocator + Copy>(
    alloc: A,
    text: &[u8],
) -> Result<RunLines<A>, AllocError>
    ensures { IfOk result (λ run. (lines : List ReportLine) → AllByRecursion FitsLine lines
        → text.now ≡ text_of lines → run_seen run ≡ report_run_of lines) }
{
    let mut run = RunLines::none(alloc);
    let mut rest = text;
    while let Some((line, after)) = read_line(rest) {
        run.take(&line)?;
        rest = after;
    }
    Ok(run)
}
