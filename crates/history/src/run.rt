//! The report of the run behind a closed fabric.

ghost use Rattle.std.specs.Prelude.{◌≡◌, IfErr, IfOk};
ghost use Rattle.report_lines.specs.Line.{text_of};
ghost use Rattle.report_check.specs.Good.{GoodReport};
ghost use Rattle.history.specs.RunReport.{run_report};

use crate::ended::Ended;
use machine_report::Report;
use machine_report::run::{goodness, lines_with};
use std::alloc::{AllocError, Allocator};
use torus::Fault;
use worker_run::Final;

/// The report of the run behind a closed fabric.
fn lines_of_final<A: Allocator + Copy, B: Allocator>(
    alloc: A,
    last: &Final<B>,
) -> Result<Report<A>, AllocError>
    ensures report { IfOk result (λ report. report ≡ run_report last.now.load last.now.run) }
    ensures good { IfOk result (λ report. GoodReport (text_of report)) }
{
    let ended = Ended { last };
    let report = lines_with(alloc, &ended, &[])?;
    goodness(&ended, &report);
    Ok(report)
}

/// The report of a closed fabric: what the run behind it shows at its end: the shape, opening words,
/// entries, answers and words, and whether every script is finished. It has no order lines.
///
/// Errors: `Fault::Memory` alone.
pub fn of_final<A: Allocator + Copy, B: Allocator>(
    alloc: A,
    last: &Final<B>,
) -> Result<Report<A>, Fault>
    // The report says what the run shows at its end.
    ensures report { IfOk result (λ report. report ≡ run_report last.now.load last.now.run) }
    // It is a good one: the checker accepts its text.
    ensures good { IfOk result (λ report. GoodReport (text_of report)) }
    ensures fault { IfErr result (λ fault. fault ≡ Fault.Memory) }
{
    let Ok(report) = lines_of_final(alloc, last) else {
        return Err(Fault::Memory);
    };
    Ok(report)
}
