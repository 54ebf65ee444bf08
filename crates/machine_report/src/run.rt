//! The reports of what is reached, and of a machine.

ghost use Rattle.std.specs.Prelude.{◌≡◌, IfErr, IfOk, map};
ghost use Rattle.report_lines.specs.Line.{text_of};
ghost use Rattle.report_check.specs.Good.{GoodReport};
ghost use Rattle.machine_report.specs.Report.{IsReportOf, IsWithinLimits, machine_report};
ghost use Rattle.machine_report.specs.Report.{order_line, report_with};

use crate::reached::Reached;
use crate::told::Told;
use machine_core::{Machine, Ordered};
use report_check::good_laws::contents_are_good;
use report_check::numbers_fit;
use report_lines::Report;
use std::alloc::{AllocError, Allocator};
use torus::Fault;

/// What is shown is within the limits of a report.
fn limits<S: Reached>(reached: &S)
    ensures { IsWithinLimits (S.core reached.now) }
{
    reached.reports_well();
}

/// The report of what is reached, with the lines of these rows of the one order.
///
/// Errors: out of memory alone.
pub fn lines_with<A: Allocator + Copy, S: Reached>(
    alloc: A,
    reached: &S,
    order: &[Ordered],
) -> Result<Report<A>, AllocError>
    ensures { IfOk result
        (λ report. report ≡ report_with (S.core reached.now) (map order_line order.now)) }
{
    limits(reached);
    Report::of_shown(alloc, &Told { reached, order })
}

/// The report of what is reached, with its one order or without order lines, is a good one.
pub fn goodness<A: Allocator + Copy, S: Reached>(reached: &S, report: &Report<A>)
    requires { IsReportOf (S.core reached.now) report.now }
    ensures { GoodReport (text_of report.now) }
{
    reached.reports_well();
    contents_are_good();
    numbers_fit(report.lines());
}

/// The report of a machine.
fn lines_of_run<A: Allocator + Copy, B: Allocator>(
    alloc: A,
    machine: &Machine<B>,
) -> Result<Report<A>, AllocError>
    ensures report { IfOk result (λ report. report ≡ machine_report machine.now) }
    ensures good { IfOk result (λ report. GoodReport (text_of report)) }
{
    let Ok(rows) = machine.order(alloc) else {
        return Err(AllocError);
    };
    let report = lines_with(alloc, machine, rows.as_slice())?;
    goodness(machine, &report);
    Ok(report)
}

/// The report of a machine's run: its shape, opening words, entries, answers, words, one order,
/// and whether every script is finished.
///
/// Errors: `Fault::Memory` alone.
pub fn of_run<A: Allocator + Copy, B: Allocator>(
    alloc: A,
    machine: &Machine<B>,
) -> Result<Report<A>, Fault>
    // The report says what the machine shows.
    ensures report { IfOk result (λ report. report ≡ machine_report machine.now) }
    // It is a good one: the checker accepts its text.
    ensures good { IfOk result (λ report. GoodReport (text_of report)) }
    ensures fault { IfErr result (λ fault. fault ≡ Fault.Memory) }
{
    match lines_of_run(alloc, machine) {
        Ok(report) => Ok(report),
        Err(_) => Err(Fault::Memory),
    }
}
