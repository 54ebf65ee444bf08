//! The report of an order of a trace.

ghost use Rattle.std.specs.Prelude.{◌≡◌, ◌<◌, IfErr, IfOk, length};
ghost use Rattle.report_lines.specs.Line.{text_of};
ghost use Rattle.report_check.specs.Good.{GoodReport};
ghost use Rattle.trace_laws.specs.Orders.{IsOrder, memory_of};
ghost use Rattle.trace_text.specs.Traced.{opening_of};
ghost use Rattle.trace_answer.specs.Fitting.{IsFit, IsUnfit};
ghost use Rattle.trace_answer.specs.Report.{AreParts, IsReportOfOrder, shape_told};
ghost use Rattle.trace_answer.specs.Services.{services_told};
ghost use Rattle.trace_answer.specs.Times.{AreTimes};
ghost use Rattle.trace_answer.specs.Whole.{IsWholeTrace};

use crate::contents::{all_answered, answers_of_services, entries_of, opening_words, order_lines};
use crate::fit::fitting;
use crate::numbers::waits_of;
use crate::service::Service;
use crate::services::{places, served, services_with};
use crate::shape::torus_for;
use crate::times::{Times, times_of};
use crate::unfit::Unfit;
use report_check::good_laws::contents_are_good;
use report_check::numbers_fit;
use report_lines::{Parts, Report};
use std::alloc::{AllocError, Allocator};
use torus::Torus;
use trace_laws::Call;
use trace_text::TraceText;

/// The services of an order of a trace, and the words that they leave.
fn services_told<A: Allocator + Copy>(
    alloc: A,
    trace: &TraceText<A>,
    tiles: u32,
    times: &[Times],
    order: &[Call],
) -> Result<(Vec<Service, A>, Vec<u64, A>), AllocError>
    requires some { 0 < tiles }
    requires fit { IsFit trace.now order.now }
    requires whole { IsWholeTrace trace.now }
    requires explains { IsOrder (opening_of trace.now) trace.now.events order.now }
    requires told { AreTimes trace.now.events (length trace.now.issued) times.now }
    ensures services { IfOk result
        (λ both. both.0.items ≡ services_told trace.now tiles times.now order.now) }
    ensures words { IfOk result
        (λ both. both.1.items ≡ memory_of (opening_of trace.now) order.now) }
{
    let mut words = opening_words(alloc, trace)?;
    let told = served(alloc, &mut words, order)?;
    let places = places(alloc, tiles, order)?;
    let waits = waits_of(alloc, times, order)?;
    let services = services_with(alloc, trace, tiles, times, order, &told, &places, &waits)?;
    Ok((services, words))
}

/// The parts of the report of an order of a trace.
fn parts_of<A: Allocator + Copy>(
    alloc: A,
    trace: &TraceText<A>,
    torus: Torus,
    times: &[Times],
    order: &[Call],
) -> Result<Parts<A>, AllocError>
    requires torus { torus ≡ shape_told trace.now }
    requires fit { IsFit trace.now order.now }
    requires whole { IsWholeTrace trace.now }
    requires explains { IsOrder (opening_of trace.now) trace.now.events order.now }
    requires told { AreTimes trace.now.events (length trace.now.issued) times.now }
    ensures { IfOk result (λ parts. AreParts trace.now times.now order.now parts) }
{
    let tiles = torus.tiles();
    let (services, last) = services_told(alloc, trace, tiles, times, order)?;
    let opening = opening_words(alloc, trace)?;
    let entries = entries_of(alloc, &services, tiles)?;
    let answers = answers_of_services(alloc, &services, tiles)?;
    let order = order_lines(alloc, &services)?;
    let finished = all_answered(times);
    Ok(Parts {
        torus,
        opening,
        entries,
        answers,
        last,
        order,
        finished,
    })
}

/// The report of an order of a trace within the limits.
fn report_within<A: Allocator + Copy>(
    alloc: A,
    trace: &TraceText<A>,
    torus: Torus,
    order: &[Call],
) -> Result<Report<A>, AllocError>
    requires torus { torus ≡ shape_told trace.now }
    requires fit { IsFit trace.now order.now }
    requires whole { IsWholeTrace trace.now }
    requires explains { IsOrder (opening_of trace.now) trace.now.events order.now }
    ensures report { IfOk result (λ report. IsReportOfOrder trace.now order.now report) }
{
    let _tiles = torus.tiles();
    let times = times_of(alloc, trace.events(), trace.issued().len())?;
    let parts = parts_of(alloc, trace, torus, &times, order)?;
    Report::of_shown(alloc, &parts)
}

/// The report of an order of a trace is a good one.
fn goodness<A: Allocator + Copy>(
    trace: &TraceText<A>,
    torus: &Torus,
    order: &[Call],
    report: &Report<A>,
)
    requires torus { torus.now ≡ shape_told trace.now }
    requires fit { IsFit trace.now order.now }
    requires whole { IsWholeTrace trace.now }
    requires explains { IsOrder (opening_of trace.now) trace.now.events order.now }
    requires report { IsReportOfOrder trace.now order.now report.now }
    ensures { GoodReport (text_of report.now) }
{
    let _tiles = torus.tiles();
    contents_are_good();
    numbers_fit(report.lines());
}

/// The report of an order that explains a trace: each operation of the order is served by the home
/// bank of its address, in its turn, and answered if the trace has its answer. One that the order
/// doesn't have isn't told.
///
/// Errors: the first limit of reports that is passed, of the words, the operations of the order,
/// the events, and for each operation its processor and its index; or out of memory.
pub fn report_of_order<A: Allocator + Copy>(
    alloc: A,
    trace: &TraceText<A>,
    order: &[Call],
) -> Result<Report<A>, Unfit>
    requires whole { IsWholeTrace trace.now }
    requires explains { IsOrder (opening_of trace.now) trace.now.events order.now }
    // The report says what the trace and the order do.
    ensures report { IfOk result (λ report. IsReportOfOrder trace.now order.now report) }
    // It is a good one: the checker accepts its text.
    ensures good { IfOk result (λ report. GoodReport (text_of report)) }
    ensures unfit { IfErr result (IsUnfit trace.now order.now) }
{
    let processors = fitting(trace, order)?;
    let Ok(torus) = torus_for(processors) else {
        return Err(Unfit::Memory);
    };
    let report = report_within(alloc, trace, torus, order)?;
    goodness(trace, &torus, order, &report);
    Ok(report)
}
