//! An operation of a report.

ghost use Rattle.std.specs.Prelude.{◌≡◌, ◌<◌, Some, length, slice_get};
ghost use Rattle.report_model.specs.Rows.{entry_key, order_key, report_row_of};
ghost use Rattle.report_model.specs.Indexes.{fence_before, operation_step};

use crate::run::ServedLine;
use packet::{Operation, Reply};
use report_lines::OrderLine;

/// An operation of a report, with the line of its entry.
#[derive(Clone, Copy)]
pub struct ReportRow {
    /// The line of its entry, from 1.
    pub line: u64,
    /// The processor that asked.
    pub source: u32,
    pub operation: Operation,
    pub reply: Reply,
    /// The number of its issue among all events.
    pub issued: u32,
}

/// An operation of a processor's program, or a fence.
#[derive(Clone, Copy)]
pub struct ProgramStep {
    /// The line of its entry; a fence has that of the operation behind it.
    pub line: u64,
    pub source: u32,
    /// What it is; `None` for a fence.
    pub operation: Option<Operation>,
    /// The number of its issue, from 1; 0 for a fence.
    pub issued: u32,
}

/// An operation as a step of its processor's program.
pub(crate) fn operation_step(row: ReportRow) -> ProgramStep
    ensures { result ≡ operation_step row }
{
    ProgramStep {
        line: row.line,
        source: row.source,
        operation: Some(row.operation),
        issued: row.issued,
    }
}

/// The fence before an operation.
pub(crate) fn fence_before(row: ReportRow) -> ProgramStep
    ensures { result ≡ fence_before row }
{
    ProgramStep {
        line: row.line,
        source: row.source,
        operation: None,
        issued: 0,
    }
}

/// The operation at a place.
pub(crate) fn row_at(rows: &[ReportRow], k: usize) -> ReportRow
    requires { k < length rows.now }
    ensures { slice_get rows.now k ≡ Some result }
{
    rows[k]
}

/// The step at a place.
pub(crate) fn step_at(steps: &[ProgramStep], k: usize) -> ProgramStep
    requires { k < length steps.now }
    ensures { slice_get steps.now k ≡ Some result }
{
    steps[k]
}

/// The bank and the place of an entry as one number: a bank has at most 65536 entries.
pub(crate) fn entry_key(served: ServedLine) -> usize
    ensures { result ≡ entry_key served }
{
    65536 * served.entry.bank as usize + served.entry.place as usize
}

/// Those that an order line names.
pub(crate) fn order_key(order: OrderLine) -> usize
    ensures { result ≡ order_key order }
{
    65536 * order.bank as usize + order.place as usize
}

/// The operation of an entry and its order line.
pub(crate) fn row_of(served: ServedLine, order: OrderLine) -> ReportRow
    ensures { result ≡ report_row_of served order }
{
    ReportRow {
        line: served.line,
        source: served.entry.source,
        operation: Operation {
            address: served.entry.address,
            op: served.entry.op,
        },
        reply: served.entry.reply,
        issued: order.issued,
    }
}
