//! The entries of the log that a report is.

ghost use Rattle.std.specs.Prelude.{◌≡◌, ◌++◌, ◌≤◌, IfOk, OnOk, length, map};
ghost use Rattle.std.specs.List.{flat_map};
ghost use Rattle.report_model.specs.Entries.{entries_with, made_entry, placed_entry};
ghost use Rattle.report_model.specs.Entries.{entries_of, service_entries, services};
ghost use Rattle.report_model.specs.Indexes.{operation_step};
ghost use Rattle.report_model.specs.Rows.{rows_of};
ghost use Rattle.report_model.specs.Run.{run_seen};

use crate::entry::{LineEntry, LogEntry, Named};
use crate::indexes::{issues_of_steps, name_issued, names_of};
use crate::made::{event_limit, made_of};
use crate::row::{ProgramStep, ReportRow, operation_step, row_at, step_at};
use crate::rows::rows_of;
use crate::run::RunLines;
use model_text::placing::places_in;
use packet::Op;
use std::alloc::{AllocError, Allocator};

/// An operation or a fence is made.
fn made_entry(step: ProgramStep) -> LineEntry
    ensures { result ≡ made_entry step }
{
    LineEntry {
        line: step.line,
        entry: LogEntry::Made(step.source, step.operation),
    }
}

/// An operation takes its place on its word.
fn placed(row: ReportRow, name: Named) -> LogEntry
    ensures { result ≡ placed_entry row name }
{
    match row.operation.op {
        Op::Load => LogEntry::Served(name),
        _ => LogEntry::Wrote(name),
    }
}

/// Adds an operation's service: its place on its word, and its reply.
fn put_service<A: Allocator>(
    entries: &mut Vec<LineEntry, A>,
    row: ReportRow,
    name: Named,
) -> Result<(), AllocError>
    ensures { OnOk result (entries.new.items ≡ entries.old.items ++ service_entries row name) }
{
    entries.push(LineEntry {
        line: row.line,
        entry: placed(row, name),
    })?;
    entries.push(LineEntry {
        line: row.line,
        entry: LogEntry::Replied(name, row.reply),
    })?;
    Ok(())
}

/// Adds steps that are made.
fn put_made<A: Allocator>(
    entries: &mut Vec<LineEntry, A>,
    steps: &[ProgramStep],
) -> Result<(), AllocError>
    ensures { OnOk result (entries.new.items ≡ entries.old.items ++ map made_entry steps.now) }
{
    for k in 0..steps.len() {
        entries.push(made_entry(step_at(steps, k)))?;
    }
    Ok(())
}

/// Adds services, of operations that are among some steps.
fn put_services<A: Allocator + Copy>(
    alloc: A,
    entries: &mut Vec<LineEntry, A>,
    steps: &[ProgramStep],
    rows: &[ReportRow],
) -> Result<(), AllocError>
    requires { length steps.now ≤ 25165952 }
    ensures { OnOk result (entries.new.items
        ≡ entries.old.items ++ flat_map (services steps.now) rows.now) }
{
    let names = names_of(alloc, steps)?;
    let issues = issues_of_steps(alloc, steps)?;
    let limit = event_limit(&issues);
    let places = places_in(alloc, &issues, limit)?;
    for k in 0..rows.len() {
        let row = row_at(rows, k);
        let name = name_issued(&names, &issues, &places, row.issued as usize);
        put_service(entries, row, name)?;
    }
    Ok(())
}

/// The entries of a report as a log, where its processors' programs are these steps.
///
/// Errors: out of memory.
pub(crate) fn entries_with<A: Allocator + Copy>(
    alloc: A,
    run: &RunLines<A>,
    rows: &[ReportRow],
    steps: &[ProgramStep],
) -> Result<Vec<LineEntry, A>, AllocError>
    requires rows { rows.now ≡ rows_of (run_seen run.now) }
    requires few { length steps.now ≤ 25165952 }
    ensures { IfOk result (λ entries. entries.items ≡ entries_with (run_seen run.now) steps.now) }
{
    let mut entries = Vec::from_slice(alloc, &run.inits)?;
    put_made(&mut entries, steps)?;
    put_services(alloc, &mut entries, steps, rows)?;
    Ok(entries)
}

/// Operations as steps of their processors' programs.
fn steps_of<A: Allocator>(alloc: A, rows: &[ReportRow]) -> Result<Vec<ProgramStep, A>, AllocError>
    ensures { IfOk result (λ steps. steps.items ≡ map operation_step rows.now) }
{
    rows.iter().map(|row| operation_step(*row)).collect(alloc)
}

/// The entries of a report as a log without fences.
///
/// Errors: out of memory.
pub(crate) fn entries_of<A: Allocator + Copy>(
    alloc: A,
    run: &RunLines<A>,
) -> Result<Vec<LineEntry, A>, AllocError>
    ensures { IfOk result (λ entries. entries.items ≡ entries_of (run_seen run.now)) }
{
    let rows = rows_of(alloc, run)?;
    let made = made_of(alloc, &rows)?;
    let steps = steps_of(alloc, &made)?;
    entries_with(alloc, run, &rows, &steps)
}
