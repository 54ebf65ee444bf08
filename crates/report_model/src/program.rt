//! The programs of a report's processors by their scripts.

ghost use Rattle.std.specs.Prelude.{◌≡◌, ◌⊎◌, ◌*◌, ◌++◌, ◌≤◌, IfErr, IfOk, OnOk, [], ◌∷◌, length};
ghost use Rattle.std.specs.Prelude.{if◌then◌else◌};
ghost use Rattle.script_lines.specs.Lines.{script_of};
ghost use Rattle.report_model.specs.Indexes.{fence_before, operation_step};
ghost use Rattle.report_model.specs.Programs.{AreAllScripted, AreScripted, AreSpinsShort};
ghost use Rattle.report_model.specs.Programs.{IsUnscripted};
ghost use Rattle.report_model.specs.Programs.{IsUnscriptedAmong, operations_by, programs_of};
ghost use Rattle.report_model.specs.Programs.{walk_over};

use crate::answer::{NoReportAnswer, NoTextsAnswer};
use crate::row::{ProgramStep, ReportRow, fence_before, operation_step, row_at};
use crate::standing::{hand, is_next, lines_passed};
use one_order::Follower;
use script::{Line, Scripts};
use std::alloc::{AllocError, Allocator};

/// Memory was refused.
pub(crate) const MEMORY: NoTextsAnswer = NoTextsAnswer::Report(NoReportAnswer::Memory);

/// Adds an operation, and the fence before it.
fn put_steps<A: Allocator>(
    steps: &mut Vec<ProgramStep, A>,
    fence: bool,
    row: ReportRow,
) -> Result<(), AllocError>
    ensures { OnOk result (steps.new.items
        ≡ (steps.old.items ++ (if fence then fence_before row ∷ [] else []))
        ++ operation_step row ∷ []) }
{
    if fence {
        steps.push(fence_before(row))?;
    }
    steps.push(operation_step(row))?;
    Ok(())
}

/// The program of processor p, which has these lines and operations.
///
/// Errors: the first operation that isn't the script's next one, or out of memory.
fn program_of<A: Allocator + Copy>(
    alloc: A,
    p: u32,
    lines: &[Line],
    rows: &[ReportRow],
) -> Result<Vec<ProgramStep, A>, NoTextsAnswer>
    requires spins { AreSpinsShort lines.now }
    requires few { length rows.now ≤ 196609 }
    ensures steps { IfOk result (λ steps. steps.items ≡ (walk_over lines.now rows.now).steps) }
    ensures scripted { IfOk result (λ steps. AreScripted lines.now rows.now (length rows.now)) }
    ensures few { IfOk result (λ steps. length steps.items ≤ 2 * length rows.now) }
    ensures none { IfErr result (λ why. (why ≡ NoTextsAnswer.Report NoReportAnswer.Memory)
        ⊎ IsUnscripted p lines.now rows.now why) }
{
    let mut steps = Vec::new(alloc);
    let mut follower = Follower::new(Vec::new(alloc));
    let Ok(mut place) = hand(&mut follower, lines, 0) else {
        return Err(MEMORY);
    };
    for k in 0..rows.len() {
        let row = row_at(rows, k);
        if !is_next(&follower, row.operation) {
            return Err(NoTextsAnswer::OtherOperation {
                line: row.line,
                processor: p,
                passed: lines_passed(&follower, place.at),
            });
        }
        let Ok(()) = put_steps(&mut steps, place.fence, row) else {
            return Err(MEMORY);
        };
        let index = follower.issue();
        follower.answer(index, row.reply);
        let Ok(next) = hand(&mut follower, lines, place.at) else {
            return Err(MEMORY);
        };
        place = next;
    }
    Ok(steps)
}

/// A processor's operations.
///
/// Errors: out of memory.
fn operations_by<A: Allocator>(
    alloc: A,
    made: &[ReportRow],
    p: u32,
) -> Result<Vec<ReportRow, A>, AllocError>
    ensures { IfOk result (λ rows. rows.items ≡ operations_by p made.now) }
{
    made.iter()
        .copied()
        .filter(|row| row.source == p)
        .collect(alloc)
}

/// The script of a processor.
fn script_of<A: Allocator>(scripts: &Scripts<A>, p: u32) -> &[Line]
    ensures lines { result.now ≡ script_of scripts.now.lists p }
    ensures spins { AreSpinsShort result.now }
{
    match scripts.lines(p) {
        Some(lines) => lines,
        None => &[],
    }
}

/// The programs of the processors below a number, whose operations are given in the order of issue.
///
/// Errors: the first operation that isn't its script's next one, or out of memory.
pub(crate) fn programs_of<A: Allocator + Copy>(
    alloc: A,
    scripts: &Scripts<A>,
    made: &[ReportRow],
    processors: u32,
) -> Result<Vec<ProgramStep, A>, NoTextsAnswer>
    requires processors { processors ≤ 64 }
    requires few { length made.now ≤ 196609 }
    ensures steps { IfOk result (λ steps. steps.items
        ≡ programs_of scripts.now.lists made.now processors) }
    ensures scripted { IfOk result (λ steps.
        AreAllScripted scripts.now.lists made.now processors) }
    ensures few { IfOk result (λ steps. length steps.items ≤ 25165952) }
    ensures none { IfErr result (λ why. (why ≡ NoTextsAnswer.Report NoReportAnswer.Memory)
        ⊎ IsUnscriptedAmong scripts.now.lists made.now processors why) }
{
    let mut steps = Vec::new(alloc);
    for p in 0..processors {
        let Ok(rows) = operations_by(alloc, made, p) else {
            return Err(MEMORY);
        };
        let program = match program_of(alloc, p, script_of(scripts, p), &rows) {
            Ok(program) => program,
            Err(why) => return Err(why),
        };
        let Ok(()) = steps.extend_from_slice(&program) else {
            return Err(MEMORY);
        };
    }
    Ok(steps)
}
