//! Which memory models a report obeys.

ghost use Rattle.std.specs.Prelude.{◌≡◌, IfErr, IfOk};
ghost use Rattle.report_model.specs.Answers.{IsAnswerToReport, IsAnswerToRun, IsNoAnswerToReport};
ghost use Rattle.report_model.specs.Answers.{IsNoAnswerToRun, lacks_order};
ghost use Rattle.report_model.specs.Run.{run_seen};

use crate::entries::entries_of;
use crate::log_answer::answer_to_lines;
use crate::run::RunLines;
use crate::running::read_run;
use model_answer::{Answer, NoAnswer, Options};
use report_check::{CheckFault, check_report};
use std::alloc::Allocator;

/// Why there is no answer.
#[derive(Clone, Copy)]
pub enum NoReportAnswer {
    /// The report is bad: its first bad line.
    Bad { line: u64 },
    /// It has entries and no order lines: its last line.
    NoOrder { line: u64 },
    /// There is none on the log that its operations are.
    Unjudged(NoAnswer),
    /// A request for memory was refused.
    Memory,
}

/// Why there is no answer with the fences of scripts.
#[derive(Clone, Copy)]
pub enum NoTextsAnswer {
    /// There is none on the report or its log.
    Report(NoReportAnswer),
    /// The report is of a machine of other radices or words, or the scripts are: the line of its shape.
    OtherShape {
        line: u64,
    },
    /// An operation of the report isn't the one that its processor's script issues there.
    OtherOperation {
        /// The line of its entry.
        line: u64,
        processor: u32,
        /// How many lines of that script, fences too, stand before the one whose operation comes next:
        /// its place, or how many lines the script has where none is left.
        passed: usize,
    },
}

/// Whether there are entries, but no order lines.
pub(crate) fn lacks_order<A: Allocator>(run: &RunLines<A>) -> bool
    ensures { result ≡ lacks_order (run_seen run.now) }
{
    !run.entries.is_empty() && run.orders.is_empty()
}

/// Which memory models the log obeys that the operations of a good report are.
fn answer_to_run<A: Allocator + Copy>(
    alloc: A,
    run: &RunLines<A>,
    options: Options,
) -> Result<Answer<A>, NoReportAnswer>
    ensures answer { IfOk result (IsAnswerToRun (run_seen run.now) options) }
    ensures none { IfErr result (IsNoAnswerToRun (run_seen run.now)) }
{
    if lacks_order(run) {
        return Err(NoReportAnswer::NoOrder { line: run.count });
    }
    let Ok(entries) = entries_of(alloc, run) else {
        return Err(NoReportAnswer::Memory);
    };
    match answer_to_lines(alloc, u64::from(run.words), &entries, options) {
        Ok(answer) => Ok(answer),
        Err(why) => Err(NoReportAnswer::Unjudged(why)),
    }
}

/// Which memory models a good report obeys. A processor's operations are in program order by their issues;
/// a word's are in its order by their services.
///
/// Errors: its first bad line, or that it has no order lines, or out of memory.
pub fn answer_to_report<A: Allocator + Copy>(
    alloc: A,
    report: &[u8],
    options: Options,
) -> Result<Answer<A>, NoReportAnswer>
    ensures answer { IfOk result (IsAnswerToReport report.now options) }
    ensures none { IfErr result (IsNoAnswerToReport report.now) }
{
    match check_report(alloc, report) {
        Ok(()) => {}
        Err(CheckFault::BadReport { line }) => return Err(NoReportAnswer::Bad { line }),
        Err(CheckFault::Memory) => return Err(NoReportAnswer::Memory),
    }
    let Ok(run) = read_run(alloc, report) else {
        return Err(NoReportAnswer::Memory);
    };
    match answer_to_run(alloc, &run, options) {
        Ok(answer) => Ok(answer),
        Err(why) => Err(why),
    }
}
