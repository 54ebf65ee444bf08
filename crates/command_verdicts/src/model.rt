//! Judges a log or a report by memory models, and prints which of them it obeys.

ghost use Rattle.std.specs.Prelude.{◌≡◌, true, false};
ghost use Rattle.std.specs.Str.Lines.{lines};
ghost use Rattle.program_fault.specs.Done.{output};
ghost use Rattle.command_verdicts.specs.Modelled.{PrintsModels, PrintsModelsOfReport};
ghost use Rattle.command_verdicts.specs.Modelled.{is_report_text};
ghost use Rattle.command_verdicts.specs.Modelled.{options_of};

use lexer::LineFault;
use model_answer::{NoAnswer, Obeys, Options, WeakAnswer, model_answer};
use model_text::WrongReply;
use program_fault::ProgramFault;
use report_lines::Out;
use report_lines::output::put_all;
use report_model::{NoReportAnswer, answer_to_report};
use std::alloc::Allocator;
use torus::Fault;

/// What a log is judged to be.
#[derive(Clone, Copy)]
pub enum Modelled {
    /// Its replies are due, it obeys these models, and the answer is printed.
    Obeys(Obeys, WeakAnswer),
    /// The replies of a report are due, its run obeys these models, and the answer is printed. A report
    /// doesn't say where fences stand, so the answer leaves open each model that one could break.
    WithoutFences(Obeys, WeakAnswer),
    /// This reply isn't the one that is due, so no model is asked, and nothing is printed.
    Wrong(WrongReply),
    /// The report of this line has another shape than the machine that is said to be its own.
    OtherShape {
        line: u64,
    },
    /// At this line the report has another operation than the next one of the processor's script,
    /// behind so many of its lines.
    OtherOperation {
        line: u64,
        processor: u32,
        passed: usize,
    },
}

/// What is asked beside the verdicts of five models.
#[derive(Clone, Copy)]
pub struct AskedModels {
    /// An order of the strongest model that is obeyed.
    pub order: bool,
    /// RISC-V's model, also where a log has no annotations.
    pub rvwmo: bool,
}

/// Judges the log of a text by five memory models, and prints a line for each, the cycle of the weakest
/// that it breaks, and, if asked for, an order of the strongest that it obeys. If a reply is wrong,
/// nothing is written.
///
/// Errors: the first fault of the text, or out of memory; and nothing was written then. If the output
/// fails, a beginning was written.
pub fn model_text<A: Allocator + Copy, W: Out>(
    alloc: A,
    log: &[u8],
    options: Options,
    out: &mut W,
) -> Result<Modelled, ProgramFault>
    ensures { PrintsModels A (lines log.now) options
        (output (W.taken out.old) (W.failures out.old))
        (output (W.taken out.new) (W.failures out.new)) result }
{
    match model_answer(alloc, log, options) {
        Ok(answer) => {
            put_all(out, &answer.text)?;
            Ok(Modelled::Obeys(answer.obeys, answer.weak))
        }
        Err(NoAnswer::Refused(refusal)) => Err(ProgramFault::from(LineFault::from(refusal))),
        Err(NoAnswer::Wrong(wrong)) => Ok(Modelled::Wrong(wrong)),
        Err(NoAnswer::Memory) => Err(ProgramFault::Fault(Fault::Memory)),
    }
}

/// Whether a text begins as reports do, and logs don't.
pub fn is_report(text: &[u8]) -> bool
    ensures { result ≡ is_report_text text.now }
{
    text.starts_with(b"torusmem ")
}

/// Judges the operations of a report by memory models, as `model_text` does those of a log. A report has
/// no fences, so where one may forbid what it shows there is neither yes nor no.
///
/// Errors: its first bad line, F5 at its last line where it has entries and no order lines, or out of
/// memory; and nothing was written then. If the output fails, a beginning was written.
pub fn report_models_text<A: Allocator + Copy, W: Out>(
    alloc: A,
    report: &[u8],
    asked: AskedModels,
    out: &mut W,
) -> Result<Modelled, ProgramFault>
    ensures { PrintsModelsOfReport A report.now asked
        (output (W.taken out.old) (W.failures out.old))
        (output (W.taken out.new) (W.failures out.new)) result }
{
    let AskedModels { order, rvwmo } = asked;
    let fences = false;
    let options = Options {
        order,
        fences,
        rvwmo,
    };
    match answer_to_report(alloc, report, options) {
        Ok(answer) => {
            put_all(out, &answer.text)?;
            Ok(Modelled::WithoutFences(answer.obeys, answer.weak))
        }
        Err(NoReportAnswer::Bad { line }) => Err(ProgramFault::Bad(line)),
        Err(NoReportAnswer::NoOrder { line }) => Err(ProgramFault::Line(LineFault {
            fault: Fault::Setting,
            line,
        })),
        Err(NoReportAnswer::Unjudged(NoAnswer::Refused(refusal))) => {
            Err(ProgramFault::from(LineFault::from(refusal)))
        }
        Err(NoReportAnswer::Unjudged(NoAnswer::Wrong(wrong))) => Ok(Modelled::Wrong(wrong)),
        Err(NoReportAnswer::Unjudged(NoAnswer::Memory)) => {
            Err(ProgramFault::Fault(Fault::Memory))
        }
        Err(NoReportAnswer::Memory) => Err(ProgramFault::Fault(Fault::Memory)),
    }
}

/// Judges a text by memory models: a report, if it begins as one, and else a log.
///
/// Errors: those of `report_models_text`, and those of `model_text`.
pub fn judged_models_text<A: Allocator + Copy, W: Out>(
    alloc: A,
    text: &[u8],
    asked: AskedModels,
    out: &mut W,
) -> Result<Modelled, ProgramFault>
    ensures report { is_report_text text.now ≡ true → PrintsModelsOfReport A text.now asked
        (output (W.taken out.old) (W.failures out.old))
        (output (W.taken out.new) (W.failures out.new)) result }
    ensures log { is_report_text text.now ≡ false → PrintsModels A (lines text.now)
        (options_of asked true)
        (output (W.taken out.old) (W.failures out.old))
        (output (W.taken out.new) (W.failures out.new)) result }
{
    if is_report(text) {
        report_models_text(alloc, text, asked, out)
    } else {
        let AskedModels { order, rvwmo } = asked;
        let fences = true;
        let options = Options {
            order,
            fences,
            rvwmo,
        };
        model_text(alloc, text, options, out)
    }
}
