//! Judges a report by memory models with the fences of the scripts that were run.

ghost use Rattle.std.specs.Prelude.{◌≡◌};
ghost use Rattle.std.specs.Str.Lines.{lines};
ghost use Rattle.program_fault.specs.Done.{output};
ghost use Rattle.command_verdicts.specs.RunModelled.{PrintsModelsOfRun, PrintsModelsOfTexts};
ghost use Rattle.command_verdicts.specs.RunModelled.{unanswered};

use crate::{AskedModels, Modelled};
use lexer::LineFault;
use model_answer::{NoAnswer, Options};
use program_fault::ProgramFault;
use report_lines::Out;
use report_lines::output::put_all;
use report_model::{NoReportAnswer, NoTextsAnswer, answer_to_report_of};
use script::{MachineText, Scripts, read_machine, read_scripts};
use std::alloc::Allocator;
use torus::Fault;

/// What is told where there is no answer.
fn unanswered(why: NoTextsAnswer) -> Result<Modelled, ProgramFault>
    ensures { result ≡ unanswered why }
{
    match why {
        NoTextsAnswer::Report(NoReportAnswer::Bad { line }) => Err(ProgramFault::Bad(line)),
        NoTextsAnswer::Report(NoReportAnswer::NoOrder { line }) => {
            Err(ProgramFault::Line(LineFault {
                fault: Fault::Setting,
                line,
            }))
        }
        NoTextsAnswer::Report(NoReportAnswer::Unjudged(NoAnswer::Refused(refusal))) => {
            Err(ProgramFault::from(LineFault::from(refusal)))
        }
        NoTextsAnswer::Report(NoReportAnswer::Unjudged(NoAnswer::Wrong(wrong))) => {
            Ok(Modelled::Wrong(wrong))
        }
        NoTextsAnswer::Report(NoReportAnswer::Unjudged(NoAnswer::Memory)) => {
            Err(ProgramFault::Fault(Fault::Memory))
        }
        NoTextsAnswer::Report(NoReportAnswer::Memory) => Err(ProgramFault::Fault(Fault::Memory)),
        NoTextsAnswer::OtherShape { line } => Ok(Modelled::OtherShape { line }),
        NoTextsAnswer::OtherOperation {
            line,
            processor,
            passed,
        } => Ok(Modelled::OtherOperation {
            line,
            processor,
            passed,
        }),
    }
}

/// Judges the operations of a report by memory models, with the fences of the scripts of a machine that
/// were run, as `model_text` does those of a log. If the report isn't of these scripts, nothing is written.
///
/// Errors: those of `report_models_text`.
pub fn run_models_text<A: Allocator + Copy, W: Out>(
    alloc: A,
    report: &[u8],
    machine: &MachineText<A>,
    scripts: &Scripts<A>,
    asked: AskedModels,
    out: &mut W,
) -> Result<Modelled, ProgramFault>
    ensures { PrintsModelsOfRun A machine.now scripts.now report.now asked
        (output (W.taken out.old) (W.failures out.old))
        (output (W.taken out.new) (W.failures out.new)) result }
{
    let AskedModels { order, rvwmo } = asked;
    let fences = true;
    let options = Options {
        order,
        fences,
        rvwmo,
    };
    match answer_to_report_of(alloc, report, machine, scripts, options) {
        Ok(answer) => {
            put_all(out, &answer.text)?;
            Ok(Modelled::Obeys(answer.obeys, answer.weak))
        }
        Err(why) => unanswered(why),
    }
}

/// Does what `run_models_text` does, with the machine and the scripts of texts.
///
/// Errors: the first fault of the machine's text, or else of the scripts'; those of `run_models_text`.
pub fn texts_models_text<A: Allocator + Copy, W: Out>(
    alloc: A,
    report: &[u8],
    machine: &[u8],
    scripts: &[u8],
    asked: AskedModels,
    out: &mut W,
) -> Result<Modelled, ProgramFault>
    ensures { PrintsModelsOfTexts A (lines machine.now) (lines scripts.now) report.now asked
        (output (W.taken out.old) (W.failures out.old))
        (output (W.taken out.new) (W.failures out.new)) result }
{
    let machine = read_machine(alloc, machine)?;
    let scripts = read_scripts(alloc, scripts, &machine)?;
    run_models_text(alloc, report, &machine, &scripts, asked, out)
}
