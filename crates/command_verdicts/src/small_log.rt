//! A small part of a log that a memory model doesn't explain, where one is asked for.

ghost use Rattle.std.specs.Prelude.{◌≡◌, true, false, IfOk};
ghost use Rattle.std.specs.Str.Lines.{lines};
ghost use Rattle.program_fault.specs.Done.{output};
ghost use Rattle.model_answer.specs.SmallTexts.{TellsSmallLog};
ghost use Rattle.command_verdicts.specs.Modelled.{PrintsModelsOfReport, is_report_text};
ghost use Rattle.command_verdicts.specs.SmallLogs.{PrintsUnbroken, text_unless};

use crate::model::{AskedModels, Modelled, is_report, report_models_text};
use crate::smallest::tell_left;
use lexer::LineFault;
use model_answer::{
    AskedModel, NoAnswer, Options, SmallLogText, model_answer, smallest_answer, weakest_told,
};
use program_fault::ProgramFault;
use report_lines::Out;
use report_lines::output::put_all;
use state_search::Ending;
use state_search::parts::kept_count;
use std::alloc::{Allocator, Global};
use torus::Fault;

/// The text of an answer where no model is broken, else none.
fn text_unless(broken: Option<AskedModel>, text: &[u8]) -> &[u8]
    ensures { result.now ≡ text_unless broken text.now }
{
    match broken {
        None => text,
        Some(_) => b"",
    }
}

/// Judges the log of a text by memory models as `model_text` does, and prints the answer only where it tells
/// a no of none.
///
/// Errors: those of `model_text`.
fn unbroken_log<A: Allocator + Copy, W: Out>(
    alloc: A,
    log: &[u8],
    options: Options,
    out: &mut W,
) -> Result<Modelled, ProgramFault>
    ensures { PrintsUnbroken A (lines log.now) options
        (output (W.taken out.old) (W.failures out.old))
        (output (W.taken out.new) (W.failures out.new)) result }
{
    match model_answer(alloc, log, options) {
        Ok(answer) => {
            let broken = weakest_told(answer.obeys, answer.weak);
            put_all(out, text_unless(broken, &answer.text))?;
            Ok(Modelled::Obeys(answer.obeys, answer.weak))
        }
        Err(NoAnswer::Refused(refusal)) => Err(ProgramFault::from(LineFault::from(refusal))),
        Err(NoAnswer::Wrong(wrong)) => Ok(Modelled::Wrong(wrong)),
        Err(NoAnswer::Memory) => Err(ProgramFault::Fault(Fault::Memory)),
    }
}

/// Judges a text by memory models as `judged_models_text` does, without an order, and prints the answer on a
/// log only where it tells a no of none. Of a report no part is a log, so the answer on it is printed.
///
/// Errors: those of `judged_models_text`.
pub fn unbroken_models_text<A: Allocator + Copy, W: Out>(
    alloc: A,
    text: &[u8],
    rvwmo: bool,
    out: &mut W,
) -> Result<Modelled, ProgramFault>
    ensures report { is_report_text text.now ≡ true
        → PrintsModelsOfReport A text.now (record { order = false; rvwmo = rvwmo })
        (output (W.taken out.old) (W.failures out.old))
        (output (W.taken out.new) (W.failures out.new)) result }
    ensures log { is_report_text text.now ≡ false → PrintsUnbroken A (lines text.now)
        (record { order = false; fences = true; rvwmo = rvwmo })
        (output (W.taken out.old) (W.failures out.old))
        (output (W.taken out.new) (W.failures out.new)) result }
{
    let order = false;
    if is_report(text) {
        return report_models_text(alloc, text, AskedModels { order, rvwmo }, out);
    }
    let fences = true;
    let options = Options {
        order,
        fences,
        rvwmo,
    };
    unbroken_log(alloc, text, options, out)
}

/// A small part of the log of a text that no order of a model explains, with the part's own text; `None` where
/// an order explains all operations of processors.
///
/// Errors: the first fault of the text, or out of memory.
pub fn small_log_of<A: Allocator + Copy>(
    alloc: A,
    log: &[u8],
    model: AskedModel,
) -> Result<Option<SmallLogText<A>>, ProgramFault>
    ensures { IfOk result (TellsSmallLog (lines log.now) model) }
{
    match smallest_answer(alloc, log, model) {
        Ok(found) => Ok(found),
        Err(NoAnswer::Refused(refusal)) => Err(ProgramFault::from(LineFault::from(refusal))),
        Err(NoAnswer::Wrong(_)) => Err(ProgramFault::Fault(Fault::Memory)),
        Err(NoAnswer::Memory) => Err(ProgramFault::Fault(Fault::Memory)),
    }
}

/// Why a part of a log is no smaller.
fn log_ending_text(ending: Ending) -> &'static str {
    match ending {
        Ending::Minimal => {
            "without any single one the model allows the rest, or a load lacks what it read"
        }
        Ending::Spent => "no more parts are judged",
    }
}

/// Says how small a part of a log is, and the answer on it: the models that its own text obeys, and a cycle.
pub fn tell_small_log<R: Eprint + AllocGlobal>(
    rt: &R,
    small: &SmallLogText<Global>,
    model: AskedModel,
) {
    let part = &small.part;
    tell_left(
        rt,
        kept_count(&part.kept),
        part.judged,
        log_ending_text(part.ending),
    );
    let options = Options {
        order: false,
        fences: true,
        rvwmo: matches!(model, AskedModel::Rvwmo),
    };
    if let Ok(answer) = model_answer(rt.alloc(), &small.text, options)
        && let Ok(text) = std::str::from_utf8(&answer.text)
    {
        let _ = eprint!(rt; "{text}");
    }
}
