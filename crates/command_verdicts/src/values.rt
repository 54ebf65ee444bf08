//! Judges a log by memory models by its replies alone, and prints which of them it obeys.

ghost use Rattle.std.specs.Prelude.{◌≡◌};
ghost use Rattle.std.specs.Str.Lines.{lines};
ghost use Rattle.program_fault.specs.Done.{output};
ghost use Rattle.command_verdicts.specs.Valued.{PrintsDecisions, decided_status};

use lexer::LineFault;
use model_answer::MemoryModel;
use model_replies::{Decision, Decisions, NoValueAnswer, ValueOptions, value_answer};
use model_text::Logged;
use program_fault::ProgramFault;
use report_lines::Out;
use report_lines::output::put_all;
use std::alloc::Allocator;
use torus::Fault;

/// What a log is judged to be by its replies alone.
#[derive(Clone, Copy)]
pub enum Decided {
    /// Whether it obeys each model; the answer is printed.
    Models(Decisions),
    /// This operation found what no write of its word left, so the log breaks every model, and nothing
    /// is printed.
    Unwritten(Logged),
    /// These two atomics found the same in one word, which only one write of it left, so the log breaks
    /// every model, and nothing is printed.
    Lost(Logged, Logged),
}

/// Judges the log of a text by five memory models, by its operations and their replies alone, and prints
/// a line for each, and, if asked for, an order of the strongest that it obeys. If no write left what
/// was found, or an update is lost, nothing is written.
///
/// Errors: the first fault of the text, or out of memory; and nothing was written then. If the output
/// fails, a beginning was written.
pub fn values_text<A: Allocator + Copy, W: Out>(
    alloc: A,
    log: &[u8],
    options: ValueOptions,
    out: &mut W,
) -> Result<Decided, ProgramFault>
    ensures { PrintsDecisions A (lines log.now) options
        (output (W.taken out.old) (W.failures out.old))
        (output (W.taken out.new) (W.failures out.new)) result }
{
    match value_answer(alloc, log, options) {
        Ok(answer) => {
            put_all(out, &answer.text)?;
            Ok(Decided::Models(answer.decisions))
        }
        Err(NoValueAnswer::Refused(refusal)) => Err(ProgramFault::from(LineFault::from(refusal))),
        Err(NoValueAnswer::Unwritten(step)) => Ok(Decided::Unwritten(step)),
        Err(NoValueAnswer::Lost(first, second)) => Ok(Decided::Lost(first, second)),
        Err(NoValueAnswer::Memory) => Err(ProgramFault::Fault(Fault::Memory)),
    }
}

/// The status that the program ends with: 0 where the log obeys the model, 1 where it doesn't, 5 where
/// that isn't decided or told.
pub fn decided_status(decided: Decided, model: MemoryModel) -> u8
    ensures { result ≡ decided_status decided model }
{
    match decided {
        Decided::Models(all) => match all.on(model) {
            Decision::Obeys => 0,
            Decision::Breaks => 1,
            Decision::Undecided => 5,
            Decision::NotTold => 5,
        },
        Decided::Unwritten(_) => 1,
        Decided::Lost(_, _) => 1,
    }
}
