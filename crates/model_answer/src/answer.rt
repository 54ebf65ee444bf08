//! Which memory models a log obeys.

ghost use Rattle.std.specs.Prelude.{◌+◌, IfOk, IfErr};
ghost use Rattle.std.specs.Str.Lines.{lines};
ghost use Rattle.memory_models.specs.Trace.{IsMemoryTrace};
ghost use Rattle.model_answer.specs.Answer.{IsAnswerOn, IsNoAnswerOn, IsAnswerTo, IsNoAnswerTo};
ghost use Rattle.model_answer.specs.Answer.{IsAnswer, IsAnswerText};
ghost use Rattle.model_text.specs.Views.{log_so_far};
ghost use Rattle.model_answer.specs.Judged.{AreVerdicts};

use crate::choosing::{put_asked, put_failing};
use crate::judged::{Obeys, Verdicts, verdicts_of};
use crate::text::put_obeys;
use crate::weak::{Weak, WeakAnswer, weak_of};
use lexer::Refusal;
use model_text::{Log, LogReason, LogTrace, WrongReply, read_log, replies_of, trace_of_log};
use std::alloc::{AllocError, Allocator, Global};

/// What is asked beside the verdicts.
#[derive(Clone, Copy, Debug, PartialEq, Eq)]
pub struct Options {
    /// An order of the strongest model that the log obeys.
    pub order: bool,
    /// Whether the log says where fences stand. If not, the line of a model has neither yes nor no where a
    /// fence may forbid what the log shows, and no order by its rules is printed.
    pub fences: bool,
    /// RISC-V's model, also where the log has no annotations.
    pub rvwmo: bool,
}

/// Which models a log obeys, and what is printed of it.
#[derive(Drop)]
pub struct Answer<A: Allocator = Global> {
    /// Which models the log obeys.
    pub obeys: Obeys,
    /// Whether it obeys RISC-V's, where that is asked, and what the others leave out of the log.
    pub weak: WeakAnswer,
    /// The lines that are printed.
    pub text: Vec<u8, A>,
}

/// Why there is no answer.
#[derive(Clone, Copy)]
pub enum NoAnswer {
    /// The text is no log.
    Refused(Refusal<LogReason>),
    /// A reply isn't what its operation does to the word that it found.
    Wrong(WrongReply),
    /// A request for memory was refused.
    Memory,
}

/// What is printed of the verdicts on a trace.
///
/// Errors: out of memory.
fn text_of<A: Allocator + Copy>(
    alloc: A,
    trace: &LogTrace<A>,
    verdicts: &Verdicts<A>,
    weak: &Weak<A>,
    options: Options,
) -> Result<Vec<u8, A>, AllocError>
    requires trace { IsMemoryTrace (trace.now.openings + 1) trace.now.operations.items
        trace.now.writes.items }
    requires verdicts { AreVerdicts trace.now.operations.items trace.now.writes.items
        verdicts.now }
    ensures { IfOk result (λ text.
        IsAnswerText trace.now verdicts.now weak.now options text.items) }
{
    let mut text = Vec::new(alloc);
    put_obeys(&mut text, options.fences, verdicts.obeys(), weak.answer())?;
    put_failing(alloc, &mut text, trace, verdicts, weak)?;
    put_asked(
        alloc,
        &mut text,
        trace,
        verdicts,
        weak,
        options.fences,
        options.order,
    )?;
    Ok(text)
}

/// The answer on the trace of a log.
///
/// Errors: out of memory.
fn answer_on<A: Allocator + Copy>(
    alloc: A,
    log: &Log<A>,
    trace: &LogTrace<A>,
    options: Options,
) -> Result<Answer<A>, AllocError>
    requires { IsMemoryTrace (trace.now.openings + 1) trace.now.operations.items
        trace.now.writes.items }
    ensures { IfOk result (IsAnswer (log_so_far log.now) trace.now options) }
{
    let verdicts = verdicts_of(alloc, trace)?;
    let weak = weak_of(alloc, log, trace, options)?;
    let text = text_of(alloc, trace, &verdicts, &weak, options)?;
    Ok(Answer {
        obeys: verdicts.obeys(),
        weak: weak.answer(),
        text,
    })
}

/// Which memory models a log obeys, weakest first; a short cycle of the weakest that it breaks; and, if
/// that is asked, an order of the strongest that it obeys.
///
/// Errors: a reply that isn't what its operation does to its word, or out of memory.
pub fn answer_to_log<A: Allocator + Copy>(
    alloc: A,
    log: &Log<A>,
    options: Options,
) -> Result<Answer<A>, NoAnswer>
    ensures answer { IfOk result (IsAnswerOn (log_so_far log.now) options) }
    ensures none { IfErr result (IsNoAnswerOn (log_so_far log.now)) }
{
    let Ok(trace) = trace_of_log(alloc, log) else {
        return Err(NoAnswer::Memory);
    };
    match replies_of(alloc, &trace) {
        Ok(None) => {}
        Ok(Some(wrong)) => return Err(NoAnswer::Wrong(wrong)),
        Err(_) => return Err(NoAnswer::Memory),
    }
    match answer_on(alloc, log, &trace, options) {
        Ok(answer) => Ok(answer),
        Err(_) => Err(NoAnswer::Memory),
    }
}

/// Which memory models the log that a text is obeys, as `answer_to_log` says it.
///
/// Errors: where and why the text is no log, a reply that isn't what its operation does to its word,
/// or out of memory.
pub fn model_answer<A: Allocator + Copy>(
    alloc: A,
    log: &[u8],
    options: Options,
) -> Result<Answer<A>, NoAnswer>
    ensures answer { IfOk result (IsAnswerTo (lines log.now) options) }
    ensures none { IfErr result (IsNoAnswerTo (lines log.now)) }
{
    let log = match read_log(alloc, log) {
        Ok(log) => log,
        Err(refusal) => return Err(NoAnswer::Refused(refusal)),
    };
    match answer_to_log(alloc, &log, options) {
        Ok(answer) => Ok(answer),
        Err(why) => Err(why),
    }
}
