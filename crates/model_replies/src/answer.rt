//! Which memory models a log obeys by its replies alone.

ghost use Rattle.std.specs.Prelude.{◌≡◌, IfErr, IfOk};
ghost use Rattle.std.specs.Str.Lines.{lines};
ghost use Rattle.model_answer.specs.Weak.{doubts_on};
ghost use Rattle.model_text.specs.Views.{log_so_far};
ghost use Rattle.model_replies.specs.Answers.{HasNoAnswerOn, HasNoAnswerTo};
ghost use Rattle.model_replies.specs.Answers.{HasVerdicts, IsValueAnswerOn, IsValueAnswerTo, no_answer_of};

use crate::decision::Decisions;
use crate::judging::{Unsaid, ValueVerdicts, verdicts_of_values};
use crate::printing::text_of;
use crate::reading::read_values;
use crate::steps::{ValuedLog, values_of_log};
use lexer::Refusal;
use model_answer::{Doubts, doubts_on};
use model_text::trace::logged_at;
use model_text::{Log, LogReason, Logged};
use model_values::{Valued, are_grouped};
use std::alloc::{Allocator, Global};

/// What is asked.
#[derive(Clone, Copy, Debug, PartialEq, Eq)]
pub struct ValueOptions {
    /// How many nodes are looked at for each model.
    pub nodes: usize,
    /// An order of the strongest model that the log obeys.
    pub order: bool,
}

/// Which models a log obeys, and what is printed of it.
#[derive(Drop)]
pub struct ValueAnswer<A: Allocator = Global> {
    /// Whether the log obeys each model.
    pub decisions: Decisions,
    /// The lines that are printed.
    pub text: Vec<u8, A>,
}

/// Why there is no answer.
#[derive(Clone, Copy)]
pub enum NoValueAnswer {
    /// The text is no log, or lacks a reply.
    Refused(Refusal<LogReason>),
    /// This operation found what no write of its word left. No order explains that, so the log breaks
    /// every model.
    Unwritten(Logged),
    /// These two atomics found the same in one word, which only one write of it left. No order explains
    /// that, so the log breaks every model.
    Lost(Logged, Logged),
    /// A request for memory was refused.
    Memory,
}

/// The answer that has these verdicts, as far as they are certain.
///
/// Errors: out of memory.
fn answer_of<A: Allocator + Copy>(
    alloc: A,
    values: &ValuedLog<A>,
    doubts: Doubts,
    verdicts: &ValueVerdicts<A>,
    options: ValueOptions,
) -> Result<ValueAnswer<A>, NoValueAnswer>
    ensures answer { IfOk result (HasVerdicts options values.now.openings values.now.steps.items
        doubts verdicts.now) }
    ensures none { IfErr result (λ why. why ≡ NoValueAnswer.Memory) }
{
    let ValueOptions { nodes, order } = options;
    match text_of(
        alloc,
        nodes,
        order,
        values.openings,
        &values.steps,
        doubts,
        verdicts,
    ) {
        Ok(text) => Ok(ValueAnswer {
            decisions: verdicts.decisions().told(doubts),
            text,
        }),
        Err(_) => Err(NoValueAnswer::Memory),
    }
}

/// Why there is no answer on a log with these steps.
fn no_answer(steps: &[Logged], why: Unsaid) -> NoValueAnswer
    ensures { result ≡ no_answer_of steps.now why }
{
    match why {
        Unsaid::Unwritten(x) => NoValueAnswer::Unwritten(logged_at(steps, x)),
        Unsaid::Lost(x, y) => NoValueAnswer::Lost(logged_at(steps, x), logged_at(steps, y)),
        Unsaid::Memory => NoValueAnswer::Memory,
    }
}

/// Which memory models a log obeys by its operations and their replies alone, weakest first; and, if that
/// is asked, an order of the strongest that it obeys.
///
/// Errors: a reply that no write left, a lost update, or out of memory.
pub fn answer_to_values<A: Allocator + Copy>(
    alloc: A,
    log: &Log<A>,
    options: ValueOptions,
) -> Result<ValueAnswer<A>, NoValueAnswer>
    ensures answer { IfOk result (IsValueAnswerOn (log_so_far log.now) options) }
    ensures none { IfErr result (HasNoAnswerOn (log_so_far log.now)) }
{
    let Ok(values) = values_of_log(alloc, log) else {
        return Err(NoValueAnswer::Memory);
    };
    let Some(words) = values.openings.checked_add(1) else {
        return Err(NoValueAnswer::Memory);
    };
    let valued = Valued {
        operations: &values.operations,
        left: &values.left,
        found: &values.found,
        words,
        openings: values.openings,
        closing: values.closing,
    };
    if !are_grouped(&valued) {
        return Err(NoValueAnswer::Memory);
    }
    let Ok(doubts) = doubts_on(alloc, log) else {
        return Err(NoValueAnswer::Memory);
    };
    match verdicts_of_values(alloc, &valued, options.nodes) {
        Ok(verdicts) => answer_of(alloc, &values, doubts, &verdicts, options),
        Err(why) => Err(no_answer(&values.steps, why)),
    }
}

/// Which memory models the log that a text is obeys by its operations and their replies alone, as
/// `answer_to_values` says it.
///
/// Errors: where and why the text is no log or lacks a reply, a reply that no write left, a lost update,
/// or out of memory.
pub fn value_answer<A: Allocator + Copy>(
    alloc: A,
    text: &[u8],
    options: ValueOptions,
) -> Result<ValueAnswer<A>, NoValueAnswer>
    ensures answer { IfOk result (IsValueAnswerTo (lines text.now) options) }
    ensures none { IfErr result (HasNoAnswerTo (lines text.now)) }
{
    let log = match read_values(alloc, text) {
        Ok(log) => log,
        Err(refusal) => return Err(NoValueAnswer::Refused(refusal)),
    };
    match answer_to_values(alloc, &log, options) {
        Ok(answer) => Ok(answer),
        Err(why) => Err(why),
    }
}
