//! The judge of memory models by replies alone, as C sees it.

ghost use Rattle.std.specs.Prelude.{◌≡◌, ◌⊎◌};
ghost use Rattle.std.specs.Str.Lines.{lines};
ghost use Rattle.model_replies.specs.Judged.{is_broken};
ghost use Rattle.torusmem_c.specs.Values.{PutsValues, TellsNoValues, asked_values, broken_by};
ghost use Rattle.torusmem_c.specs.Values.{decided_record, no_values_record};
ghost use Rattle.torusmem_c.specs.Values.{reply_line, unvalued_record};

use crate::models::models_number;
use crate::outcome::{Code, Outcome, fault_outcome, no_memory};
use crate::room::put_code;
use lexer::LineFault;
use model_answer::Obeys;
use model_replies::{Decision, Decisions, NoValueAnswer, ValueOptions, value_answer};
use model_text::Logged;
use std::alloc::Global;

/// Which models a log obeys by its replies alone: the number of a code; the sums of the numbers of the
/// models that it obeys and of those that it breaks (a model is in neither where the search gave up, or
/// annotations or weaker fences leave it open); the length of the text, or the line at fault; and the
/// line of the other operation of a lost update.
#[repr(C)]
#[derive(Clone, Copy)]
pub struct ValuesRecord {
    pub code: u32,
    pub obeyed: u32,
    pub broken: u32,
    pub value: u64,
    pub other: u64,
}

/// Whether a model is broken for certain. It isn't where the search gave up, or where annotations or
/// weaker fences leave it open.
fn is_broken(decision: Decision) -> bool
    ensures { result ≡ is_broken decision }
{
    match decision {
        Decision::Obeys => false,
        Decision::Breaks => true,
        Decision::Undecided => false,
        Decision::NotTold => false,
    }
}

/// The models that are broken for certain.
fn broken_by(decisions: Decisions) -> Obeys
    ensures { result ≡ broken_by decisions }
{
    Obeys {
        coherent: is_broken(decisions.coherent),
        fenced: is_broken(decisions.fenced),
        pso: is_broken(decisions.pso),
        tso: is_broken(decisions.tso),
        sc: is_broken(decisions.sc),
    }
}

/// What C sees of an answer: what became of its text, and how long that is.
fn decided_record(code: Code, decisions: Decisions, length: u64) -> ValuesRecord
    ensures { result ≡ decided_record code decisions length }
{
    ValuesRecord {
        code: code.number(),
        obeyed: models_number(decisions.obeyed()),
        broken: models_number(broken_by(decisions)),
        value: length,
        other: 0,
    }
}

/// What C sees where no model is asked.
fn unvalued_record(outcome: Outcome, other: u64) -> ValuesRecord
    ensures { result ≡ unvalued_record outcome other }
{
    ValuesRecord {
        code: outcome.code,
        obeyed: 0,
        broken: 0,
        value: outcome.value,
        other,
    }
}

/// The line of an operation's reply, or that of the operation where it has none.
fn reply_line(step: Logged) -> u64
    ensures { result ≡ reply_line step }
{
    match step.told {
        None => step.line,
        Some(told) => told.line,
    }
}

/// What C sees of the reason why there is no answer.
fn no_values_record(why: NoValueAnswer) -> ValuesRecord
    ensures { result ≡ no_values_record why }
{
    match why {
        NoValueAnswer::Refused(refusal) => {
            unvalued_record(fault_outcome(LineFault::from(refusal)), 0)
        }
        NoValueAnswer::Unwritten(step) => {
            unvalued_record(Outcome::of(Code::Unwritten, reply_line(step)), 0)
        }
        NoValueAnswer::Lost(first, second) => {
            unvalued_record(Outcome::of(Code::LostUpdate, first.line), second.line)
        }
        NoValueAnswer::Memory => unvalued_record(no_memory(), 0),
    }
}

/// What is asked: at most so many nodes for each model, and an order too, unless the number is 0.
fn asked_values(nodes: u64, order: u32) -> ValueOptions
    ensures { result ≡ asked_values nodes order }
{
    ValueOptions {
        nodes: nodes as usize,
        order: order != 0,
    }
}

/// Judges the log of a text by five memory models, by its operations and their replies alone, with at
/// most so many nodes for each, and puts the text of the answer into a buffer: a line for each model, and,
/// unless `order` is 0, an order of the strongest that it obeys.
///
/// Errors: the text's first fault, a reply that no write left, a lost update, or out of
/// memory. The buffer is as it was then.
#[unsafe(no_mangle)]
pub extern "C" fn torusmem_model_values(
    alloc: Global,
    log: &[u8],
    nodes: u64,
    order: u32,
    out: &mut [u8],
) -> ValuesRecord
    ensures { PutsValues Global (lines log.now) (asked_values nodes order) out.old out.new result
        ⊎ TellsNoValues (lines log.now) out.old out.new result }
{
    match value_answer(alloc, log, asked_values(nodes, order)) {
        Ok(answer) => {
            let text = answer.text.as_slice();
            let code = put_code(Code::Done, text, out);
            decided_record(code, answer.decisions, text.len() as u64)
        }
        Err(why) => no_values_record(why),
    }
}
