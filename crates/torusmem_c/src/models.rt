//! The judge of memory models, as C sees it.

ghost use Rattle.std.specs.Prelude.{◌≡◌, ◌⊎◌};
ghost use Rattle.torusmem_c.specs.Models.{PutsModels, TellsNoModels, asked, models_number};
ghost use Rattle.torusmem_c.specs.Models.{models_record, no_models_record, unasked_record};
ghost use Rattle.torusmem_c.specs.Models.{wrong_record};

use crate::outcome::{Code, Outcome, fault_outcome, no_memory};
use crate::room::put_code;
use lexer::LineFault;
use model_answer::{NoAnswer, Obeys, Options};
use model_text::WrongReply;
use report_model::{LogRecord, answer_to_records};
use std::alloc::Global;

/// Which models a log obeys: the number of a code; the sum of the numbers of the models; the length of
/// the text, or the record at fault; and of a wrong reply the word that its operation found, and the
/// record that made the operation that left it.
#[repr(C)]
#[derive(Clone, Copy)]
pub struct ModelsRecord {
    pub code: u32,
    pub models: u32,
    pub value: u64,
    pub word: u64,
    pub writer: u64,
}

/// The sum of the numbers of some models, as those that are obeyed: 1, 2, 4, 8 and 16, weakest first.
pub(crate) fn models_number(obeys: Obeys) -> u32
    ensures { result ≡ models_number obeys }
{
    u32::from(obeys.coherent)
        + 2 * u32::from(obeys.fenced)
        + 4 * u32::from(obeys.pso)
        + 8 * u32::from(obeys.tso)
        + 16 * u32::from(obeys.sc)
}

/// What C sees of an answer: what became of its text, and how long that is.
fn models_record(code: Code, obeys: Obeys, length: u64) -> ModelsRecord
    ensures { result ≡ models_record code obeys length }
{
    ModelsRecord {
        code: code.number(),
        models: models_number(obeys),
        value: length,
        word: 0,
        writer: 0,
    }
}

/// What C sees where no model is asked.
fn unasked_record(outcome: Outcome) -> ModelsRecord
    ensures { result ≡ unasked_record outcome }
{
    ModelsRecord {
        code: outcome.code,
        models: 0,
        value: outcome.value,
        word: 0,
        writer: 0,
    }
}

/// What C sees of a reply that isn't due.
fn wrong_record(wrong: WrongReply) -> ModelsRecord
    ensures { result ≡ wrong_record wrong }
{
    ModelsRecord {
        code: Code::WrongReply.number(),
        models: 0,
        value: wrong.told.line,
        word: wrong.word,
        writer: wrong.line,
    }
}

/// What C sees of the reason why there is no answer.
fn no_models_record(why: NoAnswer) -> ModelsRecord
    ensures { result ≡ no_models_record why }
{
    match why {
        NoAnswer::Refused(refusal) => unasked_record(fault_outcome(LineFault::from(refusal))),
        NoAnswer::Wrong(wrong) => wrong_record(wrong),
        NoAnswer::Memory => unasked_record(no_memory()),
    }
}

/// What is asked: an order too, unless the number is 0.
fn asked(order: u32) -> Options
    ensures { result ≡ asked order }
{
    Options {
        order: order != 0,
        fences: true,
        rvwmo: false,
    }
}

/// Judges the log that records are, over a memory of so many words, by five memory models, and puts the
/// text of the answer into a buffer: a line for each model, the cycle of the weakest that it breaks, and,
/// unless `order` is 0, an order of the strongest that it obeys. A record's number, from 1, stands for its
/// line.
///
/// Errors: the first record that can't stand, a reply that isn't due, or out of memory. The buffer is as
/// it was then.
#[unsafe(no_mangle)]
pub extern "C" fn torusmem_model(
    alloc: Global,
    words: u64,
    records: &[LogRecord],
    order: u32,
    out: &mut [u8],
) -> ModelsRecord
    ensures { PutsModels Global words records.now (asked order) out.old out.new result
        ⊎ TellsNoModels words records.now out.old out.new result }
{
    match answer_to_records(alloc, words, records, asked(order)) {
        Ok(answer) => {
            let text = answer.text.as_slice();
            let code = put_code(Code::Done, text, out);
            models_record(code, answer.obeys, text.len() as u64)
        }
        Err(why) => no_models_record(why),
    }
}
