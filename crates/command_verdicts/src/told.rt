//! What is said of a trace or log that is judged: a line of text, and the status that the program
//! ends with.

ghost use Rattle.std.specs.Prelude.{◌≡◌, option_map};
ghost use Rattle.command_verdicts.specs.Told.{judged_status, tried_text, unfit_text};
ghost use Rattle.command_verdicts.specs.Told.{verdict_text_of};
ghost use Rattle.command_verdicts.specs.Told.{is_obeyed, modelled_status, told_status, status_by};
ghost use Rattle.command_verdicts.specs.Told.{judged_verdict, modelled_verdict};

use crate::{Judged, Modelled, Verdict, verdict_of_status};
use model_answer::{AskedModel, MemoryModel, Obeys, WeakAnswer, is_rvwmo_told, is_told};
use program_fault::{ProgramFault, status_of};
use trace_answer::{LineText, Unfit, not_linearizable, not_linearizable_by, undecided};
use trace_text::Unfound;

/// Why an order has no report. It has no line feed. `None` where memory was refused.
fn unfit_text(why: Unfit) -> Option<LineText>
    ensures { option_map (λ t. t.bytes) result ≡ unfit_text why }
{
    let mut text = LineText::new();
    match why {
        Unfit::Memory => return None,
        Unfit::Words => text.push_str("no report: more than 65536 words"),
        Unfit::Processors => text.push_str("no report: a processor above 63"),
        Unfit::Indexes => {
            text.push_str("no report: a processor with more than 4096 operations");
        }
        Unfit::Operations => text.push_str("no report: more than 65536 operations"),
        Unfit::Events => text.push_str("no report: more than 196608 events"),
    }
    Some(text)
}

/// What is said where nothing was printed, with at most so many configurations of a word at once:
/// the line from which on there is no order, at the latest where that is all that is decided, or at which the trace isn't decided and why; or why
/// the order has no report. It has no line feed. `None` where an order or its report was printed.
pub fn verdict_text(judged: Judged, configurations: u64) -> Option<LineText>
    ensures { option_map (λ t. t.bytes) result ≡ verdict_text_of judged configurations }
{
    match judged {
        Judged::Linearizable => None,
        Judged::NotLinearizable { line } => Some(not_linearizable(line)),
        Judged::NotLinearizableBy { line, why } => not_linearizable_by(line, why, configurations),
        Judged::TooMany { line } => undecided(Unfound::Configurations { line }, configurations),
        Judged::TooOpen { line } => undecided(Unfound::Operations { line }, configurations),
        Judged::NoReport { why } => unfit_text(why),
    }
}

/// What was tried where a trace isn't decided with at most so many configurations of a word at once, behind the words that
/// say so; nothing where that was one search alone.
pub fn tried_text(configurations: u64) -> &'static str
    ensures { result.now ≡ tried_text configurations }
{
    if configurations < 1024 {
        ""
    } else {
        "; zones, a guess, a search depth first and all configurations were tried"
    }
}

/// The status that the program ends with: 0 where an order was printed, 1 where there is none or
/// the text has a fault or memory was refused, 4 where the output failed, 5 where the trace isn't
/// decided.
pub fn status(answer: &Result<Judged, ProgramFault>) -> u8
    ensures { result ≡ judged_status answer.now }
{
    match answer {
        Ok(Judged::Linearizable) => 0,
        Ok(Judged::NotLinearizable { .. }) => 1,
        Ok(Judged::NotLinearizableBy { .. }) => 1,
        Ok(Judged::TooMany { .. }) => 5,
        Ok(Judged::TooOpen { .. }) => 5,
        Ok(Judged::NoReport { .. }) => 1,
        Err(fault) => status_of(&Err(*fault)),
    }
}

/// Whether a model is among those that a log obeys.
fn is_obeyed(obeys: Obeys, model: MemoryModel) -> bool
    ensures { result ≡ is_obeyed obeys model }
{
    match model {
        MemoryModel::Coherent => obeys.coherent,
        MemoryModel::Fenced => obeys.fenced,
        MemoryModel::Pso => obeys.pso,
        MemoryModel::Tso => obeys.tso,
        MemoryModel::Sc => obeys.sc,
    }
}

/// The status by a model: 0 where a log obeys it, 1 where it doesn't, 5 where neither is told.
fn told_status(told: bool, obeyed: bool) -> u8
    ensures { result ≡ told_status told obeyed }
{
    if told { u8::from(!obeyed) } else { 5 }
}

/// The status by a model of a log that says where its fences stand, or doesn't. RISC-V's has none where it
/// wasn't asked.
fn status_by(fences: bool, obeys: Obeys, weak: WeakAnswer, model: AskedModel) -> u8
    ensures { result ≡ status_by fences obeys weak model }
{
    match model {
        AskedModel::Rules(model) => {
            told_status(is_told(weak.doubts, obeys, model), is_obeyed(obeys, model))
        }
        AskedModel::Rvwmo => match weak.obeyed {
            None => 5,
            Some(obeyed) => told_status(is_rvwmo_told(fences, obeys, obeyed), obeyed),
        },
    }
}

/// The status that the program ends with where a log or a report was judged: 0 where it obeys the
/// model, 1 where it doesn't or a reply is wrong, 5 where neither is told: a report has no fences, and
/// a log may have annotations that the model doesn't know.
pub fn model_status(modelled: Modelled, model: AskedModel) -> u8
    ensures { result ≡ modelled_status modelled model }
{
    match modelled {
        Modelled::Obeys(obeys, weak) => status_by(true, obeys, weak, model),
        Modelled::WithoutFences(obeys, weak) => status_by(false, obeys, weak, model),
        Modelled::Wrong(_) => 1,
        Modelled::OtherShape { .. } => 1,
        Modelled::OtherOperation { .. } => 1,
    }
}

/// What a trace is judged to be in one word. Where it has an order and the report of that passes a
/// limit, that is a fault.
pub fn judged_verdict(judged: Judged) -> Verdict
    ensures { result ≡ judged_verdict judged }
{
    match judged {
        Judged::Linearizable => Verdict::Yes,
        Judged::NotLinearizable { .. } => Verdict::No,
        Judged::NotLinearizableBy { .. } => Verdict::No,
        Judged::TooMany { .. } => Verdict::Undecided,
        Judged::TooOpen { .. } => Verdict::Undecided,
        Judged::NoReport { .. } => Verdict::Fault,
    }
}

/// What a log or a report is judged to be by a model in one word. Where a report isn't of its
/// texts, that is a fault.
pub fn model_verdict(modelled: Modelled, model: AskedModel) -> Verdict
    ensures { result ≡ modelled_verdict modelled model }
{
    match modelled {
        Modelled::OtherShape { .. } => Verdict::Fault,
        Modelled::OtherOperation { .. } => Verdict::Fault,
        _ => verdict_of_status(model_status(modelled, model)),
    }
}
