//! The small part of a trace without an order, or of a log that breaks a model, that is printed where it is
//! asked for.

use crate::answering::Outcome;
use command_jobs::{all_printed, fault_told};
use command_line::Job;
use command_verdicts::{Judged, Modelled, shrunk_of, small_log_of, tell_small_log, tell_smallest};
use model_answer::{AskedModel, weakest_told};
use program_fault::{ProgramFault, Texts};
use std::alloc::Global;
use trace_answer::ShrunkTrace;

/// Why nothing is shrunk, if there is nothing to shrink.
fn unshrunk_text(judged: Judged) -> Option<&'static str> {
    match judged {
        Judged::NotLinearizable { .. } | Judged::NotLinearizableBy { .. } => None,
        Judged::TooMany { .. } | Judged::TooOpen { .. } => {
            Some("nothing is shrunk: the trace isn't decided")
        }
        _ => Some("nothing is shrunk: an order explains the trace"),
    }
}

/// The line of a trace up to which it has no order.
fn bad_line(judged: Judged) -> Option<u64> {
    match judged {
        Judged::NotLinearizable { line } | Judged::NotLinearizableBy { line, .. } => Some(line),
        _ => None,
    }
}

/// Prints a small part of a trace, and says why it has no order; or that there is none.
///
/// Errors: the output failed, or out of memory.
fn shrunk_printed<R: Print + Eprint + AllocGlobal>(
    rt: &R,
    shrunk: &Option<ShrunkTrace<Global>>,
    configurations: u32,
) -> Result<(), ProgramFault> {
    match shrunk {
        Some(part) => {
            all_printed(rt, &part.text)?;
            tell_smallest(rt, part, configurations);
        }
        None => {
            let _ = eprintln!(rt; "nothing is shrunk: the trace isn't decided");
        }
    }
    Ok(())
}

/// Finds a small part of a trace, prints it, and says why it has no order.
///
/// Errors: the output failed, or out of memory.
fn smallest_printed<R: Print + Eprint + AllocGlobal>(
    rt: &R,
    trace: &[u8],
    line: u64,
    configurations: u32,
) -> Result<(), ProgramFault> {
    let shrunk = shrunk_of(rt.alloc(), trace, line, u64::from(configurations))?;
    shrunk_printed(rt, &shrunk, configurations)
}

/// The weakest model of which a no is told of a log, or why nothing is shrunk.
fn broken_model(modelled: Modelled) -> Result<AskedModel, &'static str> {
    match modelled {
        Modelled::Obeys(obeys, weak) => match weakest_told(obeys, weak) {
            Some(model) => Ok(model),
            None => Err("nothing is shrunk: no model is broken"),
        },
        Modelled::WithoutFences(..) => Err("nothing is shrunk: the text is a report"),
        _ => Err("nothing is shrunk: a reply is wrong, so no model is asked"),
    }
}

/// Prints a small part of a log that breaks a model, and says why.
///
/// Errors: the output failed, or out of memory.
fn small_log_printed<R: Print + Eprint + AllocGlobal>(
    rt: &R,
    log: &[u8],
    model: AskedModel,
) -> Result<(), ProgramFault> {
    let Some(small) = small_log_of(rt.alloc(), log, model)? else {
        let _ = eprintln!(rt; "nothing is shrunk: without final words the model is obeyed");
        return Ok(());
    };
    all_printed(rt, &small.text)?;
    tell_small_log(rt, &small, model);
    Ok(())
}

/// Prints a small part of a log that breaks a model, if it breaks one, and answers the exit status: the one
/// that is given, or that of a fault.
fn small_log_told<R: Print + Eprint + AllocGlobal>(
    rt: &R,
    log: &[u8],
    modelled: Modelled,
    status: u8,
) -> u8 {
    let model = match broken_model(modelled) {
        Ok(model) => model,
        Err(text) => {
            let _ = eprintln!(rt; "{text}");
            return status;
        }
    };
    match small_log_printed(rt, log, model) {
        Ok(()) => status,
        Err(fault) => fault_told(rt, &fault),
    }
}

/// Prints a small part of a trace that has no order, or of a log that breaks a model, where the job asks for it,
/// and answers the exit status: the one that is given, or that of a fault.
pub(crate) fn smallest_told<R: Print + Eprint + AllocGlobal>(
    rt: &R,
    job: &Job,
    texts: &Texts,
    outcome: &Outcome,
    status: u8,
) -> u8 {
    if let (Job::SmallestModel { .. }, Outcome::Modelled(modelled, _)) = (*job, *outcome) {
        return small_log_told(rt, &texts.first, modelled, status);
    }
    let (Job::Smallest { .. }, Outcome::Judged(judged, bounds)) = (*job, *outcome) else {
        return status;
    };
    if let Some(text) = unshrunk_text(judged) {
        let _ = eprintln!(rt; "{text}");
    }
    let Some(line) = bad_line(judged) else {
        return status;
    };
    match smallest_printed(rt, &texts.first, line, bounds.reached) {
        Ok(()) => status,
        Err(fault) => fault_told(rt, &fault),
    }
}
