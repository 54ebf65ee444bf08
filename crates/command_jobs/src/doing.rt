//! The jobs whose work stands in `commands`, from their texts to the exit status.
ghost use Rattle.std.specs.Prelude.{◌≡◌, ◌↔◌, None, true, false};
ghost use Rattle.command_jobs.specs.Jobs.{is_of_commands};

use crate::answering::{answer, is_of_commands};
use crate::hints::report_hint;
use crate::naming::{kind, names};
use crate::printing::{fault_told, flushed, tell_end_of, writer};
use crate::reading::texts_of;
use crate::run_end::RunEnd;
use command_line::{Job, Request};
use program_fault::{ProgramFault, Texts, explain, status_of};
use report_lines::Piped;
use std::io::Input;
use std::rt::{Clock, Files};

/// Does the job that is asked for, if its work stands in `commands`, and answers the exit status;
/// `None` where it is another, of which nothing is done. Results go to standard output, and a fault
/// goes to standard error, with a line that explains it where that is asked for or standard error
/// `is_seen`.
pub fn done<R: Files + Input + Print + Eprint + Clock + AllocGlobal>(
    rt: &R,
    request: &Request,
    is_seen: bool,
) -> Option<u8>
    ensures others { (result ≡ None) ↔ (is_of_commands request.now.job ≡ false) }
{
    if !is_of_commands(&request.job) {
        return None;
    }
    let texts = match texts_of(rt, request, is_seen) {
        Ok(texts) => texts,
        Err(status) => return Some(status),
    };
    match printed(rt, request, &texts, is_seen) {
        Ok(finished) => Some(status_of(&Ok(finished))),
        Err(fault) => {
            let status = fault_told(rt, &fault);
            if request.explain || is_seen {
                explain(rt, kind(&request.job), &names(&request.job), &texts, &fault);
                tell_hint(rt, &request.job, &texts, &fault);
            }
            Some(status)
        }
    }
}

/// Says what all of a bad report has that none may have, where it has it.
fn tell_hint<R: Eprint>(rt: &R, job: &Job, texts: &Texts, fault: &ProgramFault) {
    if let (Job::Check { report }, ProgramFault::Bad(_)) = (*job, *fault)
        && let Some(hint) = report_hint(&texts.first)
    {
        let _ = eprintln!(rt; "{report}: {hint}");
    }
}

/// Whether every script is finished, once the output is written to its last byte. How a run ended
/// is printed behind its report, where that is asked for or standard error `is_seen`, and else what of it
/// nobody should miss.
fn printed<R: Print + Eprint + Clock + AllocGlobal>(
    rt: &R,
    request: &Request,
    texts: &Texts,
    is_seen: bool,
) -> Result<bool, ProgramFault>
    requires { is_of_commands request.now.job ≡ true }
{
    let is_told = request.explain || is_seen;
    let mut end = RunEnd::new(rt.alloc(), &texts.first, &texts.second);
    let mut writer = writer(rt)?;
    let mut out = Piped::new(&mut writer);
    let ended = answer(rt, &request.job, texts, is_seen, &mut out, &mut end)?;
    flushed(&mut writer)?;
    tell_end_of(rt, &request.job, &end, ended, is_told);
    Ok(ended.finished)
}
