//! How the texts of a job are read.

use crate::naming::names;
use crate::printing::fault_told;
use command_line::{Job, Request};
use program_fault::{Failure, ProgramFault, Texts, Unread, explain_unread, read_texts};
use std::io::Input;
use std::rt::Files;
use torus::Fault;

/// The texts of a job.
///
/// Errors: the first that can't be read, or that memory ran out.
pub fn texts_read<'a, R: Files + Input + AllocGlobal>(
    rt: &R,
    job: &Job<'a>,
) -> Result<Texts, Failure<'a>> {
    if is_input_taken(job) {
        return Err(Failure::Unread("-", Unread::Taken));
    }
    read_texts(rt, &names(job))
}

/// The texts of a job. Where one can't be read, standard error says so, and why where that is asked
/// for or it `is_seen`, and the exit status comes in place of the texts.
pub fn texts_of<R: Files + Input + Eprint + AllocGlobal>(
    rt: &R,
    request: &Request,
    is_seen: bool,
) -> Result<Texts, u8> {
    match texts_read(rt, &request.job) {
        Ok(texts) => Ok(texts),
        Err(Failure::Unread(name, why)) => {
            Err(unread_told(rt, name, why, request.explain || is_seen))
        }
        Err(Failure::Memory) => Err(fault_told(rt, &ProgramFault::Fault(Fault::Memory))),
    }
}

/// Says that a text can't be read, and why where that `is_explained`, and answers the exit status.
pub fn unread_told<R: Eprint>(rt: &R, name: &str, why: Unread, is_explained: bool) -> u8 {
    let _ = eprintln!(rt; "cannot read {name}");
    if is_explained {
        explain_unread(rt, name, why);
    }
    1
}

/// Whether standard input is the dialogue of a job, and so none of its texts.
fn is_input_taken(job: &Job) -> bool {
    matches!(*job, Job::Live { machine: "-" })
}
