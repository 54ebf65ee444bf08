//! The judging of a trace while it comes, from standard input or a file; and of a table, once it
//! has come.

use crate::as_json::{fault_said, object_told, unread_said};
use command_jobs::{all_printed, fault_told};
use command_verdicts::{
    Judged, begins_table, explain_no_order, explain_trace, judged_verdict, status, verdict_text,
    watch_table, watched_verdict,
};
use command_watch::{End, EndSentence, Ended, watch};
use program_fault::{ProgramFault, Unread, bytes_behind};
use std::fs::File;
use std::io::{BufReader, Input, Read};
use std::rt::Files;
use torus::Fault;

/// The trace of a name that is to be watched, with at most so many configurations of a word at
/// once. Standard error says why a watch ended before its end, and more of it where that
/// `is_explained`. Where `json` has the word of the command, the answer is an object on standard
/// output.
#[derive(Clone, Copy)]
pub(crate) struct Wanted<'a> {
    pub json: Option<&'a str>,
    pub name: &'a str,
    pub configurations: u32,
    pub is_explained: bool,
}

/// Judges a trace while it comes, or a table, and answers the exit status.
pub(crate) fn watched<R: Files + Input + Print + Eprint + AllocGlobal>(
    rt: &R,
    wanted: &Wanted,
) -> u8 {
    match wanted.name {
        "-" => over(rt, wanted, rt.reader()),
        _ => match File::open(rt, wanted.name) {
            Ok(file) => over(rt, wanted, file),
            Err(error) => unread(rt, wanted, Unread::from(error)),
        },
    }
}

/// Judges what a reader has, and answers the exit status.
fn over<R: Print + Eprint + AllocGlobal, I: Read + Drop>(rt: &R, wanted: &Wanted, reader: I) -> u8 {
    let Ok(mut input) = BufReader::new(rt.alloc(), reader) else {
        return out_of_memory(rt, wanted);
    };
    match watch(rt.alloc(), &mut input, wanted.configurations as usize) {
        Ok(ended) => {
            if is_table(&ended) {
                table_read(rt, wanted, ended.text, input)
            } else {
                end_told(rt, wanted, &ended)
            }
        }
        Err(_) => out_of_memory(rt, wanted),
    }
}

/// Says that a request for memory was refused, and answers the exit status.
fn out_of_memory<R: Print + Eprint + AllocGlobal>(rt: &R, wanted: &Wanted) -> u8 {
    fault_said(rt, wanted.json, &ProgramFault::Fault(Fault::Memory))
}

/// Says that the text can't be read, and answers the exit status.
fn unread<R: Print + Eprint + AllocGlobal>(rt: &R, wanted: &Wanted, why: Unread) -> u8 {
    unread_said(rt, wanted.json, wanted.name, why, wanted.is_explained)
}

/// Whether a watch ended at the first line of a table.
fn is_table(ended: &Ended) -> bool {
    ended.line == 1 && matches!(ended.end, End::Stopped(_)) && begins_table(&ended.text)
}

/// Reads a table behind its first line, judges it, and answers the exit status.
fn table_read<R: Print + Eprint + AllocGlobal, I: Read + Drop>(
    rt: &R,
    wanted: &Wanted,
    mut first: Vec<u8>,
    input: I,
) -> u8 {
    if first.push(b'\n').is_err() {
        return out_of_memory(rt, wanted);
    }
    match bytes_behind(first, input) {
        Ok(table) => table_judged(rt, wanted, &table),
        Err(why) => unread(rt, wanted, why),
    }
}

/// Judges a table, and answers the exit status.
fn table_judged<R: Print + Eprint + AllocGlobal>(rt: &R, wanted: &Wanted, table: &[u8]) -> u8 {
    let bound = u64::from(wanted.configurations);
    match watch_table(rt.alloc(), table, bound) {
        Ok(judged) => {
            let status = judged_told(rt, wanted, judged);
            if let Judged::NotLinearizable { line } = judged
                && wanted.is_explained
            {
                explain_no_order(rt, wanted.name, table, line, wanted.configurations);
            }
            status
        }
        Err(fault) => {
            let status = fault_said(rt, wanted.json, &fault);
            if wanted.is_explained {
                explain_trace(rt, wanted.name, table, &fault);
            }
            status
        }
    }
}

/// Says how a watch ended, and answers the exit status.
fn end_told<R: Print + Eprint + AllocGlobal>(rt: &R, wanted: &Wanted, ended: &Ended) -> u8 {
    if let End::Unread(why) = ended.end {
        return unread(rt, wanted, Unread::Refused(why));
    }
    let status = match watched_verdict(ended.end, ended.line) {
        Some(Ok(judged)) => judged_told(rt, wanted, judged),
        Some(Err(fault)) => fault_said(rt, wanted.json, &fault),
        None => 1,
    };
    if wanted.is_explained && status != 0 {
        let sentence = EndSentence {
            name: wanted.name,
            ended,
        };
        let _ = eprintln!(rt; "{sentence}");
    }
    status
}

/// Says what a trace is judged to be, and answers the exit status.
fn judged_told<R: Print + Eprint + AllocGlobal>(rt: &R, wanted: &Wanted, judged: Judged) -> u8 {
    let text = verdict_text(judged, u64::from(wanted.configurations));
    if let Some(command) = wanted.json {
        let line = match &text {
            Some(text) => text.as_str(),
            None => "linearizable",
        };
        let verdict = judged_verdict(judged);
        return object_told(rt, command, verdict, line.as_bytes(), status(&Ok(judged)));
    }
    match text {
        Some(text) => {
            let _ = eprintln!(rt; "{text}");
            status(&Ok(judged))
        }
        None => match all_printed(rt, b"linearizable\n") {
            Ok(()) => status(&Ok(judged)),
            Err(fault) => fault_told(rt, &fault),
        },
    }
}
