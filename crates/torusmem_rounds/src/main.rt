//! The commands of torusmem that run scripts in rounds or by steps, and print reports, routes and
//! channels. The program `torusmem` has all commands; this one stands on fewer crates.
#![tactic(auto)]

use command_jobs::{commands_told, done, version_told};
use command_line::{asks_commands, asks_version, request_told, words_told};
use std::io::{Input, IsTerminal};
use std::process::ExitCode;
use std::rt::{Clock, Env, Files};

fn main(rt: HostRuntime) -> ExitCode {
    let is_seen = rt.stderr().is_terminal();
    ExitCode::from(run(&rt, is_seen))
}

/// Does what the command line asks for, and answers the exit status. Where standard error
/// `is_seen`, a long run says there how far it is.
fn run<R: Env + Files + Input + Print + Eprint + Clock + AllocGlobal>(rt: &R, is_seen: bool) -> u8 {
    let Some(words) = words_told(rt) else {
        return 2;
    };
    if asks_version(words.as_slice()) {
        return version_told(rt);
    }
    if asks_commands(words.as_slice()) {
        return commands_told(rt);
    }
    let Ok(request) = request_told(rt, words.as_slice()) else {
        return 2;
    };
    match done(rt, &request, is_seen) {
        Some(status) => status,
        None => {
            let _ = eprintln!(rt; "torusmem_rounds doesn't do this; the program torusmem does");
            2
        }
    }
}
