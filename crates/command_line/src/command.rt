ghost use Rattle.std.specs.Prelude.{◌≡◌, ◌⊎◌, [], IfErr, IfOk, IfSome, None, Some, map, codes};
ghost use Rattle.clap.specs.Words.{HasKind, HasMatchesOf, fault_of, found_of, rows_of};
ghost use Rattle.clap.specs.Words.{subcommand_name_of, subcommand_rows_of};
ghost use Rattle.command_line.specs.CommandLine.{name_by, rows_by, torusmem_app};
ghost use Rattle.command_line.specs.Job.{AreOfJob, IsFlag, IsGiven, AreJobLimits, name_of};
ghost use Rattle.command_line.specs.Job.{rows_in};
ghost use Rattle.command_line.specs.Refused.{AnswersBy, TellsNoJob, TellsNoRequest};
ghost use Rattle.command_line.specs.Values.{IsNoCommand};

use crate::jobs::{
    Answer, channels_job, check_job, draw_job, linearize_job, live_job, model_job, network_job,
    outcomes_job, reach_job, round_job, route_job, run_job, schedule_job, simulate_job, steps_job,
    watch_job,
};
use crate::making::command;
use crate::pace::AskedPace;
use crate::refused::{NoJob, NoRequest};
use crate::values::{flag_of, is_given};
use clap::{ArgMatches, Error};
use std::alloc::Global;
use std::convert::AsStr;
use torus::Class;

/// What the command line asks for. Files are named as they were given.
#[derive(Clone, Copy)]
pub enum Job<'a> {
    /// Run the listed steps, and print the report.
    Steps {
        machine: &'a str,
        script: &'a str,
        steps: &'a str,
    },
    /// Run in rounds of this pace, at most so many, until every script is finished, and print the
    /// report.
    Round {
        machine: &'a str,
        script: &'a str,
        rounds: u32,
        pace: AskedPace,
    },
    /// Run by workers in threads, so many, each with at most so many turns, and print the report.
    Run {
        machine: &'a str,
        script: &'a str,
        workers: u32,
        turns: u32,
    },
    /// Hold a dialogue with a machine, over standard input and output.
    Live {
        machine: &'a str,
    },
    /// Print a route.
    Route {
        machine: &'a str,
        src: u32,
        dst: u32,
        class: Class,
    },
    /// Print the channels and their numbers.
    Channels {
        machine: &'a str,
    },
    /// Check a report.
    Check {
        report: &'a str,
    },
    /// Judge a network that is written down, and name channels as it does, where that is asked for.
    Network {
        network: &'a str,
        names: bool,
    },
    /// Print the run by which a network deadlocks whose channels hold so many flits.
    LockUp {
        network: &'a str,
        depth: u32,
    },
    /// Replay a run over a network whose channels hold so many flits.
    Replay {
        network: &'a str,
        run: &'a str,
        depth: u32,
    },
    /// Send the packets of a traffic text through a network whose channels hold so many flits, and
    /// whose outputs are granted by the arbiter of this name.
    Simulate {
        network: &'a str,
        traffic: &'a str,
        depth: u32,
        arbiter: &'a str,
    },
    /// Find the one order of a trace, with so many configurations of a word at once at most, and
    /// fewer where a number of seconds is given in which it is to be found, and print it.
    Linearize {
        trace: &'a str,
        configurations: u32,
        seconds: Option<u64>,
    },
    /// Find the one order of a trace, as `Linearize` does, and print its report.
    Report {
        trace: &'a str,
        configurations: u32,
        seconds: Option<u64>,
    },
    /// Find the one order of a trace, as `Linearize` does, and print it; where there is none, print a small part
    /// of the trace that has none.
    Smallest {
        trace: &'a str,
        configurations: u32,
        seconds: Option<u64>,
    },
    /// Judge a trace while it comes, line by line, with so many configurations of a word at once at
    /// most.
    Watch {
        trace: &'a str,
        configurations: u32,
    },
    /// Judge a log by memory models, of which this one decides the status; and print an order too.
    Model {
        log: &'a str,
        model: &'a str,
        order: bool,
    },
    /// Judge a report by memory models, of which this one decides the status, with the fences of the
    /// scripts that were run; and print an order too.
    RunModel {
        log: &'a str,
        model: &'a str,
        order: bool,
        machine: &'a str,
        script: &'a str,
    },
    /// Judge a log by memory models, of which this one decides the status, by its operations and their
    /// replies alone, with so many nodes a model at most; and print an order too.
    ValueModel {
        log: &'a str,
        model: &'a str,
        order: bool,
        nodes: u32,
    },
    /// Judge a log by memory models, of which this one decides the status; and where it breaks one, print a
    /// small part of it that breaks the weakest.
    SmallestModel {
        log: &'a str,
        model: &'a str,
    },
    /// Print the moves of rounds of this pace, at most so many, until every script is finished.
    Schedule {
        machine: &'a str,
        script: &'a str,
        rounds: u32,
        pace: AskedPace,
    },
    /// Print a schedule that is drawn by this seed, of at most so many moves where there is a
    /// number, until every script is finished.
    Draw {
        machine: &'a str,
        script: &'a str,
        seed: u64,
        steps: Option<u64>,
    },
    /// Print those of the listed steps that move.
    Moves {
        machine: &'a str,
        script: &'a str,
        steps: &'a str,
    },
    /// Find all outcomes in at most so many states, and print them, or a run to the one of a number.
    Outcomes {
        machine: &'a str,
        script: &'a str,
        states: u32,
        run: Option<u64>,
    },
    /// Print a run with these replies, found in at most so many states, or that there is none.
    Reach {
        machine: &'a str,
        script: &'a str,
        answer: &'a str,
        states: u32,
    },
}

/// What the command line asks for, whether more is to be said of what is wrong, and whether the answer is to
/// be a JSON object.
#[derive(Clone, Copy)]
pub struct Request<'a> {
    pub job: Job<'a>,
    pub explain: bool,
    pub json: bool,
}

/// Reads the words of a command line, the program's own name among them.
///
/// Errors: what the parser says of the words, help among it, or that memory ran out; or that options are
/// misused.
pub fn read_command<'a, S: AsStr>(alloc: Global, words: &'a [S]) -> Result<Job<'a>, NoRequest>
    ensures named { IfOk result (λ job. name_by (map S.text words.entry.now) ≡ Some (name_of job)) }
    ensures given { IfOk result (λ job. IfSome
        (rows_by (map S.text words.entry.now)) (AreOfJob job)) }
    ensures limits { IfOk result AreJobLimits }
    ensures refused { IfErr result (TellsNoRequest (map S.text words.entry.now)) }
{
    Ok(read_request(alloc, words)?.job)
}

/// Does what `read_command` does, and tells also whether the words have `--explain`, and `--json`.
///
/// Errors: as `read_command`.
pub fn read_request<'a, S: AsStr>(alloc: Global, words: &'a [S]) -> Result<Request<'a>, NoRequest>
    ensures named { IfOk result
        (λ r. name_by (map S.text words.entry.now) ≡ Some (name_of r.job)) }
    ensures given { IfOk result
        (λ r. IfSome (rows_by (map S.text words.entry.now)) (AreOfJob r.job)) }
    ensures explain { IfOk result
        (λ r. IfSome (rows_by (map S.text words.entry.now)) (IsFlag (codes "explain") r.explain)) }
    ensures json { IfOk result
        (λ r. IfSome (rows_by (map S.text words.entry.now)) (IsGiven (codes "json") r.json)) }
    ensures limits { IfOk result (λ r. AreJobLimits r.job) }
    ensures refused { IfErr result (TellsNoRequest (map S.text words.entry.now)) }
{
    match parsed(alloc, words) {
        Ok(matches) => match request_of(&matches) {
            Ok(request) => Ok(request),
            Err(why) => Err(NoRequest::Values(why)),
        },
        Err(error) => Err(NoRequest::Parser(error)),
    }
}

/// What the parser makes of the words.
///
/// Errors: what it says of them, or that memory ran out.
fn parsed<'a, S: AsStr>(alloc: Global, words: &'a [S]) -> Result<ArgMatches<'a>, Error>
    ensures matches { IfOk result (HasMatchesOf torusmem_app (map S.text words.entry.now)) }
    ensures fits { IfOk result (λ _. fault_of torusmem_app (map S.text words.entry.now) ≡ []) }
    ensures parser { IfErr result
        (HasKind (fault_of torusmem_app (map S.text words.entry.now))) }
{
    let mut command = command(alloc)?;
    command.try_get_matches_from_mut(words)
}

/// The job that the matches name, and whether they have `--explain`, and `--json`.
///
/// Errors: options are misused, or a value is missing.
fn request_of<'a>(matches: &ArgMatches<'a>) -> Result<Request<'a>, NoJob>
    ensures named { IfOk result (λ r. subcommand_name_of matches.now ≡ Some (name_of r.job)) }
    ensures given { IfOk result
        (λ r. IfSome (rows_in (subcommand_rows_of matches.now)) (AreOfJob r.job)) }
    ensures explain { IfOk result (λ r. IfSome (rows_in (subcommand_rows_of matches.now))
        (IsFlag (codes "explain") r.explain)) }
    ensures json { IfOk result
        (λ r. IfSome (rows_in (subcommand_rows_of matches.now)) (IsGiven (codes "json") r.json)) }
    ensures limits { IfOk result (λ r. AreJobLimits r.job) }
    ensures refused { IfErr result (TellsNoJob (subcommand_name_of matches.now)
        (rows_in (subcommand_rows_of matches.now))) }
{
    let Some((name, given)) = matches.subcommand() else {
        return Err(NoJob::Missing);
    };
    let Some(answer) = job_by(name, given) else {
        return Err(NoJob::Missing);
    };
    let Some(explain) = flag_of(given, "explain") else {
        return Err(NoJob::Missing);
    };
    let json = is_given(given, "json");
    match answer {
        Ok(job) => Ok(Request { job, explain, json }),
        Err(misuse) => Err(NoJob::Options(misuse)),
    }
}

/// What the subcommand of this name answers, from what was given for its arguments; `None` where a
/// value is missing, or there is no such subcommand.
fn job_by<'a>(name: &str, given: &ArgMatches<'a>) -> Answer<'a>
    ensures { AnswersBy name.now (rows_of (found_of given.now)) result
        ⊎ ((result ≡ None) × IsNoCommand name.now) }
{
    match name {
        "steps" => steps_job(given),
        "round" => round_job(given),
        "run" => run_job(given),
        "live" => live_job(given),
        "schedule" => schedule_job(given),
        "draw" => draw_job(given),
        "outcomes" => outcomes_job(given),
        "reach" => reach_job(given),
        "route" => route_job(given),
        "channels" => channels_job(given),
        "check" => check_job(given),
        "network" => network_job(given),
        "simulate" => simulate_job(given),
        "linearize" => linearize_job(given),
        "watch" => watch_job(given),
        "model" => model_job(given),
        _ => None,
    }
}
