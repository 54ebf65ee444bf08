//! The job of each subcommand, from what was given for its arguments.
ghost use Rattle.std.specs.Prelude.{codes};
ghost use Rattle.clap.specs.Words.{found_of, rows_of};
ghost use Rattle.command_line.specs.Refused.{AnswersBy, AnswersPace};

use crate::command::Job;
use crate::pace::AskedPace;
use crate::refused::Misuse;
use crate::taken::{MOST_DEPTH, MOST_ROUNDS, MOST_STATES, MOST_TURNS, MOST_WORKERS};
use crate::values::{
    class, flag_of, is_given, long_number, long_number_if_given, number, number_if_given,
    two_words, word,
};
use clap::ArgMatches;

/// A job, or how the options of its command are misused; `None` where a value is missing.
pub(crate) type Answer<'a> = Option<Result<Job<'a>, Misuse>>;

/// The steps of `steps`, of which the report or the moves are asked for.
pub(crate) fn steps_job<'a>(given: &ArgMatches<'a>) -> Answer<'a>
    ensures { AnswersBy (codes "steps") (rows_of (found_of given.now)) result }
{
    let machine = word(given, "MACHINE")?;
    let script = word(given, "SCRIPT")?;
    let steps = word(given, "STEPS")?;
    if flag_of(given, "moves")? {
        Some(Ok(Job::Moves {
            machine,
            script,
            steps,
        }))
    } else {
        Some(Ok(Job::Steps {
            machine,
            script,
            steps,
        }))
    }
}

/// How the rounds of `round` and `schedule` are made, or how the options on them are misused; `None`
/// where a value is missing.
fn pace_of(given: &ArgMatches<'_>) -> Option<Result<AskedPace, Misuse>>
    ensures { AnswersPace (rows_of (found_of given.now)) result }
{
    let guard = long_number_if_given(given, "guard")?;
    match (flag_of(given, "clocked")?, word(given, "arbiter"), guard) {
        (false, None, None) => Some(Ok(AskedPace::InOrder)),
        (false, _, _) => Some(Err(Misuse::ArbiterAlone)),
        (true, None, guard) => Some(Ok(AskedPace::Fair(guard))),
        (true, Some("oldest"), guard) => Some(Ok(AskedPace::Fair(guard))),
        (true, Some("turn"), None) => Some(Ok(AskedPace::Turned)),
        (true, Some("turn"), Some(_)) => Some(Err(Misuse::GuardByTurn)),
        (true, Some(_), _) => Some(Err(Misuse::OtherArbiter)),
    }
}

pub(crate) fn round_job<'a>(given: &ArgMatches<'a>) -> Answer<'a>
    ensures { AnswersBy (codes "round") (rows_of (found_of given.now)) result }
{
    let machine = word(given, "MACHINE")?;
    let script = word(given, "SCRIPT")?;
    let rounds = number(given, "rounds", 1, MOST_ROUNDS)?;
    match pace_of(given)? {
        Ok(pace) => Some(Ok(Job::Round {
            machine,
            script,
            rounds,
            pace,
        })),
        Err(misuse) => Some(Err(misuse)),
    }
}

pub(crate) fn run_job<'a>(given: &ArgMatches<'a>) -> Answer<'a>
    ensures { AnswersBy (codes "run") (rows_of (found_of given.now)) result }
{
    Some(Ok(Job::Run {
        machine: word(given, "MACHINE")?,
        script: word(given, "SCRIPT")?,
        workers: number(given, "workers", 1, MOST_WORKERS)?,
        turns: number(given, "turns", 1, MOST_TURNS)?,
    }))
}

pub(crate) fn live_job<'a>(given: &ArgMatches<'a>) -> Answer<'a>
    ensures { AnswersBy (codes "live") (rows_of (found_of given.now)) result }
{
    Some(Ok(Job::Live {
        machine: word(given, "MACHINE")?,
    }))
}

pub(crate) fn schedule_job<'a>(given: &ArgMatches<'a>) -> Answer<'a>
    ensures { AnswersBy (codes "schedule") (rows_of (found_of given.now)) result }
{
    let machine = word(given, "MACHINE")?;
    let script = word(given, "SCRIPT")?;
    let rounds = number(given, "rounds", 1, MOST_ROUNDS)?;
    match pace_of(given)? {
        Ok(pace) => Some(Ok(Job::Schedule {
            machine,
            script,
            rounds,
            pace,
        })),
        Err(misuse) => Some(Err(misuse)),
    }
}

pub(crate) fn draw_job<'a>(given: &ArgMatches<'a>) -> Answer<'a>
    ensures { AnswersBy (codes "draw") (rows_of (found_of given.now)) result }
{
    Some(Ok(Job::Draw {
        machine: word(given, "MACHINE")?,
        script: word(given, "SCRIPT")?,
        seed: long_number(given, "seed")?,
        steps: long_number_if_given(given, "steps")?,
    }))
}

pub(crate) fn outcomes_job<'a>(given: &ArgMatches<'a>) -> Answer<'a>
    ensures { AnswersBy (codes "outcomes") (rows_of (found_of given.now)) result }
{
    Some(Ok(Job::Outcomes {
        machine: word(given, "MACHINE")?,
        script: word(given, "SCRIPT")?,
        states: number(given, "states", 1, MOST_STATES)?,
        run: long_number_if_given(given, "run")?,
    }))
}

pub(crate) fn reach_job<'a>(given: &ArgMatches<'a>) -> Answer<'a>
    ensures { AnswersBy (codes "reach") (rows_of (found_of given.now)) result }
{
    Some(Ok(Job::Reach {
        machine: word(given, "MACHINE")?,
        script: word(given, "SCRIPT")?,
        answer: word(given, "answer")?,
        states: number(given, "states", 1, MOST_STATES)?,
    }))
}

pub(crate) fn route_job<'a>(given: &ArgMatches<'a>) -> Answer<'a>
    ensures { AnswersBy (codes "route") (rows_of (found_of given.now)) result }
{
    Some(Ok(Job::Route {
        machine: word(given, "MACHINE")?,
        src: number(given, "SRC", 0, u32::MAX)?,
        dst: number(given, "DST", 0, u32::MAX)?,
        class: class(given)?,
    }))
}

pub(crate) fn channels_job<'a>(given: &ArgMatches<'a>) -> Answer<'a>
    ensures { AnswersBy (codes "channels") (rows_of (found_of given.now)) result }
{
    Some(Ok(Job::Channels {
        machine: word(given, "MACHINE")?,
    }))
}

pub(crate) fn check_job<'a>(given: &ArgMatches<'a>) -> Answer<'a>
    ensures { AnswersBy (codes "check") (rows_of (found_of given.now)) result }
{
    Some(Ok(Job::Check {
        report: word(given, "REPORT")?,
    }))
}

/// The network of `network`, of which the verdict or a run is asked for, or over which a run is
/// replayed; a misuse where both are asked for, or either with names, or a depth is given and neither is.
pub(crate) fn network_job<'a>(given: &ArgMatches<'a>) -> Answer<'a>
    ensures { AnswersBy (codes "network") (rows_of (found_of given.now)) result }
{
    let network = word(given, "NETWORK")?;
    let given_depth = number_if_given(given, "depth", MOST_DEPTH)?;
    let depth = given_depth.unwrap_or(1);
    let names = flag_of(given, "names")?;
    match (flag_of(given, "run")?, word(given, "replay"), names) {
        (true, Some(_), _) => Some(Err(Misuse::RunAndReplay)),
        (true, None, true) => Some(Err(Misuse::NamesOfMoves)),
        (true, None, false) => Some(Ok(Job::LockUp { network, depth })),
        (false, Some(_), true) => Some(Err(Misuse::NamesOfMoves)),
        (false, Some(run), false) => Some(Ok(Job::Replay {
            network,
            run,
            depth,
        })),
        (false, None, _) => match given_depth {
            Some(_) => Some(Err(Misuse::DepthAlone)),
            None => Some(Ok(Job::Network { network, names })),
        },
    }
}

pub(crate) fn simulate_job<'a>(given: &ArgMatches<'a>) -> Answer<'a>
    ensures { AnswersBy (codes "simulate") (rows_of (found_of given.now)) result }
{
    Some(Ok(Job::Simulate {
        network: word(given, "NETWORK")?,
        traffic: word(given, "TRAFFIC")?,
        depth: number(given, "depth", 1, MOST_DEPTH)?,
        arbiter: word(given, "arbiter")?,
    }))
}

/// The trace of `linearize`, of which the lines of an order or its report are asked for, or a small part without
/// an order; a misuse where both are asked for, or an object in place of the part.
pub(crate) fn linearize_job<'a>(given: &ArgMatches<'a>) -> Answer<'a>
    ensures { AnswersBy (codes "linearize") (rows_of (found_of given.now)) result }
{
    let trace = word(given, "TRACE")?;
    let configurations = number(given, "configurations", 1, u32::MAX)?;
    let seconds = long_number_if_given(given, "seconds")?;
    match (
        flag_of(given, "report")?,
        flag_of(given, "smallest")?,
        is_given(given, "json"),
    ) {
        (true, true, _) => Some(Err(Misuse::ReportAndSmallest)),
        (true, false, _) => Some(Ok(Job::Report {
            trace,
            configurations,
            seconds,
        })),
        (false, true, true) => Some(Err(Misuse::SmallestAndJson)),
        (false, true, false) => Some(Ok(Job::Smallest {
            trace,
            configurations,
            seconds,
        })),
        (false, false, _) => Some(Ok(Job::Linearize {
            trace,
            configurations,
            seconds,
        })),
    }
}

pub(crate) fn watch_job<'a>(given: &ArgMatches<'a>) -> Answer<'a>
    ensures { AnswersBy (codes "watch") (rows_of (found_of given.now)) result }
{
    Some(Ok(Job::Watch {
        trace: word(given, "TRACE")?,
        configurations: number(given, "configurations", 1, u32::MAX)?,
    }))
}

/// The log of `model`, with its order of writes or by its replies alone, or a report with the texts of
/// its run, or a small part of a log; a misuse where both of the first are asked for, or a number of nodes is
/// given for another than the second, or anything goes with a small part.
pub(crate) fn model_job<'a>(given: &ArgMatches<'a>) -> Answer<'a>
    ensures { AnswersBy (codes "model") (rows_of (found_of given.now)) result }
{
    let log = word(given, "LOG")?;
    let model = word(given, "model")?;
    let order = flag_of(given, "order")?;
    let given_nodes = number_if_given(given, "nodes", u32::MAX)?;
    let nodes = given_nodes.unwrap_or(10000);
    let is_part = flag_of(given, "smallest")?;
    match (
        flag_of(given, "values")?,
        two_words(given, "texts")?,
        given_nodes,
        is_part,
    ) {
        (true, None, _, false) => Some(Ok(Job::ValueModel {
            log,
            model,
            order,
            nodes,
        })),
        (false, None, None, false) => Some(Ok(Job::Model { log, model, order })),
        (false, None, None, true) => {
            if order || is_given(given, "json") {
                return Some(Err(Misuse::SmallestAlone));
            }
            Some(Ok(Job::SmallestModel { log, model }))
        }
        (false, Some((machine, script)), None, false) => Some(Ok(Job::RunModel {
            log,
            model,
            order,
            machine,
            script,
        })),
        (true, Some(_), _, _) => Some(Err(Misuse::TextsAndValues)),
        (false, _, Some(_), _) => Some(Err(Misuse::NodesAlone)),
        (true, None, _, true) => Some(Err(Misuse::SmallestAlone)),
        (false, Some(_), None, true) => Some(Err(Misuse::SmallestAlone)),
    }
}
