//! The texts that a job names, and what they are.

use command_line::Job;
use program_fault::{Kind, Names};

/// The names of the texts of a job that are read before it begins.
pub fn names<'a>(job: &Job<'a>) -> Names<'a> {
    let (first, second, third) = match *job {
        Job::Steps {
            machine,
            script,
            steps,
        }
        | Job::Moves {
            machine,
            script,
            steps,
        } => (machine, Some(script), Some(steps)),
        Job::Round {
            machine,
            script,
            ..
        }
        | Job::Run {
            machine,
            script,
            ..
        }
        | Job::Schedule {
            machine,
            script,
            ..
        }
        | Job::Draw {
            machine,
            script,
            ..
        }
        | Job::Outcomes {
            machine,
            script,
            ..
        }
        | Job::Reach {
            machine,
            script,
            ..
        } => (machine, Some(script), None),
        Job::Replay { network, run, .. } => (network, Some(run), None),
        Job::Simulate {
            network,
            traffic,
            ..
        } => (network, Some(traffic), None),
        Job::RunModel {
            log,
            machine,
            script,
            ..
        } => (log, Some(machine), Some(script)),
        Job::Watch { .. } => {
            return Names {
                first: None,
                second: None,
                third: None,
            };
        }
        Job::Live { machine: name }
        | Job::Route { machine: name, .. }
        | Job::Channels { machine: name }
        | Job::Check { report: name }
        | Job::Network { network: name, .. }
        | Job::LockUp { network: name, .. }
        | Job::Linearize { trace: name, .. }
        | Job::Report { trace: name, .. }
        | Job::Smallest { trace: name, .. }
        | Job::Model { log: name, .. }
        | Job::ValueModel { log: name, .. }
        | Job::SmallestModel { log: name, .. } => (name, None, None),
    };
    Names {
        first: Some(first),
        second,
        third,
    }
}

/// What the texts of a job are that names a machine or a report.
pub fn kind(job: &Job) -> Kind {
    match *job {
        Job::Check { .. } => Kind::Report,
        Job::Route { src, dst, .. } => Kind::Route { src, dst },
        _ => Kind::Machine,
    }
}
