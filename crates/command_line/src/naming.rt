//! The word of the subcommand of a job.
ghost use Rattle.std.specs.Prelude.{◌≡◌};
ghost use Rattle.command_line.specs.Job.{name_of};

use crate::command::Job;

/// The word of the subcommand of a job.
pub fn name_of(job: &Job) -> &'static str
    ensures { result.now ≡ name_of job.now }
{
    match *job {
        Job::Steps { .. } => "steps",
        Job::Round { .. } => "round",
        Job::Run { .. } => "run",
        Job::Live { .. } => "live",
        Job::Route { .. } => "route",
        Job::Channels { .. } => "channels",
        Job::Check { .. } => "check",
        Job::Network { .. } => "network",
        Job::LockUp { .. } => "network",
        Job::Replay { .. } => "network",
        Job::Simulate { .. } => "simulate",
        Job::Linearize { .. } => "linearize",
        Job::Report { .. } => "linearize",
        Job::Smallest { .. } => "linearize",
        Job::Watch { .. } => "watch",
        Job::Model { .. } => "model",
        Job::RunModel { .. } => "model",
        Job::ValueModel { .. } => "model",
        Job::SmallestModel { .. } => "model",
        Job::Schedule { .. } => "schedule",
        Job::Draw { .. } => "draw",
        Job::Moves { .. } => "steps",
        Job::Outcomes { .. } => "outcomes",
        Job::Reach { .. } => "reach",
    }
}
