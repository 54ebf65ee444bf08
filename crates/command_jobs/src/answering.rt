//! What the jobs answer whose work stands in `commands`.
ghost use Rattle.std.specs.Prelude.{◌≡◌, true};
ghost use Rattle.std.specs.Str.Lines.{lines};
ghost use Rattle.machine_core.specs.Loading.{load_by};
ghost use Rattle.program_fault.specs.Done.{Does, output};
ghost use Rattle.program_fault.specs.Outcome.{IsTextsFault};
ghost use Rattle.command_texts.specs.Ends.{HasEndedRounds, ShowsReached};
ghost use Rattle.command_texts.specs.Run.{HasRun, PrintsRun, asked_of};
ghost use Rattle.command_texts.specs.Rounds.{PrintsRounds};
ghost use Rattle.command_jobs.specs.Ends.{ShowsEnd};
ghost use Rattle.command_jobs.specs.Jobs.{AnswersJob, IsFinishedJob, done_in, finished_in};
ghost use Rattle.command_jobs.specs.Jobs.{is_of_commands, pace_of};

use crate::progress_line::ProgressLine;
use command_line::{AskedPace, Job};
use command_texts::{
    Ending, channels_text, check_text, round_text_with, route_text, steps_text_with,
};
use fair_rounds::Pace;
use program_fault::{ProgramFault, Texts};
use report_lines::Out;
use sentences::Course;
use std::rt::Clock;

/// What became of a job.
#[derive(Clone, Copy)]
pub struct Ended {
    /// Whether every script is finished; true of a job without scripts.
    pub finished: bool,
    /// What a run with a report was made of.
    pub course: Option<Course>,
    /// In how many rounds a guard held operations back.
    pub held: u64,
}

/// The pace of rounds that the words of a command line name.
pub fn pace_of(pace: AskedPace) -> Pace
    ensures { result ≡ pace_of pace }
{
    match pace {
        AskedPace::InOrder => Pace::InOrder,
        AskedPace::Turned => Pace::Turned,
        AskedPace::Fair(most) => Pace::Fair(most),
    }
}

/// Whether the work of a job stands in `commands`.
pub fn is_of_commands(job: &Job) -> bool
    ensures { result ≡ is_of_commands job.now }
{
    matches!(
        *job,
        Job::Steps { .. }
            | Job::Round { .. }
            | Job::Route { .. }
            | Job::Channels { .. }
            | Job::Check { .. }
    )
}

/// Does a job whose work stands in `commands`, over its texts: what it prints goes to `out`. Where
/// standard error `is_seen`, a long run says there how far it is; `ending` is shown what it reached.
///
/// Errors: as the function of `commands` that does it.
pub fn answer<R: Eprint + Clock + AllocGlobal, W: Out, E: Ending>(
    rt: &R,
    job: &Job,
    texts: &Texts,
    is_seen: bool,
    out: &mut W,
    ending: &mut E,
) -> Result<Ended, ProgramFault>
    requires { is_of_commands job.now ≡ true }
    ensures answers { AnswersJob job.now texts.now (output (W.taken out.old) (W.failures out.old))
        (output (W.taken out.new) (W.failures out.new)) result }
    ensures ends { ShowsEnd job.now texts.now (E.saw ending.new)
        (output (W.taken out.old) (W.failures out.old))
        (output (W.taken out.new) (W.failures out.new)) (finished_in result) }
{
    let alloc = rt.alloc();
    let first = texts.first.as_slice();
    match *job {
        Job::Steps { .. } => by_steps(rt, texts, is_seen, out, ending),
        Job::Round { rounds, pace, .. } => {
            let pace = pace_of(pace);
            in_rounds(rt, texts, u64::from(rounds), pace, is_seen, out, ending)
        }
        Job::Route {
            src,
            dst,
            class,
            ..
        } => plain(route_text(alloc, first, src, dst, class, out)),
        Job::Channels { .. } => plain(channels_text(alloc, first, out)),
        Job::Check { .. } => plain(check_text(alloc, first, out)),
        _ => unreachable!(),
    }
}

/// What became of a job without scripts.
fn plain(done: Result<(), ProgramFault>) -> Result<Ended, ProgramFault>
    ensures done { done_in result ≡ done }
    ensures finished { IsFinishedJob result }
{
    match done {
        Ok(()) => Ok(Ended {
            finished: true,
            course: None,
            held: 0,
        }),
        Err(fault) => Err(fault),
    }
}

/// Runs the listed steps.
fn by_steps<R: Eprint + Clock + AllocGlobal, W: Out, E: Ending>(
    rt: &R,
    texts: &Texts,
    is_seen: bool,
    out: &mut W,
    ending: &mut E,
) -> Result<Ended, ProgramFault>
    ensures prints { PrintsRun
        (asked_of (lines texts.now.first.items) (lines texts.now.second.items)
        (lines texts.now.third.items))
        (output (W.taken out.old) (W.failures out.old))
        (output (W.taken out.new) (W.failures out.new)) (finished_in result) }
    ensures ends { Does
        (ShowsReached (HasRun (asked_of (lines texts.now.first.items)
        (lines texts.now.second.items) (lines texts.now.third.items))) (E.saw ending.new))
        (IsTextsFault (asked_of (lines texts.now.first.items)
        (lines texts.now.second.items) (lines texts.now.third.items)))
        (output (W.taken out.old) (W.failures out.old))
        (output (W.taken out.new) (W.failures out.new)) (finished_in result) }
{
    let (machine, script) = (texts.first.as_slice(), texts.second.as_slice());
    let mut line = ProgressLine::new(rt, is_seen);
    let alloc = rt.alloc();
    match steps_text_with(alloc, machine, script, &texts.third, out, &mut line, ending) {
        Ok(finished) => {
            let moves = line.moves_made();
            Ok(Ended {
                finished,
                course: Some(Course::Steps { moves }),
                held: 0,
            })
        }
        Err(fault) => Err(fault),
    }
}

/// Runs in rounds of a pace, at most so many.
fn in_rounds<R: Eprint + Clock + AllocGlobal, W: Out, E: Ending>(
    rt: &R,
    texts: &Texts,
    rounds: u64,
    pace: Pace,
    is_seen: bool,
    out: &mut W,
    ending: &mut E,
) -> Result<Ended, ProgramFault>
    ensures prints { PrintsRounds pace
        (load_by (lines texts.now.first.items) (lines texts.now.second.items)) rounds
        (output (W.taken out.old) (W.failures out.old))
        (output (W.taken out.new) (W.failures out.new)) (finished_in result) }
    ensures ends { Does
        (ShowsReached (HasEndedRounds pace
        (load_by (lines texts.now.first.items) (lines texts.now.second.items)) rounds)
        (E.saw ending.new))
        (IsTextsFault (load_by (lines texts.now.first.items) (lines texts.now.second.items)))
        (output (W.taken out.old) (W.failures out.old))
        (output (W.taken out.new) (W.failures out.new)) (finished_in result) }
{
    let (machine, script) = (texts.first.as_slice(), texts.second.as_slice());
    let mut line = ProgressLine::new(rt, is_seen);
    let alloc = rt.alloc();
    match round_text_with(alloc, machine, script, rounds, pace, out, &mut line, ending) {
        Ok(finished) => {
            let course = Course::Rounds {
                rounds: line.rounds_made(),
                moves: line.moves_made(),
            };
            Ok(Ended {
                finished,
                course: Some(course),
                held: line.rounds_held(),
            })
        }
        Err(fault) => Err(fault),
    }
}
