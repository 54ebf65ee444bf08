//! The job that runs scripts by workers.
ghost use Rattle.std.specs.Prelude.{◌≤◌};

use crate::answering::Outcome;
use command_jobs::Ended;
use command_run::{Ending, Open, TurnsLine, run_text_with};
use program_fault::{ProgramFault, Texts};
use report_lines::Out;
use sentences::Course;
use std::rt::Clock;
use std::sync::Wait;
use std::thread::Threads;

/// Runs the scripts by so many workers, each with at most so many turns, and prints the report.
pub(crate) fn by_workers<
    R: Eprint + Clock + AllocGlobal + Threads + Wait + Sync,
    W: Out,
    E: Ending,
>(
    rt: &R,
    texts: &Texts,
    workers: usize,
    turns: u64,
    is_seen: bool,
    out: &mut W,
    ending: &mut E,
) -> Result<Outcome, ProgramFault>
    requires workers { (1 ≤ workers) × (workers ≤ 16) }
    requires turns { (1 ≤ turns) × (turns ≤ 1000000000) }
{
    let (machine, script) = (texts.first.as_slice(), texts.second.as_slice());
    let line = TurnsLine::new(rt, is_seen);
    let finished = run_text_with(
        rt,
        rt.alloc(),
        machine,
        script,
        workers,
        turns,
        &Open,
        &line,
        out,
        ending,
    )?;
    Ok(Outcome::Ran(Ended {
        finished,
        course: Some(Course::Turns(turns)),
        held: 0,
    }))
}
