//! What is put of a schedule: a line, the moves among attempts, and the last line.

ghost use Rattle.std.specs.Prelude.{◌≡◌, ◌∷◌, [], IfOk, OnOk};
ghost use Rattle.core_laws.specs.Machine.{core_next, core_after, all_finished};
ghost use Rattle.core_laws.specs.MachineMoves.{moves_from};
ghost use Rattle.command_schedule.specs.declared.line.ScheduleLine.TheVariants.{End};
ghost use Rattle.command_schedule.specs.Line.{line_text, text_of};
ghost use Rattle.program_fault.specs.Done.{output};
ghost use Rattle.command_schedule.specs.Output.{Took, headed, heading_behind};

use crate::{ScheduleLine, line_of};
use machine_core::Machine;
use report_lines::output::put_all;
use report_lines::{Out, OutputFailed};
use std::alloc::Allocator;
use torus::{Step, Stepped};

/// Puts a line.
pub(crate) fn put_line<W: Out>(out: &mut W, line: ScheduleLine) -> Result<(), OutputFailed>
    ensures { Took (line_text line) (output (W.taken out.old) (W.failures out.old))
        (output (W.taken out.new) (W.failures out.new)) result }
{
    put_all(out, line_of(&line).as_str().as_bytes())
}

/// Puts a move, behind the heading of its round where that is still to put.
fn put_move<W: Out>(out: &mut W, heading: Option<u64>, step: Step) -> Result<(), OutputFailed>
    ensures { Took (text_of (headed heading (step ∷ [])))
        (output (W.taken out.old) (W.failures out.old))
        (output (W.taken out.new) (W.failures out.new)) result }
{
    match heading {
        None => put_line(out, ScheduleLine::Move(step)),
        Some(number) => {
            put_line(out, ScheduleLine::Round(number))?;
            put_line(out, ScheduleLine::Move(step))
        }
    }
}

/// Attempts a step, and puts it where it moved. Answers the heading that is still to put.
pub(crate) fn put_attempt<A: Allocator, W: Out>(
    machine: &mut Machine<A>,
    step: Step,
    heading: Option<u64>,
    out: &mut W,
) -> Result<Option<u64>, OutputFailed>
    ensures machine { machine.new ≡ core_next machine.old step }
    ensures left { IfOk result
        (λ left. left ≡ heading_behind heading (moves_from machine.old (step ∷ []))) }
    ensures took { Took (text_of (headed heading (moves_from machine.old (step ∷ []))))
        (output (W.taken out.old) (W.failures out.old))
        (output (W.taken out.new) (W.failures out.new)) result }
{
    match machine.step(step) {
        Stepped::Idle => Ok(heading),
        Stepped::Moved => {
            put_move(out, heading, step)?;
            Ok(None)
        }
    }
}

/// Attempts the steps, one after the other, and puts those that moved, behind a heading if there is
/// to be one.
pub(crate) fn put_moves<A: Allocator, W: Out>(
    machine: &mut Machine<A>,
    steps: &[Step],
    heading: Option<u64>,
    out: &mut W,
) -> Result<(), OutputFailed>
    ensures machine { OnOk result (machine.new ≡ core_after machine.old steps.now) }
    ensures took { Took (text_of (headed heading (moves_from machine.old steps.now)))
        (output (W.taken out.old) (W.failures out.old))
        (output (W.taken out.new) (W.failures out.new)) result }
{
    let mut heading = heading;
    for step in steps {
        heading = put_attempt(machine, *step, heading, out)?;
    }
    Ok(())
}

/// Puts the last line, which says whether every script is finished, and answers that.
pub(crate) fn put_end<A: Allocator, W: Out>(
    machine: &Machine<A>,
    out: &mut W,
) -> Result<bool, OutputFailed>
    ensures value { IfOk result (λ finished. finished ≡ all_finished machine.now.state) }
    ensures took { Took (line_text (End (all_finished machine.now.state)))
        (output (W.taken out.old) (W.failures out.old))
        (output (W.taken out.new) (W.failures out.new)) result }
{
    let finished = machine.finished();
    put_line(out, ScheduleLine::End(finished))?;
    Ok(finished)
}
