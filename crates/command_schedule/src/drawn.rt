ghost use Rattle.std.specs.Prelude.{◌≡◌, None, OnOk, length, slice_get};
ghost use Rattle.std.specs.Str.Lines.{lines};
ghost use Rattle.core_laws.specs.Core.{round};
ghost use Rattle.machine_core.specs.Loading.{load_by};
ghost use Rattle.core_laws.specs.Machine.{core_after};
ghost use Rattle.command_schedule.specs.Line.{text_of};
ghost use Rattle.program_fault.specs.Done.{output};
ghost use Rattle.command_schedule.specs.Output.{Took, headed};
ghost use Rattle.command_schedule.specs.Drawn.{PrintsDrawn, drawn_moves, drawn_of, enabled_now};

use crate::ScheduleLine;
use crate::in_rounds::loaded;
use crate::output::{put_end, put_line};
use machine_core::Machine;
use outcome_search::round_list::round_of;
use program_fault::ProgramFault;
use rand_core::SeedableRng;
use rand_core::utils::NextWord;
use rand_xoshiro::SplitMix64;
use report_lines::{Out, OutputFailed};
use std::alloc::Allocator;
use torus::Step;

/// Runs the machine of a text, whose processors follow the scripts of a text, by drawn moves: until
/// every script is finished, and at most so many. Prints the moves, in their order, and a last line
/// that says whether every script is finished. Answers that. What is printed is a steps text of these
/// moves.
///
/// The moves are drawn by SplitMix64, whose state is the seed at first: each is that attempt, of those
/// of a round that are enabled, in their order, whose index is the next word modulo their number.
///
/// Errors: the first fault of the texts, taken in the order machine, scripts, or out of memory; and
/// nothing was written then. If the output fails, a beginning was written.
pub fn draw_text<A: Allocator + Copy, W: Out>(
    alloc: A,
    machine: &[u8],
    scripts: &[u8],
    seed: u64,
    most: Option<u64>,
    out: &mut W,
) -> Result<bool, ProgramFault>
    ensures { PrintsDrawn (load_by (lines machine.now) (lines scripts.now)) seed most
        (output (W.taken out.old) (W.failures out.old))
        (output (W.taken out.new) (W.failures out.new)) result }
{
    let mut machine = loaded(alloc, machine, scripts)?;
    let round = round_of(alloc, machine.torus())?;
    let most = most.unwrap_or(machine.moves_left());
    put_drawn(&mut machine, &round, seed, most, out)?;
    let finished = put_end(&machine, out)?;
    Ok(finished)
}

/// Makes moves drawn among these attempts until every script is finished, and at most so many, and puts
/// them.
fn put_drawn<A: Allocator, W: Out>(
    machine: &mut Machine<A>,
    attempts: &[Step],
    seed: u64,
    most: u64,
    out: &mut W,
) -> Result<(), OutputFailed>
    requires { attempts.now ≡ round machine.old.shape }
    ensures machine { OnOk result
        (machine.new ≡ core_after machine.old (drawn_moves most seed machine.old)) }
    ensures took { Took (text_of (headed None (drawn_moves most seed machine.old)))
        (output (W.taken out.old) (W.failures out.old))
        (output (W.taken out.new) (W.failures out.new)) result }
{
    let mut draws = SplitMix64::seed_from_u64(seed);
    let mut left = most;
    while left > 0 {
        if machine.finished() {
            return Ok(());
        }
        let Some(step) = drawn_step(machine, attempts, draws.next_word()) else {
            return Ok(());
        };
        let _ = machine.step(step);
        put_line(out, ScheduleLine::Move(step))?;
        left -= 1;
    }
    Ok(())
}

/// The attempt, of those that are enabled now, whose index is a word modulo their number; `None`
/// where none is enabled.
fn drawn_step<A: Allocator>(machine: &Machine<A>, attempts: &[Step], word: u64) -> Option<Step>
    ensures { result ≡ drawn_of (enabled_now machine.now attempts.now) word }
{
    let count = enabled_count(machine, attempts);
    if count == 0 {
        return None;
    }
    enabled_at(machine, attempts, word % count)
}

/// How many of the attempts are enabled now.
fn enabled_count<A: Allocator>(machine: &Machine<A>, attempts: &[Step]) -> u64
    ensures { result ≡ length (enabled_now machine.now attempts.now) }
{
    let mut count = 0;
    for attempt in attempts {
        count += u64::from(machine.enabled(*attempt));
    }
    count
}

/// The attempt that has so many before it of those that are enabled now.
fn enabled_at<A: Allocator>(machine: &Machine<A>, attempts: &[Step], index: u64) -> Option<Step>
    ensures { result ≡ slice_get (enabled_now machine.now attempts.now) index }
{
    let mut left = index;
    for attempt in attempts {
        if !machine.enabled(*attempt) {
            continue;
        }
        if left == 0 {
            return Some(*attempt);
        }
        left -= 1;
    }
    None
}
