//! Runs over networks, from texts to an output.

ghost use Rattle.std.specs.Prelude.{◌≤◌};
ghost use Rattle.std.specs.Str.Lines.{lines};
ghost use Rattle.program_fault.specs.Done.{output};
ghost use Rattle.command_verdicts.specs.PrintedRuns.{PrintsLockUp, PrintsReplay, PrintsSimulation};

use network_answer::Answer;
use network_rounds::Arbiter;
use network_run::{replay_answer, run_answer};
use network_traffic::simulation_answer;
use program_fault::ProgramFault;
use report_lines::Out;
use report_lines::output::put_all;
use std::alloc::Allocator;

/// Judges the network of a text whose channels hold so many flits, and prints the run by which it
/// deadlocks; where there is none, the verdict. Answers with what was printed, whether the numbers of its
/// channels rise, and why the verdict is so.
///
/// Errors: the text's first fault, or out of memory; and nothing was written then. If the output
/// fails, a beginning was written.
pub fn lock_up_text<A: Allocator + Copy, W: Out>(
    alloc: A,
    network: &[u8],
    depth: u64,
    out: &mut W,
) -> Result<Answer<A>, ProgramFault>
    requires { depth ≤ 8 }
    ensures { PrintsLockUp A (lines network.now) depth
        (output (W.taken out.old) (W.failures out.old))
        (output (W.taken out.new) (W.failures out.new)) result }
{
    let answer = run_answer(alloc, network, depth)?;
    put_all(out, &answer.text)?;
    Ok(answer)
}

/// Replays a run over the network of a text whose channels hold so many flits, and prints how it ends,
/// or the pair of the network without a route. Answers whether nothing is wrong with the network.
///
/// Errors: the first fault of the network's text, or else of that of the run, a move that may not be
/// made among them; or out of memory; and nothing was written then. If the output fails, a beginning
/// was written.
pub fn replay_network_text<A: Allocator + Copy, W: Out>(
    alloc: A,
    network: &[u8],
    run: &[u8],
    depth: u64,
    out: &mut W,
) -> Result<bool, ProgramFault>
    requires { depth ≤ 8 }
    ensures { PrintsReplay (lines network.now) (lines run.now) depth
        (output (W.taken out.old) (W.failures out.old))
        (output (W.taken out.new) (W.failures out.new)) result }
{
    let answer = replay_answer(alloc, network, run, depth)?;
    put_all(out, &answer.text)?;
    Ok(answer.sound)
}

/// Sends the packets of a traffic text through the network of a text whose channels hold so many flits, in
/// clocked rounds by an arbiter, and prints what becomes of them, or the first pair of the network without a route.
/// Answers whether all pairs have routes, and the simulation is over and ends empty.
///
/// Errors: the first fault of the network's text, or else of that of the traffic; or out of memory; and
/// nothing was written then. If the output fails, a beginning was written.
pub fn simulate_text<A: Allocator + Copy, W: Out>(
    alloc: A,
    network: &[u8],
    traffic: &[u8],
    depth: u64,
    by: Arbiter,
    out: &mut W,
) -> Result<bool, ProgramFault>
    requires { depth ≤ 8 }
    ensures { PrintsSimulation A by (lines network.now) (lines traffic.now) depth
        (output (W.taken out.old) (W.failures out.old))
        (output (W.taken out.new) (W.failures out.new)) result }
{
    let simulation = simulation_answer(alloc, network, traffic, depth, by)?;
    put_all(out, &simulation.text)?;
    Ok(simulation.sound)
}
