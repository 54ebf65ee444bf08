//! Runs that are replayed over a network.

ghost use Rattle.std.specs.Prelude.{◌≤◌, IfOk, IfErr};
ghost use Rattle.std.specs.Str.Lines.{lines};
ghost use Rattle.network_judge.specs.Verdicts.{AllArrive, IsVerdict};
ghost use Rattle.network_run.specs.Moved.{HasLines, run_spec};
ghost use Rattle.network_run.specs.Replays.{AnswersReplay, IsMade, IsRefusedRun, IsReplayed};
ghost use Rattle.network_run.specs.Replays.{RunEnds};

use crate::reading::{RunMoves, read_run};
use crate::reason::RunReason;
use lexer::Refusal;
use network_answer::judge_network;
use network_judge::{NoRoute, Verdict};
use network_machine::{Ending, Hindrance, Machine, Move};
use network_text::Network;
use std::alloc::{AllocError, Allocator};

/// What becomes of moves over the empty network.
#[derive(Clone, Copy)]
pub(crate) enum Made {
    /// All are made, and the run ends so.
    Ended(Ending),
    /// That at this place, from 0, may not be made, and why.
    Stopped(usize, Hindrance),
}

/// What is answered to a run text.
#[derive(Clone, Copy)]
pub enum Replayed {
    /// This pair of the network has no route, so no run is replayed.
    NoRoute(NoRoute),
    /// All moves are made, and the run ends so.
    Ended(Ending),
}

/// Makes moves one after the other, from the empty network on.
///
/// Errors: out of memory.
pub(crate) fn make_moves<A: Allocator + Copy>(
    alloc: A,
    network: &Network<A>,
    moves: &[Move],
    depth: u64,
) -> Result<Made, AllocError>
    requires arrive { AllArrive network.now.table }
    requires depth { depth ≤ 8 }
    ensures { IfOk result (IsMade network.now depth moves.now) }
{
    let mut machine = Machine::open(
        alloc,
        network.kinds(),
        network.joins(),
        network.replies(),
        network.choices(),
        depth,
    )?;
    match machine.replay(moves) {
        Ok(()) => Ok(Made::Ended(machine.ending())),
        Err((place, hindrance)) => Ok(Made::Stopped(place, hindrance)),
    }
}

/// What becomes of the moves of a run text.
///
/// Errors: the line whose move may not be made, and why; or out of memory.
fn replay_moves<A: Allocator + Copy>(
    alloc: A,
    network: &Network<A>,
    run: &RunMoves<A>,
    depth: u64,
) -> Result<Ending, Refusal<RunReason>>
    requires arrive { AllArrive network.now.table }
    requires depth { depth ≤ 8 }
    requires lines { HasLines (run_spec run.now) }
    ensures ends { IfOk result (RunEnds network.now depth run.now.moves.items) }
    ensures stops { IfErr result (IsRefusedRun network.now depth (run_spec run.now)) }
{
    match make_moves(alloc, network, &run.moves, depth) {
        Ok(Made::Ended(ending)) => Ok(ending),
        Ok(Made::Stopped(place, hindrance)) => Err(Refusal {
            line: run.lines[place],
            reason: RunReason::Hindered(hindrance),
        }),
        Err(_) => Err(Refusal {
            line: 0,
            reason: RunReason::Memory,
        }),
    }
}

/// What is answered to the moves of a run text, by the verdict of the network.
///
/// Errors: the line whose move may not be made, and why; or out of memory.
fn replayed_by<A: Allocator + Copy>(
    alloc: A,
    network: &Network<A>,
    verdict: &Verdict<A>,
    run: &RunMoves<A>,
    depth: u64,
) -> Result<Replayed, Refusal<RunReason>>
    requires verdict { IsVerdict network.now.table network.now.replies verdict.now }
    requires depth { depth ≤ 8 }
    requires lines { HasLines (run_spec run.now) }
    ensures replayed { IfOk result (IsReplayed network.now depth run.now.moves.items) }
    ensures stops { IfErr result (IsRefusedRun network.now depth (run_spec run.now)) }
{
    match verdict {
        Verdict::NoRoute(r) => Ok(Replayed::NoRoute(*r)),
        Verdict::Rising(_) => Ok(Replayed::Ended(replay_moves(alloc, network, run, depth)?)),
        Verdict::Cycle(_) => Ok(Replayed::Ended(replay_moves(alloc, network, run, depth)?)),
    }
}

/// Replays a run text over a network whose channels hold so many flits, from the empty network on.
///
/// Errors: where and why its first line is refused that spells no move, or else the first whose
/// move may not be made; or that a request for memory was refused.
pub fn replay_text<A: Allocator + Copy>(
    alloc: A,
    network: &Network<A>,
    text: &[u8],
    depth: u64,
) -> Result<Replayed, Refusal<RunReason>>
    requires { depth ≤ 8 }
    ensures { AnswersReplay network.now depth (lines text.now) result }
{
    let run = read_run(alloc, text)?;
    match judge_network(alloc, network) {
        Ok(verdict) => replayed_by(alloc, network, &verdict, &run, depth),
        Err(_) => Err(Refusal {
            line: 0,
            reason: RunReason::Memory,
        }),
    }
}
