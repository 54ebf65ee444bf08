//! The run by which a network deadlocks.

ghost use Rattle.std.specs.Prelude.{◌≡◌, ◌≤◌, IfOk};
ghost use Rattle.network_judge.specs.Verdicts.{AllArrive, IsVerdict};
ghost use Rattle.network_judge.specs.Cycles.{IsCycle};
ghost use Rattle.network_answer.specs.Answer.{is_rising};
ghost use Rattle.network_run.specs.Printed.{FindsRun, IsLockingRun, AnswersRun, TellsRunOrNoPair};

use crate::filling::filling_moves;
use crate::writing::moves_text;
use network_answer::answer::no_pair;
use network_answer::{Answer, judge_network, verdict_causes, verdict_text};
use network_judge::{Fill, Link, Verdict, find_jam};
use network_machine::Move;
use network_text::Network;
use std::alloc::{AllocError, Allocator};

/// A run by which a network with a cycle deadlocks; none where its channels hold no flit.
///
/// Errors: out of memory.
fn run_of_cycle<A: Allocator + Copy>(
    alloc: A,
    network: &Network<A>,
    links: &[Link],
    depth: u64,
) -> Result<Option<Vec<Move, A>>, AllocError>
    requires arrive { AllArrive network.now.table }
    requires cycle { IsCycle network.now.table network.now.replies links.now }
    requires depth { depth ≤ 8 }
    ensures { IfOk result (IsLockingRun network.now depth) }
{
    if depth == 0 {
        return Ok(None);
    }
    let found = find_jam(
        alloc,
        network.kinds(),
        network.joins(),
        network.replies(),
        network.choices(),
        links,
    )?;
    match found {
        None => Ok(None),
        Some(fills) => Ok(Some(filling_moves(alloc, network, &fills, depth)?)),
    }
}

/// A run by which a network with this verdict deadlocks, if it is a cycle.
///
/// Errors: out of memory.
fn run_of<A: Allocator + Copy>(
    alloc: A,
    network: &Network<A>,
    verdict: &Verdict<A>,
    depth: u64,
) -> Result<Option<Vec<Move, A>>, AllocError>
    requires verdict { IsVerdict network.now.table network.now.replies verdict.now }
    requires depth { depth ≤ 8 }
    ensures { IfOk result (FindsRun network.now depth verdict.now) }
{
    match verdict {
        Verdict::Rising(_) => Ok(None),
        Verdict::NoRoute(_) => Ok(None),
        Verdict::Cycle(links) => run_of_cycle(alloc, network, links, depth),
    }
}

/// Judges a network whose channels hold so many flits, and makes the text of the run by which it deadlocks,
/// from the empty network on; where there is none, the text of the verdict, or that it has no
/// source-destination pair.
///
/// Errors: out of memory.
pub fn run_text<A: Allocator + Copy>(
    alloc: A,
    network: &Network<A>,
    depth: u64,
) -> Result<Answer<A>, AllocError>
    requires { depth ≤ 8 }
    ensures { IfOk result (TellsRunOrNoPair network.now depth) }
{
    if network.joins().is_empty() {
        return no_pair(alloc);
    }
    judged_run(alloc, network, depth)
}

/// The text of the run by which a network deadlocks, or that of its verdict.
///
/// Errors: out of memory.
fn judged_run<A: Allocator + Copy>(
    alloc: A,
    network: &Network<A>,
    depth: u64,
) -> Result<Answer<A>, AllocError>
    requires { depth ≤ 8 }
    ensures { IfOk result (AnswersRun network.now depth) }
{
    let verdict = judge_network(alloc, network)?;
    let found = run_of(alloc, network, &verdict, depth)?;
    let rising = is_rising(&verdict);
    let causes = verdict_causes(alloc, &verdict)?;
    let kinds = Vec::from_slice(alloc, network.kinds())?;
    match found {
        Some(moves) => Ok(Answer {
            text: moves_text(alloc, &moves)?,
            rising,
            causes,
            kinds,
        }),
        None => Ok(Answer {
            text: verdict_text(alloc, &verdict)?,
            rising,
            causes,
            kinds,
        }),
    }
}

/// Whether a verdict has numbers.
fn is_rising<A: Allocator>(verdict: &Verdict<A>) -> bool
    ensures { result ≡ is_rising verdict.now }
{
    match verdict {
        Verdict::Rising(_) => true,
        Verdict::NoRoute(_) => false,
        Verdict::Cycle(_) => false,
    }
}
