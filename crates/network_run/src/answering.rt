//! The answers to a network text and a run text.

ghost use Rattle.std.specs.Prelude.{◌≡◌, ◌≤◌};
ghost use Rattle.std.specs.Str.Lines.{lines};
ghost use Rattle.network_run.specs.Answers.{AnswersRunText, AnswersReplayText};
ghost use Rattle.network_run.specs.Answers.{TellsReplayed, is_sound};

use crate::replaying::{Replayed, replay_text};
use crate::running::run_text;
use crate::writing::replayed_text;
use lexer::LineFault;
use network_answer::Answer;
use network_machine::Ending;
use network_text::read_network;
use std::alloc::{Allocator, Global};
use torus::Fault;

/// What is answered to a run text.
#[derive(Drop)]
pub struct ReplayAnswer<A: Allocator = Global> {
    /// The line on the replay.
    pub text: Vec<u8, A>,
    /// Whether all pairs of the network have routes, and the run doesn't end in a deadlock.
    pub sound: bool,
}

/// Out of memory, which is of no line.
const MEMORY: LineFault = LineFault {
    fault: Fault::Memory,
    line: 0,
};

/// Whether a replay shows nothing wrong with the network.
fn is_sound(replayed: Replayed) -> bool
    ensures { result ≡ is_sound replayed }
{
    match replayed {
        Replayed::NoRoute(_) => false,
        Replayed::Ended(Ending::Locked) => false,
        Replayed::Ended(Ending::Empty) => true,
        Replayed::Ended(Ending::Goes(_)) => true,
    }
}

/// Reads a network text, and answers with the text of the run by which the network deadlocks, whose
/// channels hold so many flits; where there is none, with that of the verdict.
///
/// Errors: the first fault of the text and its line, or `Fault::Memory` at line 0.
pub fn run_answer<A: Allocator + Copy>(
    alloc: A,
    text: &[u8],
    depth: u64,
) -> Result<Answer<A>, LineFault>
    requires { depth ≤ 8 }
    ensures { AnswersRunText (lines text.now) depth result }
{
    let network = read_network(alloc, text)?;
    match run_text(alloc, &network, depth) {
        Ok(answer) => Ok(answer),
        Err(_) => Err(MEMORY),
    }
}

/// The answer to a replay.
///
/// Errors: out of memory.
fn replay_told<A: Allocator + Copy>(
    alloc: A,
    replayed: Replayed,
) -> Result<ReplayAnswer<A>, LineFault>
    ensures { TellsReplayed replayed result }
{
    match replayed_text(alloc, replayed) {
        Ok(text) => Ok(ReplayAnswer {
            text,
            sound: is_sound(replayed),
        }),
        Err(_) => Err(MEMORY),
    }
}

/// Reads a network text and a run text, and replays the run over the network, whose channels hold
/// so many flits.
///
/// Errors: the first fault of the network text and its line, or else the first of the run text, a
/// move that may not be made among them; or `Fault::Memory` at line 0.
pub fn replay_answer<A: Allocator + Copy>(
    alloc: A,
    network: &[u8],
    run: &[u8],
    depth: u64,
) -> Result<ReplayAnswer<A>, LineFault>
    requires { depth ≤ 8 }
    ensures { AnswersReplayText (lines network.now) (lines run.now) depth result }
{
    let network = read_network(alloc, network)?;
    let replayed = replay_text(alloc, &network, run, depth)?;
    replay_told(alloc, replayed)
}
