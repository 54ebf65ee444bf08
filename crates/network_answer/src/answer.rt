//! The answer to a network text.

ghost use Rattle.std.specs.Prelude.{◌≡◌, IfOk};
ghost use Rattle.std.specs.Str.Lines.{lines};
ghost use Rattle.network_judge.specs.Verdicts.{IsVerdict};
ghost use Rattle.network_answer.specs.Answer.{Answers, SaysNoPair, TellsFixedRoutes, is_rising};

use crate::causes::{Cause, one_cause, verdict_causes};
use crate::jam::judged_text;
use lexer::LineFault;
use network_judge::{Kind, Verdict, judge};
use network_text::network::{Network, read_network};
use std::alloc::{AllocError, Allocator, Global};
use torus::Fault;

/// What is answered to a network text.
#[derive(Drop)]
pub struct Answer<A: Allocator = Global> {
    /// The text of the verdict, and behind a cycle that of a jam.
    pub text: Vec<u8, A>,
    /// Whether the channels' numbers rise, or packets have one flit and never deadlock.
    pub rising: bool,
    /// Why what is judged is so.
    pub causes: Vec<Cause, A>,
    /// The kinds of the channels that the causes name.
    pub kinds: Vec<Kind, A>,
}

/// Whether a verdict has numbers.
pub(crate) fn is_rising<A: Allocator>(verdict: &Verdict<A>) -> bool
    ensures { result ≡ is_rising verdict.now }
{
    match verdict {
        Verdict::Rising(_) => true,
        Verdict::NoRoute(_) => false,
        Verdict::Cycle(_) => false,
    }
}

/// Judges the network of a text. A cycle is the shortest that searches in breadth find, which end where
/// they came to many channels.
///
/// Errors: out of memory.
pub fn judge_network<A: Allocator + Copy>(
    alloc: A,
    network: &Network<A>,
) -> Result<Verdict<A>, AllocError>
    ensures { IfOk result (IsVerdict network.now.table network.now.replies) }
{
    judge(
        alloc,
        network.kinds(),
        network.joins(),
        network.replies(),
        network.choices(),
    )
}

/// What is answered to a network without a source-destination pair: of no packet anything is judged.
///
/// Errors: out of memory.
pub fn no_pair<A: Allocator + Copy>(alloc: A) -> Result<Answer<A>, AllocError>
    ensures { IfOk result SaysNoPair }
{
    let mut text = Vec::new(alloc);
    text.extend_from_slice(b"no pair\n")?;
    Ok(Answer {
        text,
        rising: false,
        causes: one_cause(alloc, Cause::NoPair)?,
        kinds: Vec::new(alloc),
    })
}

/// Judges a network, and makes the text of what is judged: that it has no source-destination pair, or
/// else its verdict.
///
/// Errors: out of memory.
pub fn answered<A: Allocator + Copy>(
    alloc: A,
    network: &Network<A>,
) -> Result<Answer<A>, AllocError>
    ensures { IfOk result (TellsFixedRoutes network.now) }
{
    if network.joins().is_empty() {
        return no_pair(alloc);
    }
    let verdict = judge_network(alloc, network)?;
    let text = judged_text(alloc, network, &verdict)?;
    Ok(Answer {
        text,
        rising: is_rising(&verdict),
        causes: verdict_causes(alloc, &verdict)?,
        kinds: Vec::from_slice(alloc, network.kinds())?,
    })
}

/// Reads a network text, judges the network and answers with the text of what is judged.
///
/// Errors: the first fault of the text and its line, or `Fault::Memory` at line 0.
pub fn network_answer<A: Allocator + Copy>(alloc: A, text: &[u8]) -> Result<Answer<A>, LineFault>
    ensures { Answers (lines text.now) result }
{
    let network = read_network(alloc, text)?;
    match answered(alloc, &network) {
        Ok(answer) => Ok(answer),
        Err(_) => Err(LineFault {
            fault: Fault::Memory,
            line: 0,
        }),
    }
}
