//! The judge of networks, as C sees it.

ghost use Rattle.std.specs.Prelude.{◌≡◌, ◌⊎◌};
ghost use Rattle.std.specs.Str.Lines.{lines};
ghost use Rattle.network_judge.specs.Verdicts.{IsVerdict};
ghost use Rattle.network_text.specs.Network.{network_of};
ghost use Rattle.torusmem_c.specs.Networks.{PutsAnswer, PutsVerdict, RefusesNetwork, TellsNetwork, TellsText};
ghost use Rattle.torusmem_c.specs.Networks.{rising_code, verdict_code};
ghost use Rattle.torusmem_c.specs.Room.{LacksMemory};

use crate::outcome::{Code, Outcome, fault_outcome, no_memory};
use crate::room::put_as;
use network_answer::{judge_network, judged_text, routing_answer};
use network_judge::Verdict;
use network_text::{Network, read_network};
use std::alloc::Global;

/// The code of a verdict.
fn verdict_code(verdict: &Verdict<Global>) -> Code
    ensures { result ≡ verdict_code verdict.now }
{
    match verdict {
        Verdict::Rising(_) => Code::Done,
        Verdict::NoRoute(_) => Code::NoRoute,
        Verdict::Cycle(_) => Code::Cycle,
    }
}

/// Puts the text of what is judged of a network into a buffer, unless memory is refused.
fn put_verdict(
    alloc: Global,
    network: &Network<Global>,
    verdict: &Verdict<Global>,
    out: &mut [u8],
) -> Outcome
    requires { IsVerdict network.now.table network.now.replies verdict.now }
    ensures { PutsVerdict network.now verdict.now out.old out.new result
        ⊎ LacksMemory out.old out.new result }
{
    match judged_text(alloc, network, verdict) {
        Ok(text) => put_as(verdict_code(verdict), text.as_slice(), out),
        Err(_) => no_memory(),
    }
}

/// Judges a network, and puts the text of what is judged into a buffer: that it has no
/// source-destination pair, or else its verdict.
fn put_judged(alloc: Global, network: &Network<Global>, out: &mut [u8]) -> Outcome
    ensures { TellsNetwork Global network.now out.old out.new result
        ⊎ LacksMemory out.old out.new result }
{
    if network.joins().is_empty() {
        return put_as(Code::NoPair, b"no pair\n", out);
    }
    match judge_network(alloc, network) {
        Ok(verdict) => put_verdict(alloc, network, &verdict, out),
        Err(_) => no_memory(),
    }
}

/// Judges the network of a text, and puts the text of the verdict into a buffer, and behind a cycle
/// that of a jam; or that the network has no source-destination pair.
///
/// Errors: the text's first fault, or out of memory. The buffer is as it was then.
#[unsafe(no_mangle)]
pub extern "C" fn torusmem_network(alloc: Global, network: &[u8], out: &mut [u8]) -> Outcome
    ensures { TellsText Global (network_of (lines network.now)) out.old out.new result
        ⊎ LacksMemory out.old out.new result }
{
    match read_network(alloc, network) {
        Ok(network) => put_judged(alloc, &network, out),
        Err(fault) => fault_outcome(fault),
    }
}

/// The code of whether the numbers of a network's channels rise.
fn rising_code(rising: bool) -> Code
    ensures { result ≡ rising_code rising }
{
    if rising { Code::Done } else { Code::NotRising }
}

/// Judges the network of a text, whose routers may choose, and puts the text that the program prints into a
/// buffer.
///
/// Errors: the text's first fault, or out of memory. The buffer is as it was then.
#[unsafe(no_mangle)]
pub extern "C" fn torusmem_network_answer(alloc: Global, network: &[u8], out: &mut [u8]) -> Outcome
    ensures { PutsAnswer (lines network.now) out.old out.new result
        ⊎ RefusesNetwork (lines network.now) out.old out.new result }
{
    match routing_answer(alloc, network) {
        Ok(answer) => put_as(rising_code(answer.rising), answer.text.as_slice(), out),
        Err(fault) => fault_outcome(fault),
    }
}
