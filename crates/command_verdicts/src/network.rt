//! The judge of networks, from a text to an output.

ghost use Rattle.std.specs.Prelude.{◌≡◌, IfOk, IfErr};
ghost use Rattle.std.specs.Str.Lines.{lines};
ghost use Rattle.network_text.specs.Choosing.{text_or_why};
ghost use Rattle.program_fault.specs.Done.{output};
ghost use Rattle.program_fault.specs.Refused.{by_fault_alone, IsRefusalOf};
ghost use Rattle.command_verdicts.specs.Printed.{is_chosen, named_text};
ghost use Rattle.command_verdicts.specs.Printed.{AnswersNamed, AnswersNetwork, AnswersRead, PrintsNetwork};

use network_answer::{Answer, Cause, answered_routing, routing_answer_once};
use network_names::named_verdict;
use network_text::NetworkReason;
use network_text::choosing::Routers;
use network_text::choosing_text::read_text_or_why;
use program_fault::{ProgramFault, Refused};
use report_lines::Out;
use report_lines::output::put_all;
use std::alloc::Allocator;
use torus::Fault;

/// Routers and channels have numbers below this.
const MOST_NUMBERS: usize = 65536;

/// Reads the text of a network, and judges the network.
///
/// Errors: where and why the text is refused, or out of memory.
fn judged<A: Allocator + Copy>(
    alloc: A,
    network: &[u8],
) -> Result<Answer<A>, Refused<NetworkReason>>
    ensures value { AnswersRead (lines network.now) (by_fault_alone result) }
    ensures why { IfErr result (IsRefusalOf NetworkReason.Memory
        (text_or_why Routers.AnyChoices (lines network.now))) }
{
    let read = read_text_or_why(alloc, network, Routers::AnyChoices)?;
    Ok(answered_routing(alloc, read)?)
}

/// Judges the network of a text, and prints the verdict: the numbers of its channels if they can rise, so
/// that it never deadlocks; or the first pair without a route; or a cycle of channels, and behind it the
/// channels that fill up where the network deadlocks. Where routers choose among several channels,
/// the numbers come with a line on how far packets can go, and the verdict may also be the first
/// channel without an escape, or the first choice that can't stand. Answers with what was printed, whether
/// the numbers rise, and why the verdict is so.
///
/// Errors: the text's first fault, with where and why the text is refused, or out of memory; and nothing
/// was written then. If the output fails, a beginning was written.
pub fn network_text<A: Allocator + Copy, W: Out>(
    alloc: A,
    network: &[u8],
    out: &mut W,
) -> Result<Answer<A>, Refused<NetworkReason>>
    ensures value { AnswersNetwork A (lines network.now)
        (output (W.taken out.old) (W.failures out.old))
        (output (W.taken out.new) (W.failures out.new)) (by_fault_alone result) }
    ensures why { IfErr result (IsRefusalOf NetworkReason.Memory
        (text_or_why Routers.AnyChoices (lines network.now))) }
{
    let answer = judged(alloc, network)?;
    put_all(out, &answer.text)?;
    Ok(answer)
}

/// Whether routers choose, by why a verdict is so.
fn is_chosen(causes: &[Cause]) -> bool
    ensures { result ≡ is_chosen causes.now }
{
    match causes {
        [Cause::Chooses, ..] => true,
        _ => false,
    }
}

/// The text of an answer to the text of a network, with what that calls its channels.
///
/// Errors: out of memory.
fn named_text<A: Allocator + Copy>(
    alloc: A,
    network: &[u8],
    answer: &Answer<A>,
) -> Result<Vec<u8, A>, ProgramFault>
    ensures value { IfOk result
        (λ text. text.items ≡ named_text (lines network.now) answer.now) }
    ensures memory { IfErr result (λ e. e ≡ ProgramFault.Fault Fault.Memory) }
{
    let chosen = is_chosen(&answer.causes);
    let kinds = &answer.kinds;
    match named_verdict(alloc, network, MOST_NUMBERS, kinds, chosen, &answer.text) {
        Ok(text) => Ok(text),
        Err(_) => Err(ProgramFault::Fault(Fault::Memory)),
    }
}

/// Prints the verdict on the network of a text as `network_text` does, and behind each number of a channel
/// what the text calls it. Answers as that does.
///
/// Errors: the text's first fault, with where and why the text is refused, or out of memory; and nothing
/// was written then. If the output fails, a beginning was written.
pub fn named_network_text<A: Allocator + Copy, W: Out>(
    alloc: A,
    network: &[u8],
    out: &mut W,
) -> Result<Answer<A>, Refused<NetworkReason>>
    ensures value { AnswersNamed A (lines network.now)
        (output (W.taken out.old) (W.failures out.old))
        (output (W.taken out.new) (W.failures out.new)) (by_fault_alone result) }
    ensures why { IfErr result (IsRefusalOf NetworkReason.Memory
        (text_or_why Routers.AnyChoices (lines network.now))) }
{
    let answer = judged(alloc, network)?;
    let text = named_text(alloc, network, &answer)?;
    put_all(out, &text)?;
    Ok(answer)
}

/// Prints the verdict on the network of a text as `network_text` does, and gives up the text once it is
/// read: so it takes no memory while the network is judged. Answers whether the numbers rise.
///
/// Errors: the text's first fault, or out of memory; and nothing was written then. If the output
/// fails, a beginning was written.
pub fn network_text_once<A: Allocator + Copy, W: Out>(
    alloc: A,
    network: Vec<u8, A>,
    out: &mut W,
) -> Result<bool, ProgramFault>
    ensures { PrintsNetwork A (lines network.items) (output (W.taken out.old) (W.failures out.old))
        (output (W.taken out.new) (W.failures out.new)) result }
{
    let told = routing_answer_once(alloc, network)?;
    put_all(out, &told.text)?;
    Ok(told.rising)
}
