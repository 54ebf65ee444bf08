//! The answer to a network text, of fixed routes or of routers that choose.

ghost use Rattle.std.specs.Prelude.{◌≡◌, true, IfOk};
ghost use Rattle.std.specs.Str.Lines.{lines};
ghost use Rattle.network_text.specs.ChoosingRead.{choosing_text_of, IsChoosingRead};
ghost use Rattle.network_answer.specs.Routing.{AnswersRouting, TellsChoosing, TellsRouting};
ghost use Rattle.network_text.specs.Routing.{routing_of_all};
ghost use Rattle.lexer.specs.Outcome.{Gives};
ghost use Rattle.network_text.specs.Choosing.{text_or_why};

use crate::answer::{Answer, answered, no_pair};
use crate::causes::choosing_causes;
use crate::going::last_text;
use crate::judgement::{has_circuit, judgement_text, put_may};
use crate::judging::{judgement_of, never_locks_up};
use crate::one_flit::{behind_text, is_free};
use lexer::{LineFault, Refusal};
use network_text::NetworkReason;
use network_text::choosing::{Choosing, Routers};
use network_text::choosing_text::read_text_or_why;
use network_text::network::network_read;
use std::alloc::{AllocError, Allocator};
use torus::Fault;

/// Out of memory, which is of no line.
const MEMORY: LineFault = LineFault {
    fault: Fault::Memory,
    line: 0,
};

/// Judges a network whose routers choose, and makes the text of what is judged: that it has no
/// source-destination pair, or else what is judged of it.
///
/// Errors: out of memory.
fn answered_choosing<A: Allocator + Copy>(
    alloc: A,
    network: &mut Choosing<A>,
) -> Result<Answer<A>, AllocError>
    requires read { IsChoosingRead network.old }
    requires begun { network.old.fixed.begun ≡ true }
    ensures { IfOk result (TellsChoosing (choosing_text_of network.old)) }
{
    if network.fixed.joins.is_empty() {
        return no_pair(alloc);
    }
    let ways = network.layers + 1;
    let it = judgement_of(alloc, network)?;
    let fixed = &network.fixed;
    let mut text = judgement_text(alloc, fixed, &it.judged)?;
    let behind = behind_text(alloc, fixed, ways, &it.choices, &it.marks, &it.judged)?;
    let free = is_free(fixed.flits, behind.never);
    let circuit = has_circuit(&it.judged);
    put_may(&mut text, circuit, free)?;
    text.extend_from_slice(&behind.text)?;
    let last = last_text(alloc, fixed, ways, &it.choices, &it.marks, &it.judged)?;
    text.extend_from_slice(&last)?;
    let rising = never_locks_up(&it.judged, free);
    let causes = choosing_causes(alloc, fixed, &network.escapes, &it.judged)?;
    let kinds = Vec::from_slice(alloc, &fixed.kinds)?;
    Ok(Answer {
        text,
        rising,
        causes,
        kinds,
    })
}

/// Judges the network that a text gives, of fixed routes or of routers that choose, and makes the text of
/// what is judged.
///
/// Errors: out of memory.
pub fn answered_routing<A: Allocator + Copy>(
    alloc: A,
    network: Choosing<A>,
) -> Result<Answer<A>, AllocError>
    requires read { IsChoosingRead network }
    requires begun { network.fixed.begun ≡ true }
    ensures { IfOk result (TellsRouting (routing_of_all (choosing_text_of network))) }
{
    let mut network = network;
    if network.is_fixed() {
        return answered(alloc, &network_read(network));
    }
    answered_choosing(alloc, &mut network)
}

/// Reads a network text, and gives it up.
///
/// Errors: where and why its first bad line is refused, or that a request for memory was.
fn read_and_dropped<A: Allocator + Copy>(
    alloc: A,
    text: Vec<u8, A>,
) -> Result<Choosing<A>, Refusal<NetworkReason>>
    ensures value { Gives NetworkReason.Memory choosing_text_of result
        (text_or_why Routers.AnyChoices (lines text.items)) }
    ensures read { IfOk result IsChoosingRead }
    ensures begun { IfOk result (λ c. c.fixed.begun ≡ true) }
{
    read_text_or_why(alloc, &text, Routers::AnyChoices)
}

/// Answers as `routing_answer` does, and gives up the text once it is read: so it takes no memory while
/// the network is judged.
///
/// Errors: the first fault of the text and its line, or `Fault::Memory` at line 0.
pub fn routing_answer_once<A: Allocator + Copy>(
    alloc: A,
    text: Vec<u8, A>,
) -> Result<Answer<A>, LineFault>
    ensures { AnswersRouting (lines text.items) result }
{
    let network = read_and_dropped(alloc, text)?;
    match answered_routing(alloc, network) {
        Ok(answer) => Ok(answer),
        Err(_) => Err(MEMORY),
    }
}

/// Reads a network text, judges the network and answers with the text of what is judged: as
/// `network_answer` does where its routes are fixed, and else by routers that choose.
///
/// Errors: the first fault of the text and its line, or `Fault::Memory` at line 0.
pub fn routing_answer<A: Allocator + Copy>(alloc: A, text: &[u8]) -> Result<Answer<A>, LineFault>
    ensures { AnswersRouting (lines text.now) result }
{
    let network = read_text_or_why(alloc, text, Routers::AnyChoices)?;
    match answered_routing(alloc, network) {
        Ok(answer) => Ok(answer),
        Err(_) => Err(MEMORY),
    }
}
