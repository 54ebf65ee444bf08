//! The steps that lines of a dialogue ask for, each read as a line of a steps text is.

ghost use Rattle.std.specs.Prelude.{◌≡◌, ◌∷◌, [], is_some, map};
ghost use Rattle.torus.specs.Shape.{dims_of, tiles_of};
ghost use Rattle.script.specs.Steps.{choice_word};
ghost use Rattle.command_live.specs.Step.{if_there, of_a_port, of_no_port, step_asked};

use script::an_index;
use torus::{Choice, Fault, Step, Torus};

/// The choice of a processor or a bank that a word names.
fn of_no_port(word: &[u8]) -> Option<Choice>
    ensures { result ≡ of_no_port word.now }
{
    if word == b"send".as_slice() {
        return Some(Choice::Send);
    }
    if word == b"take".as_slice() {
        return Some(Choice::Take);
    }
    if word == b"credit".as_slice() {
        return Some(Choice::Credit);
    }
    if word == b"serve".as_slice() {
        return Some(Choice::Serve);
    }
    if word == b"done".as_slice() {
        return Some(Choice::Done);
    }
    if word == b"look".as_slice() {
        return Some(Choice::Look);
    }
    None
}

/// The choice of a router that a word names, of the input or output of this number.
fn of_a_port(word: &[u8], port: u32) -> Option<Choice>
    ensures { result ≡ of_a_port port word.now }
{
    if word == b"take".as_slice() {
        return Some(Choice::TakeFrom(port));
    }
    if word == b"put".as_slice() {
        return Some(Choice::Put(port));
    }
    if word == b"credit".as_slice() {
        return Some(Choice::CreditOf(port));
    }
    None
}

/// Whether a word names a choice of some agent.
fn is_choice(word: &[u8]) -> bool
    ensures { result ≡ is_some (choice_word word.now) }
{
    word == b"put".as_slice() || of_no_port(word).is_some()
}

/// The attempt of a choice by an agent, if the torus has the agent, and that the choice.
///
/// Errors: it has not.
fn if_there(torus: &Torus, agent: u32, choice: Option<Choice>) -> Result<Step, Fault>
    ensures { result ≡ if_there torus.now agent choice }
{
    let ports = 8 * torus.dims() + 2;
    match choice {
        Some(choice) if agent < 3 * torus.tiles() && choice.is_of(agent % 3, ports) => {
            Ok(Step { agent, choice })
        }
        _ => Err(Fault::Step),
    }
}

/// The attempt that an agent and a choice ask for.
#[tactic(auto, using(crate::proofs::Steps::step_without_port))]
fn without_port(torus: &Torus, agent: &[u8], word: &[u8]) -> Result<Step, Fault>
    ensures { result ≡ step_asked (tiles_of torus.now) (dims_of torus.now)
        (agent.now ∷ word.now ∷ []) }
{
    let agent = an_index(agent)?;
    if !is_choice(word) {
        return Err(Fault::Line);
    }
    if_there(torus, agent, of_no_port(word))
}

/// The attempt that an agent, a choice and the number of an input or output ask for.
#[tactic(auto, using(crate::proofs::Steps::step_at_port))]
fn at_port(torus: &Torus, agent: &[u8], word: &[u8], port: &[u8]) -> Result<Step, Fault>
    ensures { result ≡ step_asked (tiles_of torus.now) (dims_of torus.now)
        (agent.now ∷ word.now ∷ port.now ∷ []) }
{
    let agent = an_index(agent)?;
    if !is_choice(word) {
        return Err(Fault::Line);
    }
    let port = an_index(port)?;
    if_there(torus, agent, of_a_port(word, port))
}

/// The attempt that some words ask for.
///
/// Errors: `Fault::Line` where they aren't those of a line of a steps text; `Fault::Step` where the torus has no
/// such agent, or that has no such choice.
pub(crate) fn step_asked(torus: &Torus, words: &[&[u8]]) -> Result<Step, Fault>
    ensures { result ≡ step_asked (tiles_of torus.now) (dims_of torus.now)
        (map (λ word. word.now) words.now) }
{
    match words {
        [agent, word] => without_port(torus, agent, word),
        [agent, word, port] => at_port(torus, agent, word, port),
        [] => Err(Fault::Line),
        [_] => Err(Fault::Line),
        [_, _, _, _, ..] => Err(Fault::Line),
    }
}
