//! Choices of agents, as C names them.

ghost use Rattle.std.specs.Prelude.{◌≡◌};
ghost use Rattle.torusmem_c.specs.Choices.{attempt_named, choice_named, has_choice, is_there, step_named};

use torus::{Choice, Step, Torus};

/// The choice that has this number, with the number of an input or output where it needs one.
fn choice_named(choice: u32, number: u32) -> Option<Choice>
    ensures { result ≡ choice_named choice number }
{
    match choice {
        0 => Some(Choice::Send),
        1 => Some(Choice::Take),
        2 => Some(Choice::TakeFrom(number)),
        3 => Some(Choice::Put(number)),
        4 => Some(Choice::Credit),
        5 => Some(Choice::CreditOf(number)),
        6 => Some(Choice::Serve),
        7 => Some(Choice::Done),
        8 => Some(Choice::Look),
        _ => None,
    }
}

/// The attempt of that choice by an agent; `None` exactly where no choice has the number.
#[inline(always)]
pub(crate) fn attempt_named(agent: u32, choice: u32, number: u32) -> Option<Step>
    ensures { result ≡ attempt_named agent choice number }
{
    match choice_named(choice, number) {
        Some(choice) => Some(Step { agent, choice }),
        None => None,
    }
}

/// Whether an agent of a kind, 0 a processor, 1 a router with so many inputs and outputs, 2 a bank, has a
/// choice.
fn has_choice(ports: u32, kind: u32, choice: Choice) -> bool
    ensures { result ≡ has_choice ports kind choice }
{
    match choice {
        Choice::Send => kind == 0 || kind == 2,
        Choice::Take => kind == 0 || kind == 2,
        Choice::TakeFrom(input) => kind == 1 && input < ports,
        Choice::Put(input) => kind == 1 && input < ports,
        Choice::Credit => kind == 0 || kind == 2,
        Choice::CreditOf(output) => kind == 1 && output < ports,
        Choice::Serve => kind == 2,
        Choice::Done => kind == 0,
        Choice::Look => kind == 0,
    }
}

/// Whether the torus has the agent of a step, and the agent the choice.
#[inline(always)]
fn is_there(torus: &Torus, step: Step) -> bool
    ensures { result ≡ is_there torus.now step }
{
    let ports = 8 * torus.dims() + 2;
    step.agent < 3 * torus.tiles() && has_choice(ports, step.agent % 3, step.choice)
}

/// The step of a torus that numbers name; `None` exactly where there is no such agent, or it has no such
/// choice.
#[inline(always)]
pub(crate) fn step_named(torus: &Torus, agent: u32, choice: u32, number: u32) -> Option<Step>
    ensures { result ≡ step_named torus.now agent choice number }
{
    match attempt_named(agent, choice, number) {
        Some(step) if is_there(torus, step) => Some(step),
        _ => None,
    }
}
