//! The agents of a tile: which tile an agent is of, and which of the tile's three it is, by its number.

ghost use Rattle.std.specs.Prelude.{◌≡◌, ◌<◌, ◌+◌, ◌*◌};
ghost use Rattle.tile.specs.Choices.{has_choice};
ghost use Rattle.tile.specs.Agents.{agent_number, agent_tile, agent_kind};

use torus::Choice;

/// Which agent of a tile.
pub enum Agent {
    /// Its processor.
    Processor,
    /// Its router.
    Router,
    /// Its bank.
    Bank,
}

impl Agent {
    /// Whether this agent has a choice, where the router has so many inputs and as many outputs.
    pub fn has_choice(self, choice: Choice, ports: u32) -> bool
        ensures { result ≡ has_choice ports self choice }
    {
        match self {
            Agent::Processor => choice.is_of(0, ports),
            Agent::Router => choice.is_of(1, ports),
            Agent::Bank => choice.is_of(2, ports),
        }
    }
}

/// The number of an agent of a tile.
#[inline(always)]
pub fn agent_number(tile: u32, agent: Agent) -> u32
    requires { tile < 64 }
    ensures value { result ≡ agent_number tile agent }
    ensures within { result < 3 * (tile + 1) }
{
    match agent {
        Agent::Processor => 3 * tile,
        Agent::Router => 3 * tile + 1,
        Agent::Bank => 3 * tile + 2,
    }
}

/// The tile of the agent of a number: tile t has the agents 3t, 3t + 1 and 3t + 2.
#[inline(always)]
pub fn agent_tile(agent: u32) -> u32
    ensures { result ≡ agent_tile agent }
{
    agent / 3
}

/// Which agent of its tile the agent of a number is: its processor, its router, its bank, in this order.
#[inline(always)]
pub fn agent_kind(agent: u32) -> Agent
    ensures { result ≡ agent_kind agent }
{
    match agent % 3 {
        0 => Agent::Processor,
        1 => Agent::Router,
        _ => Agent::Bank,
    }
}
