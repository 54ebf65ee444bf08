//! The agents of a tile with the ends of their channels: a processor, a router and a bank, and one
//! attempt of each; and laws that an attempt at its ports is a step of the tile.
#![tactic(auto)]

pub mod agent;
pub mod agents;
mod growing;
pub mod laws;
pub mod shown;

pub use agent::{Agent, agent_kind, agent_number, agent_tile};
pub use agents::TileAgents;
pub use net_interface::{Answer, Processor};
