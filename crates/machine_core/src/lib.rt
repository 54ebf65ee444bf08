//! The machine: how two texts load it, its tiles on the wormhole network, its steps and rounds, and
//! the one legal order of its runs.
#![tactic(auto)]

mod ages;
mod asking;
mod attempts;
mod clocked;
mod fair;
pub mod fewest_laws;
mod growing;
pub mod laws;
mod loading;
pub mod machine;
mod noting;
pub mod part;
pub mod parts;
mod routers;
mod texts;

pub use home_bank::Entry;
pub use machine::Machine;
pub use machine_parts::{TileAgents, agent_kind, agent_tile};
pub use one_order::{Answer, Ordered};
pub use parts::Parts;
pub use texts::load;
