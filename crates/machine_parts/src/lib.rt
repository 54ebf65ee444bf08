//! The parts of a machine beside its tiles: which agents count as awake, and what changes where a
//! line is appended.
#![tactic(auto)]

pub mod ends;
pub mod flags;
pub mod laws;
mod lines;
pub mod port_ends;
pub mod port_set;
pub mod ports;
mod refusing;
mod reports;
mod words;

pub use core_laws::{Agent, TileAgents, agent_kind, agent_number, agent_tile};
pub use ends::Ends;
pub use flags::WakeFlags;
pub use lines::{home_of, put_line};
pub use port_ends::PortEnds;
pub use port_set::PortSet;
pub use ports::RouterFlags;
pub use refusing::{refusal, sum_of};
pub use reports::take_back;
pub use words::brings_words;
