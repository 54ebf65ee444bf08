//! Packets that are sent through a network that is written down, in clocked rounds: when each is begun
//! and delivered, how many flits leave each channel and how long they wait behind it, and the text that
//! says so.
#![tactic(auto)]

pub mod answering;
pub mod course;
pub mod fates;
pub mod labels;
mod opening;
pub mod plan;
pub mod running;
pub mod waits;
pub mod watch;
mod writing;

pub use answering::{SimulationAnswer, read_packets, simulation_answer};
pub use course::{Course, MOST_ROUNDS};
pub use fates::Fates;
pub use labels::Labels;
pub use plan::Plan;
pub use running::Extent;
pub use waits::Wait;
pub use watch::Watch;
