//! The network of a table as a machine: moves of flits and credits, one at a time, none of which
//! takes memory; and whether it is deadlocked, empty, or may still go on.
#![tactic(auto)]

mod asked;
mod attempt;
pub mod channel;
mod ending;
pub mod flit;
pub mod free;
mod hindrance;
pub mod laws;
pub mod machine;
pub mod moves;
mod opening;
mod output;
pub mod owned;
pub mod pairs;
mod run;
mod steps;

pub use channel::Channel;
pub use free::Lets;
pub use machine::Machine;
pub use moves::{Ending, Hindrance, Move, Packet};
