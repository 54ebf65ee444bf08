//! A machine that is asked for operations while it runs, and tells the index of each.
#![tactic(auto)]

mod answers;
pub mod asked;
mod clocked;
mod flags;
pub mod laws;
mod opening;
mod wait;

pub use asked::AskedMachine;
pub use machine_core::Machine;
pub use opening::OpenedMachine;
