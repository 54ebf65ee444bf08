//! Tiles run as threads over one shared row. Each seat knows a run of the core.
#![tactic(auto)]

pub mod asking;
mod dealing;
pub mod ending;
pub mod laws;
mod opening;
mod plays;
pub mod seats;
pub mod steps;
mod taking;
pub mod view;

pub use ending::Final;
pub use machine_core::Machine;
pub use seats::{Fabric, ProbeSeat, TileSeat};
pub use steps::Turned;
