//! Workers: each steps the tiles of a seat in a thread of its own, round after round.
#![tactic(auto)]

pub mod gate;
pub mod laws;
pub mod place;
mod router_turns;
mod turns;
pub mod watch;
pub mod worker;
pub mod working;

pub use fabric::{Fabric, Final, Machine, ProbeSeat, TileSeat, Turned};
pub use gate::Gate;
pub use watch::Watch;
pub use worker::{End, Worker};
pub use working::run_workers;
