//! Fair rounds with a guard, and laws of clocked rounds by an arbiter: with a guard no operation waits for
//! ever, whatever hosts and scripts go on asking.
#![tactic(auto)]

pub mod guard;
pub mod laws;
pub mod pacing;

pub use guard::Guard;
pub use pacing::{Pace, Pacer};
