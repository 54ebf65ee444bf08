//! Judges a trace event by event while it goes on: of each word the configurations that its open
//! operations may have led to, with what those that took effect replied, and the words that were there;
//! open operations that ask the same are counted, and not named.
#![tactic(auto)]

mod arena;
mod closing;
pub mod copying;
mod glimpses;
pub mod index;
pub mod laws;
mod lowering;
mod matching;
mod pending;
mod releasing;
pub mod state;
pub mod watch;

pub use state::{Effect, Glimpse, State};
pub use watch::{Full, Seen, Watch, begin};
