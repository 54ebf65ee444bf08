//! Laws of traces: which orders explain one, and that a search for the order misses none and
//! invents none.
#![tactic(auto)]

pub mod event;
pub mod laws;
pub mod opened;
pub mod search_laws;

pub use event::{Call, Event};
pub use opened::{Branch, Config, Node, Open};
