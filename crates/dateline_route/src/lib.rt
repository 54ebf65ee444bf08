//! Dimension-order routes over datelines in a torus: the output that the next hop takes, and whole
//! routes from tile to tile.
#![tactic(auto)]

pub mod channel;
pub mod hop;
pub mod laws;
pub mod path;
mod ring;

pub use channel::{Channel, Input, Kind, Output};
pub use hop::next;
pub use path::route;
