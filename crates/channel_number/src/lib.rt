//! Channel numbers that rise along every route, and their check.
#![tactic(auto)]

pub mod checker;
pub mod laws;
pub mod number;
pub mod order;
pub mod rising;

pub use checker::check;
pub use dateline_route::{Channel, Kind};
pub use number::{number_of, numbers};
pub use order::{channel_at, channel_count, channel_index};
pub use rising::{NotRising, Rising};
