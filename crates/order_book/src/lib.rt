//! The book of events that a machine keeps while it steps, and the room that its scripts need.
#![tactic(auto)]

pub mod book;
pub mod rooms;

pub use book::EventBook;
pub use one_order::Ordered;
pub use rooms::{address, all_room, home_rooms, operation_count, processor_rooms};
