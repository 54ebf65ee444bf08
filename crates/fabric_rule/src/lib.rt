//! Laws of the shared row: what a seat that knows a beginning of the longest run can tell of it,
//! and which choices of a seat are asleep.
#![tactic(auto)]

mod border;
pub mod endings;
pub mod laws;
pub mod seat_flags;
pub mod wake_laws;

pub use seat_flags::SeatFlags;
