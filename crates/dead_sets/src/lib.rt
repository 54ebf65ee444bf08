//! Dead sets of networks whose routers choose: the greatest, fillings, or numbers by which choices rise.
#![tactic(auto)]

pub mod cases;
pub mod dead_filling;
pub mod deciding;
pub mod filling;
pub mod greatest;
pub mod peeling;
pub mod seeking;
pub mod shrinking;
pub mod staying;
pub mod stripping;

pub use dead_filling::is_dead_filling;
pub use deciding::{Decided, decide};
pub use filling::FilledChannel;
pub use greatest::{DeadSet, greatest_dead_set};
pub use seeking::find_filling;
