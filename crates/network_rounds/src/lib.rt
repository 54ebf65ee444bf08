//! Clocked rounds of a network that is written down: what an arbiter chooses of the choices that are
//! enabled when a round begins is attempted once, and no round takes memory. The text of the packets that
//! are sent, each from some round on: what its lines spell, or where and why it is refused.
#![tactic(auto)]

pub mod arbiter;
mod attempting;
pub mod choices;
pub mod counting;
pub mod flags;
mod granting;
pub mod joined;
pub mod laws;
mod picking;
pub mod reading;
pub mod reason;
pub mod round;
pub mod routers;
pub mod senders;
pub mod sentence;
pub mod simulating;
mod spelling;

pub use arbiter::{Arbiter, Attempt, Grants};
pub use choices::{Part, groups_of};
pub use counting::count_moves;
pub use flags::Flags;
pub use joined::check_joined;
pub use reading::{Traffic, read_traffic};
pub use reason::TrafficReason;
pub use round::clocked_round;
pub use senders::{Timed, due_packets, queues_of, senders_of};
pub use sentence::TrafficSentence;
pub use simulating::simulate_round;
