//! Judges a trace while it comes, line by line, and ends at the first answer that no order explains: of
//! what was issued only what is open is kept.
#![tactic(auto)]

pub mod ending;
mod issuing;
pub mod open_issue;
pub mod saying;
pub mod stop;
pub mod stream;
pub mod watching;
pub mod whole;

pub use ending::{End, Ended, watch};
pub use open_issue::{Given, OpenIssue};
pub use saying::EndSentence;
pub use stop::Stop;
pub use stream::StreamReading;
pub use watching::Watching;
pub use whole::{Watched, watch_trace};
