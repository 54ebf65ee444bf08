//! What the text of a network calls its channels, and a verdict on the network with these names.
#![tactic(auto)]

pub mod called;
pub mod named;

pub use called::{Titles, titles_of};
pub use named::named_verdict;
