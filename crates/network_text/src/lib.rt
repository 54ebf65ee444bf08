//! The text of a network: its channels, who sends to whom, the routers' choices, the replies and the
//! names; where and why it is refused, and the sentence that says so.
#![tactic(auto)]

mod all_pairs;
pub mod before;
mod choice_lists;
pub mod choosing;
mod choosing_lines;
pub mod choosing_text;
mod joining;
pub mod laws;
pub mod lines;
mod naming;
pub mod network;
mod ranges;
pub mod reading;
pub mod reason;
pub mod sentence;
pub mod taking;
mod tile;
pub mod title;

pub use before::earlier_line;
pub use choosing::{Choosing, Routers, Second};
pub use choosing_text::read_text_or_why;
pub use network::{Network, read_network, read_network_or_why};
pub use reason::{Keyword, NetworkReason};
pub use sentence::{NetworkSentence, network_sentence, routing_sentence};
pub use title::Title;
