//! The lines that texts of traces and of logs have in common: the first line, the number of words,
//! opening words, operations and replies; and why such a line is refused.
#![tactic(auto)]

pub mod form;
pub mod head;
pub mod number;
pub mod reason;
pub mod wording;

pub use form::{Form, reply_read, spelled_form, told_of, unwanted_reply};
pub use head::Head;
pub use number::number_at;
pub use reason::{HeadKeyword, LineReason};
