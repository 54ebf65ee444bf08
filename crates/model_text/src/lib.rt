//! The log of a memory: which operations processors made, the order of each word's writes, what each
//! load read and what was replied; as a trace that a memory model is asked of.
#![tactic(auto)]

pub mod annotation;
mod depends;
pub mod finals;
mod form;
mod kinds;
pub mod laws;
pub mod log;
pub mod logged;
mod made;
mod noted;
pub mod notes;
mod opened;
pub mod placing;
pub mod reading;
pub mod reason;
mod replies;
pub mod rows;
pub mod sources;
pub mod text;
pub mod trace;
pub mod values;
pub mod words;

pub use log::Log;
pub use logged::{Logged, Source, Told};
pub use notes::{LogNotes, notes_of_log};
pub use reason::{LogKeyword, LogReason};
pub use text::read_log;
pub use trace::{LogTrace, trace_of_log};
pub use values::{WrongReply, replies_of};
