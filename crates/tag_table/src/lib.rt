//! The tags of a processor: which of them are out, and which operation holds each.
#![tactic(auto)]

pub mod laws;
pub mod table;

pub use table::TagTable;
pub use torus::{OpId, Tag};
