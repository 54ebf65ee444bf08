//! The processor of a tile: it issues the operations of its script as packets, and collects their
//! answers by tags.
#![tactic(auto)]

mod granted;
mod growing;
pub mod laws;
pub mod processor;
mod record;
mod requests;
mod shown;
mod start;

pub use one_order::Answer;
pub use processor::Processor;
