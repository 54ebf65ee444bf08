//! The bank of a tile: its services, the list of them, and the bank as an agent.
#![tactic(auto)]

pub mod bank_agent;
pub mod entry;
mod flits_left;
pub mod laws;
pub mod service_list;
mod shown;
mod start;

pub use bank_agent::{BankAgent, is_acceptable};
pub use entry::Entry;
pub use service_list::ServiceList;
