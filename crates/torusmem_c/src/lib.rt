//! The machine as a static library for C: each call's clauses are those of the call below it, said of what C sees.
#![tactic(auto)]

pub mod appending;
mod choice;
pub mod clocking;
pub mod events;
pub mod explaining;
pub mod models;
pub mod networks;
pub mod opening;
pub mod order;
pub mod outcome;
mod ports;
pub mod reading;
pub mod records;
mod room;
pub mod routes;
pub mod saving;
pub mod searches;
pub mod shape;
pub mod spinning;
pub mod stepping;
pub mod texts;
pub mod trace_answers;
pub mod traces;
pub mod values;
pub mod watch_cloning;
pub mod watch_saving;
pub mod watching;
