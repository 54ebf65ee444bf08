//! The router of a tile: it holds a latch for each input, and sends each packet on by the output
//! that its head flit chooses.
#![tactic(auto)]

mod latches;
pub mod laws;
mod outputs;
mod owners;
mod ports;
mod receiving;
mod ring;
pub mod router;
mod sending;
mod start;
mod steering;

pub use router::Router;
