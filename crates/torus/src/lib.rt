//! The shape of a k-ary n-cube torus: its tiles, their digits and neighbours, and the home of an
//! address; with the faults and the names of steps that the crates above share.
#![tactic(auto)]

pub mod fault;
pub mod laws;
pub mod shape;
pub mod step;

pub use fault::Fault;
pub use shape::{Class, Dir, Torus};
pub use step::{Choice, OpId, Step, Stepped, Tag};
