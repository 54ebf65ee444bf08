//! Laws of deadlock, each the contract of a function that does nothing: of packets that all have one length, of
//! endpoints that owe answers, and of networks whose routers choose.
#![tactic(auto)]

pub mod choices;
pub mod classes;
pub mod lengths;
