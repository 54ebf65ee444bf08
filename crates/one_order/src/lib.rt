//! What a machine shows, step by step: runs, the one legal order of their operations, and which
//! operation of a script comes next.
#![tactic(auto)]

pub mod abstract_laws;
pub mod answer;
pub mod follower;
pub mod follower_laws;
pub mod laws;
pub mod ordered;
mod spin;

pub use answer::Answer;
pub use follower::Follower;
pub use ordered::Ordered;
