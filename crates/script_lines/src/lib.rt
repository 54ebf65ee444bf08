//! The lines of scripts as values: what each stands for, how many operations it issues, and which
//! machines and scripts are accepted.
#![tactic(auto)]

pub mod line;
pub mod lists;

pub use line::{Line, Value};
pub use lists::LineList;
