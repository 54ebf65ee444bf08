//! Guesses an order of a trace, and checks whether it explains the trace: nothing rests on the guess.
#![tactic(auto)]

mod again;
mod choices;
pub mod deep;
mod depth;
mod due;
pub mod explained;
pub mod guess;
mod holds;
pub mod listed;
mod near;
mod needs;
pub mod pairs;
mod plan;
mod row;
mod search;
mod seen;
mod slots;
mod turns;
mod uses;
mod values;
mod walk;
pub mod words;
