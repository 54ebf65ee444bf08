//! The three input texts: machine, scripts and steps.
#![tactic(auto)]

mod attempt;
mod few;
pub mod form;
pub mod laws;
mod lists;
pub mod machine;
pub mod number;
mod plain;
mod progress;
mod reading;
pub mod reason;
pub mod scripts;
mod settings;
pub mod steps;

pub use form::{line_or_why, read_line};
pub use lexer::LineFault;
pub use machine::{MachineText, read_machine, read_machine_or_why};
pub use number::an_index;
pub use reason::{Agent, Keyword, TextReason};
pub use script_lines::{Line, LineList, Value};
pub use scripts::{Scripts, read_scripts, read_scripts_or_why};
pub use steps::{read_steps, read_steps_or_why};
