//! The command that holds a dialogue with a machine: what each line asks for, what the machine does
//! for it, and the text of each answer.
#![tactic(auto)]

pub mod command;
pub mod dialogue;
pub mod obeying;
pub mod reading;
mod rows;
pub mod said;
mod step;
pub mod text;
pub mod told;

pub use command::Command;
pub use dialogue::{converse, respond};
pub use machine_record::RecordedMachine;
pub use obeying::obey;
pub use reading::{read_command, second_word};
pub use said::{Said, put_said};
pub use text::{ToldText, told_text};
pub use told::Told;
