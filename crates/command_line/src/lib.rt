//! The command line of torusmem: what its words ask for.
#![tactic(auto)]

pub mod asking;
pub mod command;
mod jobs;
mod making;
pub mod naming;
pub mod pace;
pub mod refused;
pub mod table;
mod taken;
mod values;
pub mod words;

pub use asking::{asks_commands, asks_version, request_told, words_told};
pub use command::{Job, Request, read_command, read_request};
pub use naming::name_of;
pub use pace::AskedPace;
pub use refused::{Misuse, NoJob, NoRequest, misuse_text};
pub use table::CommandTable;
