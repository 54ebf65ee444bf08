//! The command that runs scripts by workers in threads, over texts and an output, and the line that
//! shows how far they are.
#![tactic(auto)]

pub mod by_workers;
pub mod turns_line;

pub use by_workers::{run_text, run_text_with};
pub use command_texts::Ending;
pub use history::{Gate, Open, Unwatched, Watch};
pub use turns_line::TurnsLine;
