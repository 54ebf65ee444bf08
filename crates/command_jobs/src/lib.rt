//! The jobs that both programs do: reading the texts, running the command, printing its output and
//! the end of the run, and the exit status; and the version.
#![tactic(auto)]

pub mod answering;
pub mod doing;
mod hints;
pub mod naming;
pub mod printing;
pub mod progress_line;
pub mod reading;
pub mod run_end;
pub mod version;

pub use answering::{Ended, answer, is_of_commands, pace_of};
pub use doing::done;
pub use naming::{kind, names};
pub use printing::{all_printed, fault_told, flushed, tell_end_of, writer};
pub use progress_line::ProgressLine;
pub use reading::{texts_of, texts_read, unread_told};
pub use run_end::RunEnd;
pub use version::{commands_text, commands_told, version_text, version_told};
