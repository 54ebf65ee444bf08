//! The texts that a command reads, why it fails, and what it prints for that on standard error; why a
//! report is bad; the status that the program ends with, and what an output has taken meanwhile.
#![tactic(auto)]

pub mod end_lines;
pub mod explaining;
pub mod fault;
pub mod fault_lines;
pub mod message;
pub mod origin;
mod pieces;
pub mod refused;
pub mod sentence;
pub mod telling;
pub mod texts;
pub mod unread;
pub mod why;

pub use end_lines::{EndLines, lines_of_run, tell_end};
pub use explaining::{UnreadLine, explain, explain_unread, unread_line};
pub use fault::{ProgramFault, finished, status_of};
pub use fault_lines::{FaultLine, Kind, ReportLine, fault_line};
pub use message::{FaultText, fault_text};
pub use origin::Origin;
pub use refused::Refused;
pub use telling::{Cause, explain_by, fault_cause, is_of_texts, named, told};
pub use texts::{Failure, Names, Texts, bytes_behind, read_texts};
pub use unread::Unread;
pub use why::{Reason, WhyBad, why_bad};
