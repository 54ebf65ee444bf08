//! The report of a machine, and of whatever else is reached by steps from a load.
#![tactic(auto)]

pub mod answers;
pub mod reached;
pub mod run;
mod told;

pub use answers::answers_of;
pub use machine_core::{Answer, Entry, Machine};
pub use reached::Reached;
pub use report_check::{CheckFault, check_report};
pub use report_lines::{
    AnswerLine, AnswerRow, EntryLine, EntryRow, LineText, OrderLine, Out, OutputFailed, Parts,
    Piped, Radices, Report, ReportLine, line_of, write_report,
};
pub use run::of_run;
