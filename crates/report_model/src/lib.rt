//! Logs as arrays of entries: one for each line of a log, records as C has them, or the operations of a good report, with
//! the order of each word's writes and what each load read; and which memory models they obey.
#![tactic(auto)]

pub mod answer;
mod entries;
pub mod entry;
pub mod fenced;
mod indexes;
pub mod laws;
mod lined;
pub mod log_answer;
mod made;
mod numbered;
mod program;
pub mod record;
mod records;
pub mod row;
mod rows;
pub mod run;
mod running;
mod standing;

pub use answer::{NoReportAnswer, NoTextsAnswer, answer_to_report};
pub use entry::{LineEntry, LogEntry, Named};
pub use fenced::answer_to_report_of;
pub use lined::log_of_lines;
pub use log_answer::{answer_to_entries, answer_to_lines, answer_to_records};
pub use numbered::log_of_entries;
pub use record::LogRecord;
pub use records::log_of_records;
pub use row::{ProgramStep, ReportRow};
pub use run::{RunLines, ServedLine};
