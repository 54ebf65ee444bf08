//! The lines of a report: their exact bytes, the writer, and the reader.
#![tactic(auto)]

mod answers;
pub mod line;
mod numbers;
mod operation;
pub mod output;
pub mod parts;
pub mod reading;
pub mod report;
mod sections;
mod shape;
pub mod shows;
mod tail;
pub mod text;

pub use line::{AnswerLine, EntryLine, OrderLine, Radices, ReportLine};
pub use output::{Out, OutputFailed, Piped};
pub use parts::{AnswerRow, EntryRow, Parts};
pub use reading::read_line;
pub use report::{Report, write_report};
pub use sections::is_newer;
pub use shows::Shows;
pub use text::{LineText, line_of};
