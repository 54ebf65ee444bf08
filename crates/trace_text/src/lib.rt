//! The trace text: events of processors, in the order of time; and where and why it is refused.
#![tactic(auto)]

mod events;
pub mod issue_numbers;
pub mod issued;
pub mod laws;
pub mod line;
pub mod linearize;
pub mod numbering;
mod reading;
pub mod reason;
pub mod text;

pub use issue_numbers::IssueNumbers;
pub use issued::Issued;
pub use line::{TraceLine, read_line};
pub use linearize::{Finding, Unfound};
pub use numbering::RenumberedTrace;
pub use reason::{Keyword, TraceReason};
pub use text::{TraceText, read_trace, read_trace_or_why};
