//! The checker of reports: it accepts exactly the good reports, and finds the first bad line of
//! every other text and the rule that the line breaks; and the law that what a machine shows makes a good report.
#![tactic(auto)]

pub mod check;
mod checker;
pub mod fault;
pub mod fit;
pub mod good_laws;
pub mod laws;
mod line_rules;
mod lines;
mod looks;
mod making;
mod order_rules;
pub mod rule;
mod taking;

pub use check::{check_report, report_or_why};
pub use fault::CheckFault;
pub use fit::numbers_fit;
pub use rule::{BadReport, Kind, Rule};
