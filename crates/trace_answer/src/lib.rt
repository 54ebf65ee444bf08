//! What is printed of a trace that is judged: its order, a line for each operation, or the report
//! of a machine that served it so, or why there is none; and a small part of it without an order.
#![tactic(auto)]

mod beginnings;
mod broken;
pub mod closed;
mod contents;
pub mod counts;
mod fit;
pub mod laws;
pub mod leaving;
pub mod line;
mod noted;
mod numbers;
pub mod order;
pub mod part;
mod part_lines;
pub mod report;
pub mod service;
mod services;
mod shape;
pub mod shrunk;
pub mod smallest;
pub mod times;
pub mod unfit;
mod words;
mod written;

pub use line::{LineText, not_linearizable, not_linearizable_by, undecided};
pub use order::write_order;
pub use report::report_of_order;
pub use shrunk::{ShrunkTrace, shrunk_trace};
pub use smallest::{SmallPart, smallest_trace};
pub use unfit::Unfit;
