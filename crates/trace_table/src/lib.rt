//! A table of operations, one on each line, with the times at which each was issued and answered; and the
//! trace text of the table.
#![tactic(auto)]

mod cells;
pub mod column;
pub mod counting;
mod hints;
mod literal;
pub mod moment;
pub mod reason;
pub mod row;
pub mod rows;
pub mod sentence;
pub mod table;
mod text;

pub use column::{Column, Columns};
pub use counting::counted;
pub use moment::Moment;
pub use reason::TableReason;
pub use row::{TableRow, TimedReply};
pub use rows::read_rows;
pub use sentence::{TableSentence, table_sentence};
pub use table::{TableTrace, read_table};
