//! The lines of a text, the words of a line, the numbers that words spell, where and why a text is
//! refused, and the words of a sentence that says so.
#![tactic(auto)]

pub mod before;
pub mod fault;
pub mod filled;
pub mod lines;
pub mod named;
pub mod number;
pub mod quoted;
pub mod refusal;
pub mod spelled;
pub mod words;

pub use before::{Before, Sought};
pub use fault::LineFault;
pub use filled::Filled;
pub use lines::{line_at, next_line};
pub use named::Named;
pub use number::{index, value};
pub use quoted::{Quoted, QuotedWords};
pub use refusal::{Reason, Refusal};
pub use spelled::{
    first_index, first_value, index_or_zero, second_index, second_value, value_or_zero,
};
pub use words::first_words;
