//! What a trace is made of.

use packet::{Operation, Reply};

/// An operation under the number that its issue gave it.
#[derive(Clone, Copy, Debug, PartialEq, Eq)]
pub struct Call {
    /// Numbers of issues rise along a trace.
    pub id: u64,
    pub operation: Operation,
}

/// An event of a trace.
#[derive(Clone, Copy, Debug, PartialEq, Eq)]
pub enum Event {
    /// An operation is issued: its invocation.
    Issue(Call),
    /// The operation of this number is answered: its response.
    Answer(u64, Reply),
}
