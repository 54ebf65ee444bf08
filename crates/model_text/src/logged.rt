//! An operation of a log.

use packet::{Operation, Reply};

/// What an operation read, or where it stands in its word's order of writes.
#[derive(Clone, Copy)]
pub enum Source {
    /// No line says it so far.
    Untold,
    /// It writes, and has its place in its word's order; or it is a fence, which has no word.
    Own,
    /// It read the opening word.
    Opening,
    /// It read what the operation of this number wrote.
    Write(usize),
    /// It read what the last write of its word left, or the opening word where none writes it: the line
    /// `final` says so.
    Last,
}

/// A reply of the log.
#[derive(Clone, Copy)]
pub struct Told {
    /// The line that says it.
    pub line: u64,
    /// The reply.
    pub reply: Reply,
}

/// An operation of a log.
#[derive(Clone, Copy)]
pub struct Logged {
    /// The line that made it, or the line `final`; 0 for a store of an opening word.
    pub line: u64,
    /// The processor that made it, below 4096; a final word has one of its own behind these.
    pub processor: u32,
    /// What it is; `None` for a fence.
    pub operation: Option<Operation>,
    /// The number of its word among those that occur; 0 for a fence.
    pub word: usize,
    /// What it read, or that it has its place.
    pub source: Source,
    /// Its reply, where the log has one.
    pub told: Option<Told>,
}
