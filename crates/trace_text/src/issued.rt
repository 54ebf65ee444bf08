use packet::{Operation, Reply};

/// An operation that a trace text issues.
#[derive(Clone, Copy)]
pub struct Issued {
    /// The processor that issues it, below 4096.
    pub processor: u32,
    /// How many operations of this processor were issued before.
    pub index: u64,
    pub operation: Operation,
    /// `None` where the text has no answer.
    pub reply: Option<Reply>,
}
