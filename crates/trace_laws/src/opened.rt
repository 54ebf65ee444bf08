//! What a search keeps of a trace: the open operations, and the configurations of a word with the
//! way to each.

use crate::Call;
use packet::Reply;

/// An operation that was issued and not answered yet, with the reply that the trace will tell.
#[derive(Clone, Copy)]
pub struct Open {
    pub call: Call,
    /// `None` where the trace tells none.
    pub promise: Option<Reply>,
}

/// A word, and which of the open operations on it have taken effect: those in the slots whose bits
/// are set.
#[derive(Clone, Copy, PartialEq, Eq)]
pub struct Config {
    pub word: u64,
    pub taken: u128,
}

/// An operation that took effect, and the node of the one before it on the same word.
#[derive(Clone, Copy)]
pub struct Node {
    pub call: Call,
    pub before: Option<usize>,
}

/// A configuration, and the node of the operation that took effect last on the way to it.
#[derive(Clone, Copy)]
pub struct Branch {
    pub config: Config,
    pub trail: Option<usize>,
}
