use packet::{Op, Reply};

/// An answer that a processor has received: which of its operations it is of, and the service that
/// it tells.
#[derive(Clone, Copy, Debug, PartialEq, Eq)]
pub struct Answer {
    /// The operation's index among those of its processor, from 0 in the order of issue.
    pub index: u32,
    pub op: Op,
    pub reply: Reply,
    /// The tile of the bank that served it.
    pub bank: u32,
    /// The number of the service among the bank's, from 0.
    pub place: u32,
}
