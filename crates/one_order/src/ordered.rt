/// A row of the order of a run's operations: the service, the operation, and the numbers of its
/// events. The number of an event says how many issues, services and answers have happened up to
/// and with its step.
#[derive(Clone, Copy, Debug, PartialEq, Eq)]
pub struct Ordered {
    /// The tile of the bank that served the operation.
    pub bank: u32,
    /// The number of the service among the bank's, from 0.
    pub place: u32,
    /// The tile of the processor that issued the operation.
    pub source: u32,
    /// The operation's index among those of its processor, from 0 in the order of issue.
    pub index: u32,
    /// The number of its issue, from 1.
    pub issued: u32,
    /// The number of its service.
    pub served: u32,
    /// The number of its answer; `None` where it has none yet.
    pub answered: Option<u32>,
}
