//! The service of an operation.

use packet::{Operation, Reply};

/// The service of an operation of a trace, as a report says it.
#[derive(Clone, Copy)]
pub struct Service {
    pub processor: u32,
    /// The number of the operation among those of its processor, from 0.
    pub index: u64,
    pub operation: Operation,
    pub reply: Reply,
    pub bank: u32,
    /// The number of the service in its bank, from 0.
    pub place: u32,
    /// The numbers of its events.
    pub issued: u32,
    pub served: u32,
    /// `None` where the operation isn't answered.
    pub answered: Option<u32>,
}
