use lexer::LineFault;
use packet::Reply;
use torus::Fault;

/// What is answered to a line of a dialogue, but for a report.
#[derive(Clone, Copy)]
pub enum Told {
    /// Nothing is.
    Nothing,
    /// A processor was handed a line; the index of the line's operation, where it is known.
    Asked(u32, Option<u32>),
    /// The reply to the operation of a processor that has this index.
    Answered(u32, u32, Reply),
    /// Every script is finished, and what was waited for has no answer.
    Idle,
    /// Whether a step moved.
    Moved(bool),
    /// So many rounds were made.
    Rounds(u64),
    /// Whether every script is finished.
    Finished(bool),
    /// The word at an address.
    Word(u32, u64),
    /// So many rows of the order of operations follow.
    Rows(u64),
    /// A record's machine stands in the place of this one.
    Loaded,
    /// There is no record: memory for it was refused.
    NoRecord,
    /// What stands at this byte of a record is no record's.
    BadByte(u64),
    /// The action of this number of a record, from 0, can't be done.
    BadAction(u64),
    /// A text of a record has this fault.
    BadText(LineFault),
    /// It can't be done, and why.
    Refused(Fault),
    /// The line is of no shape that a line has.
    BadLine,
}
