//! Why a line is refused that traces and logs have in common.

use lexer::Reason;
use torus::Fault;

/// What the lines of a head begin with, behind the first one.
#[derive(Clone, Copy)]
pub enum HeadKeyword {
    Words,
    Init,
}

/// Why a line is refused that traces and logs have in common. A word of the line is given by its
/// place, from 0.
#[derive(Clone, Copy)]
pub enum LineReason {
    /// The first line is not the name of the format and `1`.
    NoTitle,
    /// The text ends without its first line.
    TitleMissing,
    /// A keyword of the head has too few or too many words behind it.
    WordCount(HeadKeyword),
    /// The word at this place is no number, where one belongs.
    NotNumber(u32),
    /// The word behind the processor is no operation.
    UnknownOperation,
    /// An operation has too few or too many numbers behind it.
    OperandCount,
    /// The reply is neither a number nor `ok`.
    NotReply,
    /// The line comes before the number of words.
    WordsFirst,
    /// The text ends without the number of words.
    WordsMissing,
    /// The number of words is given already.
    WordsTwice,
    /// The number of words is not 1 to 2^32.
    WordsLimits,
    /// The opening word comes behind an operation.
    InitLate,
    /// An opening word of this address is given already.
    InitTwice,
    /// The processor is not below 4096.
    ProcessorLimits,
    /// The address at this place is not below this number of words.
    AddressLimits(u32, u64),
    /// The value at this place is not below 2^64.
    ValueLimits(u32),
    /// `ok` is the reply of an operation that is no store.
    OkUnwanted,
    /// A number is the reply of a store.
    NumberUnwanted,
    /// A request for memory was refused while the text was read.
    Memory,
}

impl Reason for LineReason {
    ghost use Rattle.trace_lines.specs.Reasons.{fault_of_line_reason};

    ghost fault_of = { fault_of_line_reason };

    fn fault(self) -> Fault {
        match self {
            LineReason::NoTitle => Fault::Line,
            LineReason::TitleMissing => Fault::Line,
            LineReason::WordCount(_) => Fault::Line,
            LineReason::NotNumber(_) => Fault::Line,
            LineReason::UnknownOperation => Fault::Line,
            LineReason::OperandCount => Fault::Line,
            LineReason::NotReply => Fault::Line,
            LineReason::WordsFirst => Fault::Setting,
            LineReason::WordsMissing => Fault::Setting,
            LineReason::WordsTwice => Fault::Setting,
            LineReason::WordsLimits => Fault::Range,
            LineReason::InitLate => Fault::Setting,
            LineReason::InitTwice => Fault::Setting,
            LineReason::ProcessorLimits => Fault::Processor,
            LineReason::AddressLimits(_, _) => Fault::Address,
            LineReason::ValueLimits(_) => Fault::Range,
            LineReason::OkUnwanted => Fault::Line,
            LineReason::NumberUnwanted => Fault::Line,
            LineReason::Memory => Fault::Memory,
        }
    }
}
