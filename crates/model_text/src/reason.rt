//! Why a line of a log is refused.

ghost use Rattle.std.specs.Prelude.{◌≡◌};

use lexer::Reason;
use torus::Fault;
use trace_lines::LineReason;

/// What a line of a log begins with, behind its head.
#[derive(Clone, Copy)]
pub enum LogKeyword {
    Made,
    Wrote,
    Read,
    Served,
    Replied,
    Depends,
    Final,
}

/// Why a line of a log is refused.
#[derive(Clone, Copy)]
pub enum LogReason {
    /// For what it has in common with a line of a trace.
    Line(LineReason),
    /// The first word of the line is no keyword.
    UnknownKeyword,
    /// A keyword has too few or too many words behind it.
    WordCount(LogKeyword),
    /// The word behind a load is neither `from` nor `opening`.
    NotSource,
    /// There are 4194304 operations already.
    OperationsLimits,
    /// There are operations on 1048576 addresses already.
    AddressesLimits,
    /// The processor has made only so many operations.
    NotMade(usize),
    /// The operation is a fence, which neither reads nor writes.
    FenceNamed,
    /// The operation reads its word alone, where a write belongs.
    NotWrite,
    /// The operation writes its word, where a load belongs.
    NotLoad,
    /// The load and the write that it read have different words.
    OtherWord,
    /// A line before says what the operation read, or where it stands among the writes.
    SourceTwice,
    /// No line says what the operation read, or where it stands among the writes.
    SourceMissing,
    /// The reply is given already.
    RepliedTwice,
    /// No line gives the reply of an operation that reads its word, and nothing else says what it read.
    ReplyMissing,
    /// The words behind an operation's operands are no annotations, or not in their order.
    NotAnnotation,
    /// The words behind a fence aren't what it keeps in order.
    NotFenceOrder,
    /// No load reserved of its processor stands before a store conditional, or another one has it.
    NotReserved,
    /// The load reserved before a store conditional is on another word.
    ReservedWord,
    /// The word behind an operation that depends is not `on`.
    NotOn,
    /// A word names no kind of dependency.
    NotDependency,
    /// An operation doesn't stand behind the one that it depends on.
    NotBehind,
    /// The operation that another depends on gives its processor nothing.
    GivesNothing,
    /// The operation whose data depend writes nothing.
    DataOfLoad,
    /// The final word of the address is given already.
    FinalTwice,
}

impl From<LineReason> for LogReason {
    ghost use Rattle.model_text.specs.declared.reason.LogReason.TheVariants.{Line};

    ghost from_gives = { λ reason told. told ≡ Line reason };

    fn from(reason: LineReason) -> LogReason {
        LogReason::Line(reason)
    }
}

impl Reason for LogReason {
    ghost use Rattle.model_text.specs.Reasons.{log_fault_of};

    ghost fault_of = { log_fault_of };

    fn fault(self) -> Fault {
        match self {
            LogReason::Line(reason) => reason.fault(),
            LogReason::UnknownKeyword => Fault::Line,
            LogReason::WordCount(_) => Fault::Line,
            LogReason::NotSource => Fault::Line,
            LogReason::OperationsLimits => Fault::Length,
            LogReason::AddressesLimits => Fault::Length,
            LogReason::NotMade(_) => Fault::Range,
            LogReason::FenceNamed => Fault::Line,
            LogReason::NotWrite => Fault::Line,
            LogReason::NotLoad => Fault::Line,
            LogReason::OtherWord => Fault::Address,
            LogReason::SourceTwice => Fault::Setting,
            LogReason::SourceMissing => Fault::Setting,
            LogReason::RepliedTwice => Fault::Setting,
            LogReason::ReplyMissing => Fault::Setting,
            LogReason::NotAnnotation => Fault::Line,
            LogReason::NotFenceOrder => Fault::Line,
            LogReason::NotReserved => Fault::Range,
            LogReason::ReservedWord => Fault::Address,
            LogReason::NotOn => Fault::Line,
            LogReason::NotDependency => Fault::Line,
            LogReason::NotBehind => Fault::Range,
            LogReason::GivesNothing => Fault::Line,
            LogReason::DataOfLoad => Fault::Line,
            LogReason::FinalTwice => Fault::Setting,
        }
    }
}
