//! Why a line of a trace text is refused.

ghost use Rattle.std.specs.Prelude.{◌≡◌};

use lexer::Reason;
use torus::Fault;
use trace_lines::LineReason;

/// What a line of a trace text begins with, behind its head.
#[derive(Clone, Copy)]
pub enum Keyword {
    Issue,
    Answer,
}

/// Why a line of a trace text is refused.
#[derive(Clone, Copy)]
pub enum TraceReason {
    /// For what it has in common with a line of a log.
    Line(LineReason),
    /// The first word of the line is no keyword.
    UnknownKeyword,
    /// A keyword has too few or too many words behind it.
    WordCount(Keyword),
    /// There are 4194304 operations already.
    OperationsLimits,
    /// There are operations on 1048576 addresses already.
    AddressesLimits,
    /// The processor has issued only so many operations.
    NotIssued(u64),
    /// The operation is answered already.
    AnsweredTwice,
}

impl From<LineReason> for TraceReason {
    ghost use Rattle.trace_text.specs.declared.reason.TraceReason.TheVariants.{Line};

    ghost from_gives = { λ reason told. told ≡ Line reason };

    fn from(reason: LineReason) -> TraceReason {
        TraceReason::Line(reason)
    }
}

impl Reason for TraceReason {
    ghost use Rattle.trace_text.specs.Reasons.{trace_fault_of};

    ghost fault_of = { trace_fault_of };

    fn fault(self) -> Fault {
        match self {
            TraceReason::Line(reason) => reason.fault(),
            TraceReason::UnknownKeyword => Fault::Line,
            TraceReason::WordCount(_) => Fault::Line,
            TraceReason::OperationsLimits => Fault::Length,
            TraceReason::AddressesLimits => Fault::Length,
            TraceReason::NotIssued(_) => Fault::Range,
            TraceReason::AnsweredTwice => Fault::Setting,
        }
    }
}
