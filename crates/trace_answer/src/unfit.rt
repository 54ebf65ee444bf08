//! Why an order of a trace has no report.

use std::alloc::AllocError;

/// Why an order of a trace has no report: memory was refused, or a limit of reports is passed.
#[derive(Clone, Copy)]
pub enum Unfit {
    /// A request for memory was refused.
    Memory,
    /// There are more than 65536 words.
    Words,
    /// A processor is not below 64.
    Processors,
    /// A processor has more than 4096 operations.
    Indexes,
    /// The order has more than 65536 operations.
    Operations,
    /// There are more than 196608 events: those of the trace, and a service for each operation.
    Events,
}

impl From<AllocError> for Unfit {
    ghost use Rattle.std.specs.Prelude.{◌≡◌};
    ghost use Rattle.trace_answer.specs.declared.unfit.Unfit.TheVariants.{Memory as Refused};

    ghost from_gives = { λ _ e. e ≡ Refused };

    fn from(_refused: AllocError) -> Unfit {
        Unfit::Memory
    }
}
