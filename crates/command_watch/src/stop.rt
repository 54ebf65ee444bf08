//! Why a watch ends.

ghost use Rattle.std.specs.Prelude.{◌≡◌};

use std::alloc::AllocError;
use trace_lines::LineReason;
use trace_text::TraceReason;
use trace_watch::Full;

/// Why a watch ends before its text does.
#[derive(Clone, Copy)]
pub enum Stop {
    /// The line is refused, or a request for memory was.
    Refused(TraceReason),
    /// No order explains the trace with the answer of the line, and one explains what comes before it.
    NoOrder,
    /// Before the answer of the line a word has more configurations than were allowed.
    TooMany,
    /// With the event of the line the events are no trace.
    NoTrace,
}

impl From<TraceReason> for Stop {
    ghost use Rattle.command_watch.specs.declared.stop.Stop.TheVariants.{Refused};

    ghost from_gives = { λ reason stop. stop ≡ Refused reason };

    fn from(reason: TraceReason) -> Stop {
        Stop::Refused(reason)
    }
}

impl From<AllocError> for Stop {
    ghost use Rattle.command_watch.specs.declared.stop.Stop.TheVariants.{Refused};
    ghost use Rattle.trace_text.specs.declared.reason.TraceReason.TheVariants.{Line};
    ghost use Rattle.trace_lines.specs.declared.reason.LineReason.TheVariants.{Memory};

    ghost from_gives = { λ _ stop. stop ≡ Refused (Line Memory) };

    fn from(_refused: AllocError) -> Stop {
        Stop::Refused(TraceReason::Line(LineReason::Memory))
    }
}

impl From<Full> for Stop {
    ghost use Rattle.command_watch.specs.Watching.{stop_of_full};

    ghost from_gives = { λ full stop. stop ≡ stop_of_full full };

    fn from(full: Full) -> Stop {
        match full {
            Full::Memory => Stop::Refused(TraceReason::Line(LineReason::Memory)),
            Full::Configurations => Stop::TooMany,
        }
    }
}
