//! Why a line of a traffic text is refused.

use lexer::Reason;
use std::alloc::AllocError;
use torus::Fault;

/// Why a line of a traffic text is refused. A word of the line is named by its place, from 0.
#[derive(Clone, Copy)]
pub enum TrafficReason {
    /// The line isn't `at ROUND send FROM TO LENGTH`.
    NotPacket,
    /// The word at this place is no number, where one belongs.
    NotNumber(u32),
    /// Its round is 0, or above 2147483647.
    RoundLimits,
    /// Its packet has no flit, or more than 2147483647.
    LengthLimits,
    /// No packets go between its channels.
    NotJoined,
    /// A request for memory was refused.
    Memory,
}

impl Reason for TrafficReason {
    ghost use Rattle.network_rounds.specs.Reasons.{traffic_fault_of};

    ghost fault_of = { traffic_fault_of };

    fn fault(self) -> Fault {
        match self {
            TrafficReason::NotPacket => Fault::Line,
            TrafficReason::NotNumber(_) => Fault::Line,
            TrafficReason::RoundLimits => Fault::Range,
            TrafficReason::LengthLimits => Fault::Range,
            TrafficReason::NotJoined => Fault::Range,
            TrafficReason::Memory => Fault::Memory,
        }
    }
}

impl From<AllocError> for TrafficReason {
    ghost use Rattle.std.specs.Prelude.{◌≡◌};
    ghost use Rattle.network_rounds.specs.declared.reason.TrafficReason.TheVariants as reason;

    ghost from_gives = { λ _ made. made ≡ reason.Memory };

    fn from(_refused: AllocError) -> TrafficReason {
        TrafficReason::Memory
    }
}
