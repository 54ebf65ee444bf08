//! Why a line of a run text is refused.

ghost use Rattle.std.specs.Prelude.{◌≡◌};
ghost use Rattle.network_run.specs.Reasons.{move_keyword_of};

use lexer::Reason;
use network_machine::Hindrance;
use std::alloc::AllocError;
use torus::Fault;

/// What a line of a run text begins with: what the move does.
#[derive(Clone, Copy)]
pub enum MoveKeyword {
    Send,
    More,
    Take,
    Put,
    Accept,
    Credit,
}

/// Why a line of a run text is refused. A word of the line is named by its place, from 0.
#[derive(Clone, Copy)]
pub enum RunReason {
    /// The first word of the line is no keyword.
    UnknownKeyword,
    /// A keyword has too few or too many numbers behind it.
    NumberCount(MoveKeyword),
    /// The word at this place is no number, where one belongs.
    NotNumber(u32),
    /// A packet has more than 2147483647 flits.
    LengthLimits,
    /// The move may not be made, and why.
    Hindered(Hindrance),
    /// A request for memory was refused.
    Memory,
}

impl Reason for RunReason {
    ghost use Rattle.network_run.specs.Reasons.{run_fault_of};

    ghost fault_of = { run_fault_of };

    fn fault(self) -> Fault {
        match self {
            RunReason::UnknownKeyword => Fault::Line,
            RunReason::NumberCount(_) => Fault::Line,
            RunReason::NotNumber(_) => Fault::Line,
            RunReason::LengthLimits => Fault::Range,
            RunReason::Hindered(_) => Fault::Step,
            RunReason::Memory => Fault::Memory,
        }
    }
}

impl From<AllocError> for RunReason {
    ghost use Rattle.std.specs.Prelude.{◌≡◌};
    ghost use Rattle.network_run.specs.declared.reason.RunReason.TheVariants as reason;

    ghost from_gives = { λ _ made. made ≡ reason.Memory };

    fn from(_refused: AllocError) -> RunReason {
        RunReason::Memory
    }
}

impl MoveKeyword {
    /// The keyword that a word spells.
    pub fn of(word: &[u8]) -> Option<MoveKeyword>
        ensures { result ≡ move_keyword_of word.now }
    {
        if word == b"send".as_slice() {
            return Some(MoveKeyword::Send);
        }
        if word == b"more".as_slice() {
            return Some(MoveKeyword::More);
        }
        if word == b"take".as_slice() {
            return Some(MoveKeyword::Take);
        }
        if word == b"put".as_slice() {
            return Some(MoveKeyword::Put);
        }
        if word == b"accept".as_slice() {
            return Some(MoveKeyword::Accept);
        }
        if word == b"credit".as_slice() {
            return Some(MoveKeyword::Credit);
        }
        None
    }
}
