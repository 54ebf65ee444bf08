use std::alloc::AllocError;
use trace_text::Unfound;

/// Why it is not told which values an answer may tell.
#[derive(Clone, Copy)]
pub enum Untold {
    /// A request for memory was refused.
    Memory,
    /// As many values as were allowed had to be tried, and more.
    Values,
    /// Of one of them it isn't decided.
    Undecided(Unfound),
}

impl From<AllocError> for Untold {
    ghost use Rattle.std.specs.Prelude.{◌≡◌};
    ghost use Rattle.trace_why.specs.declared.untold.Untold.TheVariants.{Memory};

    ghost from_gives = { λ _ e. e ≡ Memory };

    fn from(_refused: AllocError) -> Untold {
        Untold::Memory
    }
}
