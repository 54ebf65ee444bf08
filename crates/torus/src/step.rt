ghost use Rattle.std.specs.Prelude.{◌≡◌};
ghost use Rattle.torus.specs.Choices.{has_choice, is_of_processor, is_of_router, is_of_bank};

/// A tag of a processor, 0 to 15: a request and its reply carry it.
#[derive(Clone, Copy, Debug, PartialEq, Eq)]
pub struct Tag(pub u32);

/// The index of an operation among those of its processor, from 0 in the order of issue.
#[derive(Clone, Copy, Debug, PartialEq, Eq)]
pub struct OpId(pub u32);

/// A choice of an agent. Not every agent has every choice.
#[derive(Clone, Copy, Debug, PartialEq, Eq)]
pub enum Choice {
    /// A processor or a bank puts its next flit.
    Send,
    /// A processor or a bank takes a flit.
    Take,
    /// A router takes a flit of the input of this number.
    TakeFrom(u32),
    /// A router puts the flit that it took of the input of this number.
    Put(u32),
    /// A processor or a bank looks for a credit.
    Credit,
    /// A router looks for a credit of the output of this number.
    CreditOf(u32),
    /// A bank serves a request.
    Serve,
    /// A processor reports that its script is finished.
    Done,
    /// A processor looks whether all scripts are reported.
    Look,
}

impl Choice {
    /// Whether agent `kind` of a tile has this choice: 0 is its processor, 1 its router, with so many
    /// inputs and as many outputs, 2 its bank.
    pub fn is_of(self, kind: u32, ports: u32) -> bool
        ensures { result ≡ has_choice ports kind self }
    {
        match kind {
            0 => self.is_of_processor(),
            1 => self.is_of_router(ports),
            _ => self.is_of_bank(),
        }
    }

    /// Whether a processor has it.
    fn is_of_processor(self) -> bool
        ensures { result ≡ is_of_processor self }
    {
        match self {
            Choice::Send | Choice::Take | Choice::Credit | Choice::Done | Choice::Look => true,
            _ => false,
        }
    }

    /// Whether a router with so many inputs and as many outputs has it.
    fn is_of_router(self, ports: u32) -> bool
        ensures { result ≡ is_of_router ports self }
    {
        match self {
            Choice::TakeFrom(input) => input < ports,
            Choice::Put(input) => input < ports,
            Choice::CreditOf(output) => output < ports,
            _ => false,
        }
    }

    /// Whether a bank has it.
    fn is_of_bank(self) -> bool
        ensures { result ≡ is_of_bank self }
    {
        match self {
            Choice::Take | Choice::Serve | Choice::Send | Choice::Credit => true,
            _ => false,
        }
    }
}

/// An attempt: one choice of one agent. Tile t has the agents 3t (processor), 3t + 1 (router) and
/// 3t + 2 (bank).
#[derive(Clone, Copy, Debug, PartialEq, Eq)]
pub struct Step {
    pub agent: u32,
    pub choice: Choice,
}

/// What an attempt came to.
#[derive(Clone, Copy, Debug, PartialEq, Eq)]
pub enum Stepped {
    /// The choice was enabled and was made.
    Moved,
    /// The choice was not enabled: nothing has changed.
    Idle,
}
