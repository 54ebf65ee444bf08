//! How the rounds of a run are asked for.

/// How the rounds of `round` and `schedule` are made.
#[derive(Clone, Copy)]
pub enum AskedPace {
    /// In order: each choice of each agent is attempted once.
    InOrder,
    /// Clocked, where the puts of each router begin at the input whose turn it is.
    Turned,
    /// Clocked, where the oldest operation goes first, with a guard of so many rounds, or with the usual one.
    Fair(Option<u64>),
}
