//! The words that several commands take, and the limits of their numbers.

use crate::words::CommandWord;
use crate::words::CommandWord::{Argument, Optional, Usual};
use crate::words::WordKind::{Flag, Long, MachineArbiter, Number, Path};

/// The most rounds of `round` and `schedule`.
pub(crate) const MOST_ROUNDS: u32 = 1000000;

/// The most workers of `run`.
pub(crate) const MOST_WORKERS: u32 = 16;

/// The most turns of a worker.
pub(crate) const MOST_TURNS: u32 = 1000000000;

/// The most flits of a channel.
pub(crate) const MOST_DEPTH: u32 = 8;

/// The most configurations of a search, or nodes of a model.
pub(crate) const MOST_SEARCHED: u32 = 4294967295;

/// The most states of a search for outcomes.
pub(crate) const MOST_STATES: u32 = 10000000;

pub(crate) const MACHINE: CommandWord = Argument("MACHINE", Path, "The file with the machine");

pub(crate) const SCRIPT: CommandWord = Argument("SCRIPT", Path, "The file with the scripts");

pub(crate) const ROUNDS: CommandWord = Usual(
    "rounds",
    Number(1, MOST_ROUNDS),
    "At most this many rounds, 1 to 1000000",
    "1000000",
);

pub(crate) const CLOCKED: CommandWord = Optional(
    "clocked",
    Flag,
    "Clocked rounds: each attempts what is enabled when it begins",
);

pub(crate) const ARBITER: CommandWord = Optional(
    "arbiter",
    MachineArbiter,
    "With --clocked: which head an output takes, oldest (by default) or turn",
);

pub(crate) const GUARD: CommandWord = Optional(
    "guard",
    Long,
    "With --clocked: none begins while an operation is out for more rounds than this, 0 to 18446744073709551615",
);

pub(crate) const NETWORK: CommandWord = Argument("NETWORK", Path, "The file with the network");

pub(crate) const CONFIGURATIONS: CommandWord = Usual(
    "configurations",
    Number(1, MOST_SEARCHED),
    "At most this many configurations of a word, 1 to 4294967295",
    "1000000",
);

pub(crate) const SECONDS: CommandWord = Optional(
    "seconds",
    Long,
    "Widens the search for about so many seconds, 0 to 18446744073709551615",
);

pub(crate) const STATES: CommandWord = Usual(
    "states",
    Number(1, MOST_STATES),
    "At most this many states of the search, 1 to 10000000",
    "100000",
);

pub(crate) const JSON: CommandWord = Optional(
    "json",
    Flag,
    "Prints the answer as one JSON object on one line",
);
