//! The table of the commands: the reader of words is made of it, and `--commands` prints it.
ghost use Rattle.std.specs.Fmt.{WritesOnOk};
ghost use Rattle.std.specs.Prelude.{◌≡◌, map};
ghost use Rattle.command_line.specs.Printed.{program_text};
ghost use Rattle.command_line.specs.Table.{commands, common_words};
ghost use Rattle.command_line.specs.TableRows.{named_command, taken_word};

use crate::taken::{
    ARBITER, CLOCKED, CONFIGURATIONS, GUARD, JSON, MACHINE, MOST_DEPTH, MOST_SEARCHED, MOST_TURNS,
    MOST_WORKERS, NETWORK, ROUNDS, SCRIPT, SECONDS, STATES,
};
use crate::words::CommandWord::{Argument, Optional, Required, Usual};
use crate::words::WordKind::{Arbiter, Flag, Long, Model, Number, Path, Replies, RunTexts};
use crate::words::{CommandRow, CommandWord, put_common, put_rows};
use std::fmt;

/// What the program is.
pub(crate) const ABOUT: &str = "A shared memory spread over a torus of tiles";

const COMMON: [CommandWord; 1] = [Optional(
    "explain",
    Flag,
    "Explains what is wrong, or how a run ended, on further lines",
)];

const ROWS: [CommandRow; 16] = [
    CommandRow {
        name: "steps",
        about: "Runs the listed steps and prints the report",
        words: &[
            MACHINE,
            SCRIPT,
            Argument("STEPS", Path, "The file with the steps"),
            Optional("moves", Flag, "Prints the steps that moved, not the report"),
        ],
    },
    CommandRow {
        name: "round",
        about: "Runs in rounds until every script is finished, and prints the report",
        words: &[MACHINE, SCRIPT, ROUNDS, CLOCKED, ARBITER, GUARD],
    },
    CommandRow {
        name: "run",
        about: "Runs in threads until every script is finished, and prints the report",
        words: &[
            MACHINE,
            SCRIPT,
            Usual(
                "workers",
                Number(1, MOST_WORKERS),
                "The number of worker threads, 1 to 16",
                "1",
            ),
            Usual(
                "turns",
                Number(1, MOST_TURNS),
                "At most this many turns each, 1 to 1000000000",
                "1000000000",
            ),
        ],
    },
    CommandRow {
        name: "live",
        about: "Reads requests from standard input, and answers them line by line",
        words: &[MACHINE],
    },
    CommandRow {
        name: "schedule",
        about: "Runs in rounds until every script is finished, and prints the moves as steps",
        words: &[MACHINE, SCRIPT, ROUNDS, CLOCKED, ARBITER, GUARD],
    },
    CommandRow {
        name: "draw",
        about: "Makes random moves until every script is finished, and prints them as steps",
        words: &[
            MACHINE,
            SCRIPT,
            Required("seed", Long, "The random seed, 0 to 18446744073709551615"),
            Optional(
                "steps",
                Long,
                "At most this many moves, 0 to 18446744073709551615; no limit by default",
            ),
        ],
    },
    CommandRow {
        name: "outcomes",
        about: "Finds all outcomes of the scripts, over every schedule",
        words: &[
            MACHINE,
            SCRIPT,
            STATES,
            Optional(
                "run",
                Long,
                "Prints the steps of a run to the outcome of this number, from 0, not the outcomes",
            ),
        ],
    },
    CommandRow {
        name: "reach",
        about: "Prints the steps of a run with these replies, or that no schedule gives them",
        words: &[
            MACHINE,
            SCRIPT,
            Required(
                "answer",
                Replies,
                "The replies of each processor, parted by /; * is any reply",
            ),
            STATES,
        ],
    },
    CommandRow {
        name: "route",
        about: "Prints the channels of a route and their numbers",
        words: &[
            MACHINE,
            Argument("SRC", Number(0, 4294967295), "The tile that sends"),
            Argument("DST", Number(0, 4294967295), "The tile that receives"),
            Optional("reply", Flag, "The route of a reply, not of a request"),
        ],
    },
    CommandRow {
        name: "channels",
        about: "Prints the number of each channel, and checks that they rise along every route",
        words: &[MACHINE],
    },
    CommandRow {
        name: "check",
        about: "Checks a report",
        words: &[Argument("REPORT", Path, "The file with the report")],
    },
    CommandRow {
        name: "network",
        about: "Judges a network: free of deadlock, a pair without a route, or a cycle that can deadlock",
        words: &[
            NETWORK,
            Optional(
                "run",
                Flag,
                "Prints the run by which it deadlocks, move by move",
            ),
            Optional(
                "replay",
                Path,
                "Replays the run of this file, and prints how it ends",
            ),
            Optional(
                "depth",
                Number(1, MOST_DEPTH),
                "How many flits a channel holds in a run, 1 to 8; 1 by default",
            ),
            Optional(
                "names",
                Flag,
                "Puts what the file calls a channel behind its number in a verdict",
            ),
            JSON,
        ],
    },
    CommandRow {
        name: "simulate",
        about: "Sends packets through a network in clocked rounds, and prints when each arrives",
        words: &[
            NETWORK,
            Argument("TRAFFIC", Path, "The file with the packets"),
            Usual(
                "depth",
                Number(1, MOST_DEPTH),
                "How many flits a channel holds, 1 to 8",
                "1",
            ),
            Usual(
                "arbiter",
                Arbiter,
                "Which head an output takes: rotating (round robin) or turn",
                "rotating",
            ),
        ],
    },
    CommandRow {
        name: "linearize",
        about: "Judges a trace: an order that explains it, no such order, or undecided",
        words: &[
            Argument("TRACE", Path, "The file with the trace"),
            CONFIGURATIONS,
            SECONDS,
            Optional("report", Flag, "Prints the order as a report"),
            Optional("smallest", Flag, "Prints a small part that has no order"),
            JSON,
        ],
    },
    CommandRow {
        name: "watch",
        about: "Judges a trace online, and ends at the first answer that no order explains",
        words: &[
            Argument(
                "TRACE",
                Path,
                "The file with the trace, or - for standard input",
            ),
            CONFIGURATIONS,
            JSON,
        ],
    },
    CommandRow {
        name: "model",
        about: "Judges a log or report by memory models, and prints the cycle of the weakest that fails",
        words: &[
            Argument("LOG", Path, "The file with the log or the report"),
            Usual(
                "model",
                Model,
                "The model that decides the status: coherent, fenced, rvwmo, pso, tso or sc",
                "sc",
            ),
            Optional(
                "order",
                Flag,
                "Prints an order of the strongest model that holds, too",
            ),
            Optional(
                "texts",
                RunTexts,
                "The machine and scripts whose run the report shows, so that their fences count",
            ),
            Optional(
                "values",
                Flag,
                "Judges by replies alone, without an order of writes",
            ),
            Optional(
                "nodes",
                Number(1, MOST_SEARCHED),
                "At most this many nodes a model with --values, 1 to 4294967295; 10000 by default",
            ),
            Optional(
                "smallest",
                Flag,
                "Prints a small part of a log that breaks the weakest model that fails",
            ),
            JSON,
        ],
    },
];

/// The options of all commands.
pub(crate) fn common_words() -> &'static [CommandWord]
    ensures { map taken_word result.now ≡ common_words }
{
    &COMMON
}

/// The commands, in the order of the help.
pub(crate) fn commands() -> &'static [CommandRow]
    ensures { map named_command result.now ≡ commands }
{
    &ROWS
}

/// Writes the line that says what the program is.
fn put_about<W: fmt::Write>(f: &mut fmt::Formatter<W>) -> fmt::Result
    ensures { WritesOnOk W.write_str_gives f.old result program_text f.new }
{
    writeln!(f, "program {ABOUT}")
}

/// The table as text: a line `program TEXT`, one for each option of all commands, and behind an empty
/// line those of each command and of its words. launcher/commands.txt has them, too.
#[derive(Clone, Copy)]
pub struct CommandTable;

impl fmt::Display for CommandTable {
    ghost use Rattle.std.specs.Prelude.{Some};
    ghost use Rattle.command_line.specs.Printed.{commands_text};

    ghost output = { λ _. Some commands_text };

    fn fmt<W: fmt::Write>(&self, f: &mut fmt::Formatter<W>) -> fmt::Result {
        put_about(f)?;
        put_common(f, common_words())?;
        put_rows(f, commands())
    }
}
