//! Why the words of a command line name no job.
ghost use Rattle.std.specs.Prelude.{◌≡◌};
ghost use Rattle.command_line.specs.Refused.{misuse_text};

use clap::Error;

/// How the options of `network`, `linearize`, `model`, `round` or `schedule` are misused.
#[derive(Clone, Copy)]
pub enum Misuse {
    /// A run and a replay are both asked for.
    RunAndReplay,
    /// A depth is given, and neither a run nor a replay is asked for.
    DepthAlone,
    /// Names are asked for where moves are, or how a replay ends.
    NamesOfMoves,
    /// A report and a small part of a trace are both asked for.
    ReportAndSmallest,
    /// A small part of a trace is asked for, and an object in place of a text.
    SmallestAndJson,
    /// Texts are given where replies alone count.
    TextsAndValues,
    /// A number of nodes is given where not replies alone count.
    NodesAlone,
    /// A small part of a log is asked for, and more.
    SmallestAlone,
    /// An arbiter or a guard is given, and rounds are in order.
    ArbiterAlone,
    /// A guard is given, and the inputs of a router go first by turns.
    GuardByTurn,
    /// A machine has no such arbiter.
    OtherArbiter,
}

/// Why the values of a subcommand name no job.
#[derive(Clone, Copy)]
pub enum NoJob {
    /// Options are misused.
    Options(Misuse),
    /// A value is missing that the command has to have.
    Missing,
}

/// Why the words of a command line name no job.
#[derive(Drop)]
pub enum NoRequest {
    /// What the parser says of them, help among it; or that memory ran out.
    Parser(Error),
    /// What is wrong with the values of a subcommand.
    Values(NoJob),
}

/// The sentence on options that are misused.
pub fn misuse_text(misuse: Misuse) -> &'static str
    ensures { result.now ≡ misuse_text misuse }
{
    match misuse {
        Misuse::RunAndReplay => "network takes --run or --replay, not both",
        Misuse::DepthAlone =>
            "--depth goes with --run or --replay: a verdict is that of every depth",
        Misuse::NamesOfMoves => "--names goes with neither --run nor --replay: it is of a verdict",
        Misuse::ReportAndSmallest => "linearize takes --report or --smallest, not both",
        Misuse::SmallestAndJson => "--smallest prints a trace text: it does not go with --json",
        Misuse::TextsAndValues => "model takes --texts or --values, not both",
        Misuse::NodesAlone => "--nodes goes with --values: without it nothing is searched",
        Misuse::SmallestAlone =>
            "--smallest of a log goes with --model alone: it prints a log text",
        Misuse::ArbiterAlone =>
            "--arbiter and --guard go with --clocked: rounds in order have no arbiter",
        Misuse::GuardByTurn => "--guard goes with the arbiter oldest, not with turn",
        Misuse::OtherArbiter => "--arbiter of a machine is oldest or turn",
    }
}
