//! The reader of the words, put together from the table.
ghost use Rattle.std.specs.Prelude.{◌≡◌, IfOk, false};
ghost use Rattle.clap.specs.Words.{new_app, new_rule, rule_of};
ghost use Rattle.command_line.specs.CommandLine.{app_of_command, rule_of_kind, rule_of_word};
ghost use Rattle.command_line.specs.CommandLine.{top_app, torusmem_app};
ghost use Rattle.command_line.specs.Making.{GainsWords, IsCommand};
ghost use Rattle.command_line.specs.TableRows.{named_command, taken_word};

use crate::table::{ABOUT, commands, common_words};
use crate::words::{CommandRow, CommandWord, WordKind};
use clap::builder::ValueParser;
use clap::{Arg, ArgAction, Command};
use std::alloc::{AllocError, Global};

/// What the words of the option for the texts of a run are called.
static TEXT_NAMES: [&str; 2] = ["MACHINE", "SCRIPT"];

/// The argument, as one of this kind.
fn of_kind<'a>(arg: Arg<'a>, kind: WordKind) -> Arg<'a>
    ensures rule { rule_of result ≡ rule_of_kind kind (rule_of arg.entry) }
    ensures local { result.global ≡ arg.entry.global }
{
    match kind {
        WordKind::Flag => arg.action(ArgAction::SetTrue),
        WordKind::Number(least, most) => {
            arg.value_parser(ValueParser::Signed(i64::from(least), i64::from(most)))
        }
        WordKind::Long => arg.value_parser(ValueParser::Unsigned(0, u64::MAX)),
        WordKind::RunTexts => arg.value_names(&TEXT_NAMES),
        WordKind::Path
        | WordKind::Arbiter
        | WordKind::MachineArbiter
        | WordKind::Model
        | WordKind::Replies => arg,
    }
}

/// An argument of this name, kind and help, which isn't an option as yet.
fn named<'a>(alloc: Global, name: &'static str, kind: WordKind, about: &'static str) -> Arg<'a>
    ensures rule { rule_of result ≡ rule_of_kind kind (new_rule name.now) }
    ensures local { result.global ≡ false }
{
    of_kind(Arg::new(alloc, name).help(about), kind)
}

/// The argument of a word of the table.
fn argument<'a>(alloc: Global, word: CommandWord) -> Arg<'a>
    ensures rule { rule_of result ≡ rule_of_word (taken_word word) }
    ensures local { result.global ≡ false }
{
    match word {
        CommandWord::Argument(name, kind, about) => named(alloc, name, kind, about).required(true),
        CommandWord::Required(name, kind, about) => {
            named(alloc, name, kind, about).long(name).required(true)
        }
        CommandWord::Optional(name, kind, about) => named(alloc, name, kind, about).long(name),
        CommandWord::Usual(name, kind, about, usual) => {
            named(alloc, name, kind, about)
                .long(name)
                .default_value(usual)
        }
    }
}

/// The command with these words more.
fn with_words<'a>(
    alloc: Global,
    command: Command<'a>,
    words: &[CommandWord],
) -> Result<Command<'a>, AllocError>
    ensures { IfOk result (GainsWords command.entry words.now) }
{
    let mut command = command;
    for word in words {
        command = command.arg(argument(alloc, *word))?;
    }
    Ok(command)
}

/// The subcommand of a row, with the options of all commands.
fn subcommand<'a>(alloc: Global, row: &CommandRow) -> Result<Command<'a>, AllocError>
    ensures { IfOk result (IsCommand (app_of_command (named_command row.now))) }
{
    let command = begun(alloc, row.name, row.about);
    let command = with_words(alloc, command, row.words)?;
    with_words(alloc, command, common_words())
}

/// A command of this name and help, without words as yet.
fn begun<'a>(alloc: Global, name: &'static str, about: &'static str) -> Command<'a>
    ensures { IsCommand (new_app name.now) result }
{
    Command::new(alloc, name).about(about)
}

/// The program, without subcommands as yet.
fn top<'a>(alloc: Global) -> Command<'a>
    ensures { IsCommand top_app result }
{
    Command::new(alloc, "torusmem")
        .about(ABOUT)
        .version("0.3.0")
        .subcommand_required(true)
}

/// The program with all its subcommands.
pub(crate) fn command<'a>(alloc: Global) -> Result<Command<'a>, AllocError>
    ensures { IfOk result (IsCommand torusmem_app) }
{
    let mut command = top(alloc);
    let rows = commands();
    for row in rows {
        let more = subcommand(alloc, row)?;
        command = command.subcommand(more)?;
    }
    Ok(command)
}
