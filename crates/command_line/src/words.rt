//! The rows of the table of commands: what a command takes, and how a row is printed.
ghost use Rattle.std.specs.Fmt.{WritesOnOk};
ghost use Rattle.std.specs.Prelude.{flat_map, map};
ghost use Rattle.command_line.specs.Printed.{apart_text, command_text, common_text, option_text};
ghost use Rattle.command_line.specs.Printed.{usual_text, word_text};
ghost use Rattle.command_line.specs.TableRows.{named_command, taken_word};

use std::fmt;

/// What the value of a word is.
#[derive(Clone, Copy)]
pub enum WordKind {
    /// None: the word is an option that stands alone.
    Flag,
    /// The name of a file.
    Path,
    /// A number of 32 bits, from the least to the most.
    Number(u32, u32),
    /// Any number of 64 bits.
    Long,
    /// The name of an arbiter of written-down networks.
    Arbiter,
    /// The name of an arbiter of machines.
    MachineArbiter,
    /// The name of a memory model.
    Model,
    /// Two names: the file with the machine of a run, and the one with its scripts.
    RunTexts,
    /// The replies of processors.
    Replies,
}

/// A word of a command by its name, the kind of its value, and what the help says of it.
#[derive(Clone, Copy)]
pub enum CommandWord {
    /// A word that has to stand at its place.
    Argument(&'static str, WordKind, &'static str),
    /// An option that has to be given.
    Required(&'static str, WordKind, &'static str),
    /// An option that may be left out.
    Optional(&'static str, WordKind, &'static str),
    /// An option whose value is the last of these texts where it isn't given.
    Usual(&'static str, WordKind, &'static str, &'static str),
}

/// A command by its name, what the help says of it, and the words that it takes, but for those of all
/// commands.
#[derive(Clone, Copy)]
pub struct CommandRow {
    pub name: &'static str,
    pub about: &'static str,
    pub words: &'static [CommandWord],
}

impl fmt::Display for WordKind {
    ghost use Rattle.std.specs.Prelude.{Some};
    ghost use Rattle.command_line.specs.Printed.{kind_text};

    ghost output = { λ kind. Some (kind_text kind) };

    fn fmt<W: fmt::Write>(&self, f: &mut fmt::Formatter<W>) -> fmt::Result {
        match *self {
            WordKind::Flag => f.write_str("-"),
            WordKind::Path => f.write_str("PATH"),
            WordKind::Number(least, most) => write!(f, "{least}..{most}"),
            WordKind::Long => f.write_str("0..18446744073709551615"),
            WordKind::Arbiter => f.write_str("rotating,turn"),
            WordKind::MachineArbiter => f.write_str("oldest,turn"),
            WordKind::Model => f.write_str("coherent,fenced,rvwmo,pso,tso,sc"),
            WordKind::RunTexts => f.write_str("MACHINE,SCRIPT"),
            WordKind::Replies => f.write_str("REPLIES"),
        }
    }
}

impl fmt::Display for CommandWord {
    ghost use Rattle.std.specs.Prelude.{Some};

    ghost output = { λ word. Some (word_text (taken_word word)) };

    fn fmt<W: fmt::Write>(&self, f: &mut fmt::Formatter<W>) -> fmt::Result {
        match *self {
            CommandWord::Argument(name, kind, about) => {
                writeln!(f, "argument {name} {kind} {about}")
            }
            CommandWord::Required(name, kind, about) => {
                writeln!(f, "required {name} {kind} {about}")
            }
            CommandWord::Optional(name, kind, about) => {
                writeln!(f, "option {name} {kind} {about}")
            }
            CommandWord::Usual(name, kind, about, usual) => {
                put_option(f, name, kind, about)?;
                put_usual(f, usual)
            }
        }
    }
}

impl fmt::Display for CommandRow {
    ghost use Rattle.std.specs.Prelude.{Some};

    ghost output = { λ row. Some (command_text (named_command row)) };

    fn fmt<W: fmt::Write>(&self, f: &mut fmt::Formatter<W>) -> fmt::Result {
        writeln!(f, "command {} {}", self.name, self.about)?;
        put_words(f, self.words)
    }
}

/// Writes the beginning of the line of an option.
fn put_option<W: fmt::Write>(
    f: &mut fmt::Formatter<W>,
    name: &str,
    kind: WordKind,
    about: &str,
) -> fmt::Result
    ensures { WritesOnOk W.write_str_gives f.old result
        (option_text name.now kind about.now) f.new }
{
    write!(f, "option {name} {kind} {about}")
}

/// Writes the end of the line of an option that is this where it isn't given.
fn put_usual<W: fmt::Write>(f: &mut fmt::Formatter<W>, usual: &str) -> fmt::Result
    ensures { WritesOnOk W.write_str_gives f.old result (usual_text usual.now) f.new }
{
    writeln!(f, " [default: {usual}]")
}

/// Writes the lines of these words.
fn put_words<W: fmt::Write>(f: &mut fmt::Formatter<W>, words: &[CommandWord]) -> fmt::Result
    ensures { WritesOnOk W.write_str_gives f.old result
        (flat_map word_text (map taken_word words.now)) f.new }
{
    for word in words {
        write!(f, "{word}")?;
    }
    Ok(())
}

/// Writes the lines of the words of all commands.
pub(crate) fn put_common<W: fmt::Write>(
    f: &mut fmt::Formatter<W>,
    words: &[CommandWord],
) -> fmt::Result
    ensures { WritesOnOk W.write_str_gives f.old result
        (flat_map common_text (map taken_word words.now)) f.new }
{
    for word in words {
        write!(f, "common {word}")?;
    }
    Ok(())
}

/// Writes the lines of these commands, an empty one before each.
pub(crate) fn put_rows<W: fmt::Write>(f: &mut fmt::Formatter<W>, rows: &[CommandRow]) -> fmt::Result
    ensures { WritesOnOk W.write_str_gives f.old result
        (flat_map apart_text (map named_command rows.now)) f.new }
{
    for row in rows {
        write!(f, "\n{row}")?;
    }
    Ok(())
}
