//! What became of a run, in words.

ghost use Rattle.std.specs.Fmt.{WritesOnOk};
ghost use Rattle.std.specs.Prelude.{◌≡◌, ◌++◌, codes};
ghost use Rattle.sentences.specs.Sentences.{answered_text, begin_text, so_many, course_text};
ghost use Rattle.sentences.specs.Sentences.{plural_text, rest_text};
ghost use Rattle.sentences.specs.Sentences.{unfinished_text};

use crate::scripts::EndedSpin;
use std::fmt;

/// A spin that ran out of loads, and the name of its script text: `processor 5: the spin of
/// script.txt:7 made its 400 loads and didn't find 64`.
#[derive(Clone, Copy)]
pub struct SpinSentence<'a> {
    pub name: &'a str,
    pub spin: EndedSpin,
}

impl<'a> fmt::Display for SpinSentence<'a> {
    ghost use Rattle.std.specs.Prelude.{Some};
    ghost use Rattle.sentences.specs.Sentences.{spin_text};

    ghost output = { λ s. Some (spin_text s) };

    fn fmt<W: fmt::Write>(&self, f: &mut fmt::Formatter<W>) -> fmt::Result {
        let spin = self.spin;
        write!(
            f,
            "processor {}: the spin of {}:{} made its ",
            spin.processor, self.name, spin.line
        )?;
        put_count(f, u64::from(spin.loads), "load", " and didn't find ")?;
        write!(f, "{}", spin.wanted)
    }
}

/// What a run was made of, up to its end or to where it had to stop.
#[derive(Clone, Copy)]
pub enum Course {
    /// A list of steps, of which so many moved.
    Steps { moves: u64 },
    /// So many rounds, with so many moves in all.
    Rounds { rounds: u64, moves: u64 },
    /// Turns of workers, each of which makes so many at most.
    Turns(u64),
}

/// How a run ended: `finished: 12 rounds, 78 moves, 2 operations are answered`, or `stopped: 9 rounds,
/// 62 moves, 1 operation is answered, 3 scripts aren't finished`.
#[derive(Clone, Copy)]
pub struct EndSentence {
    pub course: Course,
    /// Whether every script is finished.
    pub finished: bool,
    /// How many operations are answered.
    pub answered: u64,
    /// How many processors have an operation that isn't answered.
    pub unfinished: u64,
}

impl EndSentence {
    /// Writes what the run was made of.
    fn put_course<W: fmt::Write>(&self, f: &mut fmt::Formatter<W>) -> fmt::Result
        ensures { WritesOnOk W.write_str_gives f.old result
            (course_text self.now.finished self.now.course) f.new }
    {
        match self.course {
            Course::Steps { moves } => put_count(f, moves, "move", ", "),
            Course::Rounds { rounds, moves } => put_rounds(f, rounds, moves),
            Course::Turns(turns) => {
                if self.finished {
                    Ok(())
                } else {
                    put_turns(f, turns)
                }
            }
        }
    }

    /// Writes how many scripts aren't finished, where one isn't.
    fn put_rest<W: fmt::Write>(&self, f: &mut fmt::Formatter<W>) -> fmt::Result
        ensures { WritesOnOk W.write_str_gives f.old result
            (rest_text self.now.finished self.now.unfinished) f.new }
    {
        if self.finished {
            Ok(())
        } else {
            self.put_unfinished(f)
        }
    }

    /// Writes how many scripts aren't finished.
    fn put_unfinished<W: fmt::Write>(&self, f: &mut fmt::Formatter<W>) -> fmt::Result
        ensures { WritesOnOk W.write_str_gives f.old result
            (unfinished_text self.now.unfinished) f.new }
    {
        match self.unfinished {
            0 => f.write_str(", not every processor has reported it"),
            1 => f.write_str(", 1 script isn't finished"),
            many => write!(f, ", {many} scripts aren't finished"),
        }
    }
}

impl fmt::Display for EndSentence {
    ghost use Rattle.std.specs.Prelude.{Some};
    ghost use Rattle.sentences.specs.Sentences.{end_text};

    ghost output = { λ s. Some (end_text s) };

    fn fmt<W: fmt::Write>(&self, f: &mut fmt::Formatter<W>) -> fmt::Result {
        f.write_str(begin_word(self.finished))?;
        self.put_course(f)?;
        put_count(f, self.answered, "operation", answered_words(self.answered))?;
        self.put_rest(f)
    }
}

/// Writes a number of things of this name, and what stands behind it.
fn put_count<W: fmt::Write>(
    f: &mut fmt::Formatter<W>,
    count: u64,
    name: &str,
    behind: &str,
) -> fmt::Result
    ensures { WritesOnOk W.write_str_gives f.old result
        (so_many count name.now behind.now) f.new }
{
    let plural = plural(count);
    write!(f, "{count} {name}{plural}{behind}")
}

/// What a name takes for so many things.
fn plural(count: u64) -> &'static str
    ensures { result.now ≡ plural_text count }
{
    if count == 1 { "" } else { "s" }
}

/// How the sentence on a run begins.
fn begin_word(finished: bool) -> &'static str
    ensures { result.now ≡ begin_text finished }
{
    if finished { "finished: " } else { "stopped: " }
}

/// What stands behind the number of operations that are answered.
fn answered_words(count: u64) -> &'static str
    ensures { result.now ≡ answered_text count }
{
    if count == 1 {
        " is answered"
    } else {
        " are answered"
    }
}

/// Writes how many rounds and moves a run was made of.
fn put_rounds<W: fmt::Write>(f: &mut fmt::Formatter<W>, rounds: u64, moves: u64) -> fmt::Result
    ensures { WritesOnOk W.write_str_gives f.old result
        (so_many rounds (codes "round") (codes ", ") ++ so_many moves (codes "move") (codes ", "))
        f.new }
{
    put_count(f, rounds, "round", ", ")?;
    put_count(f, moves, "move", ", ")
}

/// Writes how many turns each worker made.
fn put_turns<W: fmt::Write>(f: &mut fmt::Formatter<W>, turns: u64) -> fmt::Result
    ensures { WritesOnOk W.write_str_gives f.old result
        (codes "the workers made their " ++ so_many turns (codes "turn") (codes ", ")) f.new }
{
    f.write_str("the workers made their ")?;
    put_count(f, turns, "turn", ", ")
}
