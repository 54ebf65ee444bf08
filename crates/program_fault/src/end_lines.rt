//! Lines on standard error, behind a report on standard output, that tell how its run ended.

ghost use Rattle.std.specs.Prelude.{◌≡◌};

use sentences::{Course, EndSentence, EndedScripts, EndedSpin, SpinSentence};
use std::alloc::Allocator;
use std::fmt;

/// Which spins of the scripts ran out of loads, and how the run of a report ended; the scripts' text
/// has this name. A line for each, without the last line feed.
#[derive(Clone, Copy)]
pub struct EndLines<'a> {
    pub name: &'a str,
    pub spins: &'a [EndedSpin],
    pub end: EndSentence,
}

impl<'a> fmt::Display for EndLines<'a> {
    ghost use Rattle.std.specs.Prelude.{Some};
    ghost use Rattle.program_fault.specs.EndLines.{end_lines_text};

    ghost output = { λ lines. Some (end_lines_text lines) };

    fn fmt<W: fmt::Write>(&self, f: &mut fmt::Formatter<W>) -> fmt::Result {
        for spin in self.spins {
            let sentence = SpinSentence {
                name: self.name,
                spin: *spin,
            };
            writeln!(f, "{sentence}")?;
        }
        self.end.fmt(f)
    }
}

/// The lines on a run of scripts that ended so.
pub fn lines_of_run<'a, A: Allocator>(
    name: &'a str,
    ended: &'a EndedScripts<A>,
    finished: bool,
    course: Course,
) -> EndLines<'a>
    ensures name { result.name.now ≡ name.now }
    ensures spins { result.spins.now ≡ ended.now.spins.items }
    ensures end { result.end ≡ record {
      course = course;
      finished = finished;
      answered = ended.now.answered;
      unfinished = ended.now.unfinished;
    } }
{
    EndLines {
        name,
        spins: &ended.spins,
        end: EndSentence {
            course,
            finished,
            answered: ended.answered,
            unfinished: ended.unfinished,
        },
    }
}

/// Says which spins of the scripts ran out of loads, and how the run of a report ended; the scripts'
/// text has this name.
pub fn tell_end<R: Eprint, A: Allocator>(
    rt: &R,
    name: &str,
    ended: &EndedScripts<A>,
    finished: bool,
    course: Course,
) {
    let lines = lines_of_run(name, ended, finished, course);
    let _ = eprintln!(rt; "{lines}");
}
