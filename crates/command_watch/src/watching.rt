//! A trace that is judged while its lines come.

ghost use Rattle.std.specs.Prelude.{◌≡◌, List, ℕ, [], None, IfOk};
ghost use Rattle.lexer.specs.Words.{first_words};
ghost use Rattle.trace_laws.specs.declared.event.Event.{Event};
ghost use Rattle.trace_watch.specs.Follows.{Tracks};
ghost use Rattle.command_watch.specs.Stream.{after_stream_line, nothing_streamed};
ghost use Rattle.command_watch.specs.Views.{stream_of};
ghost use Rattle.command_watch.specs.Watching.{IsKnownBefore, JudgesEvent, JudgesLine};
ghost use Rattle.command_watch.specs.Watching.{TakesStreamLine};
ghost use Rattle.command_watch.specs.Watching.{opening_of_head};

use crate::open_issue::event_of;
use crate::stop::Stop;
use crate::stream::StreamReading;
use lexer::first_words;
use std::alloc::{AllocError, Allocator};
use trace_laws::Event;
use trace_lines::Head;
use trace_watch::{Full, Seen, Watch, begin};

/// What is known of a trace whose lines come one after the other.
#[derive(Drop)]
pub struct Watching<A: Allocator> {
    /// What the lines so far gave.
    pub reading: StreamReading<A>,
    /// What is known of the events so far; none before the first event.
    pub watch: Option<Watch<A>>,
}

/// The opening words by address.
fn opening_words<A: Allocator + Copy>(alloc: A, head: &Head<A>) -> Result<Vec<u64, A>, AllocError>
    ensures { IfOk result (λ v. v.items ≡ opening_of_head head.now) }
{
    let mut words = Vec::new(alloc);
    for a in 0..head.words() {
        words.push(head.opening(a as u32))?;
    }
    Ok(words)
}

/// A watch that goes on, or one that begins with the words of a head.
fn going_on<A: Allocator + Copy>(
    alloc: A,
    head: &Head<A>,
    kept: Option<Watch<A>>,
) -> Result<Watch<A>, AllocError>
    ensures { IfOk result (λ watch. (opening : List ℕ) (trace : List Event)
        → IsKnownBefore head.now kept opening trace → Tracks opening trace watch) }
{
    match kept {
        Some(watch) => Ok(watch),
        None => {
            let opening = opening_words(alloc, head)?;
            begin(alloc, &opening)
        }
    }
}

impl<A: Allocator + Copy> Watching<A> {
    /// A watch of a text of which no line has come.
    pub fn begin(alloc: A) -> Result<Watching<A>, AllocError>
        ensures reading { IfOk result (λ begun. stream_of begun.reading ≡ nothing_streamed) }
        ensures watch { IfOk result (λ begun. begun.watch ≡ None) }
    {
        Ok(Watching {
            reading: StreamReading::none(alloc)?,
            watch: None,
        })
    }

    /// Judges an event.
    fn judge(&mut self, alloc: A, event: Event, bound: usize) -> Result<(), Stop>
        ensures reading { self.new.reading ≡ self.old.reading }
        ensures judged { JudgesEvent self.old.reading.head event bound self.old.watch
            self.new.watch result }
    {
        let mut watch = going_on(alloc, &self.reading.head, self.watch.take())?;
        let seen = watch.event(alloc, event, bound);
        self.watch = Some(watch);
        match seen? {
            Seen::Linearizable => Ok(()),
            Seen::NotLinearizable => Err(Stop::NoOrder),
            Seen::NoTrace => Err(Stop::NoTrace),
        }
    }

    /// Takes the next line, which has this number, without its end, and judges its event with at most so
    /// many configurations of a word at once.
    ///
    /// Errors: why the watch ends with this line.
    pub fn take_line(
        &mut self,
        alloc: A,
        number: u64,
        line: &[u8],
        bound: usize,
    ) -> Result<(), Stop>
        ensures { TakesStreamLine (after_stream_line (stream_of self.old.reading) number
            (first_words line.now)) bound (stream_of self.new.reading) self.old.watch
            self.new.watch result }
    {
        let (words, count) = first_words(line);
        self.reading.take(number, &words[..count])?;
        match event_of(self.reading.given) {
            Some(event) => self.judge(alloc, event, bound),
            None => Ok(()),
        }
    }
}
