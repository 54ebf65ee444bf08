//! A whole trace that is watched, event by event.

ghost use Rattle.std.specs.Prelude.{◌≡◌, IfOk, length};
ghost use Rattle.std.specs.List.{slice_index_or};
ghost use Rattle.trace_laws.specs.Traces.{IsTrace};
ghost use Rattle.command_watch.specs.Whole.{TellsHalt, TellsWatched, watched_of};

use std::alloc::{AllocError, Allocator};
use trace_laws::Event;
use trace_text::TraceText;
use trace_watch::{Full, Seen, begin};

/// Why a watch of events ends before their end: at the event of this number, from 0.
#[derive(Clone, Copy)]
pub enum Halt {
    /// No order explains the events with it, and one explains what comes before it.
    NoOrder(usize),
    /// It answers on a word that has more configurations than were allowed.
    TooMany(usize),
}

/// What a watch of a whole trace comes to.
#[derive(Clone, Copy)]
pub enum Watched {
    /// It is linearizable.
    Linearizable,
    /// What comes before the event of this line is linearizable, and with it no more.
    No { line: u64 },
    /// It isn't decided: at the answer of this line a word has more configurations than were
    /// allowed.
    TooMany { line: u64 },
}

/// Watches a trace with at most so many configurations of a word at once, and answers why that ends
/// before the end of it, if it does.
///
/// Errors: out of memory.
fn halt_of<A: Allocator + Copy>(
    alloc: A,
    opening: &[u64],
    events: &[Event],
    bound: usize,
) -> Result<Option<Halt>, AllocError>
    requires { IsTrace (length opening.now) events.now }
    ensures { IfOk result (TellsHalt opening.now events.now bound) }
{
    let mut watch = begin(alloc, opening)?;
    for place in 0..events.len() {
        match watch.event(alloc, events[place], bound) {
            Ok(Seen::Linearizable) => {}
            Ok(Seen::NotLinearizable) => return Ok(Some(Halt::NoOrder(place))),
            Ok(Seen::NoTrace) => return Ok(Some(Halt::NoOrder(place))),
            Err(Full::Memory) => return Err(AllocError),
            Err(Full::Configurations) => return Ok(Some(Halt::TooMany(place))),
        }
    }
    Ok(None)
}

/// The line of an event, 0 where there is none.
fn line_at(lines: &[u64], event: usize) -> u64
    ensures { result ≡ slice_index_or lines.now event 0 }
{
    lines.get(event).copied().unwrap_or(0)
}

/// What a watch comes to that ends so, where events are of these lines.
fn watched_of(lines: &[u64], halt: Option<Halt>) -> Watched
    ensures { result ≡ watched_of lines.now halt }
{
    match halt {
        None => Watched::Linearizable,
        Some(Halt::NoOrder(event)) => Watched::No {
            line: line_at(lines, event),
        },
        Some(Halt::TooMany(event)) => Watched::TooMany {
            line: line_at(lines, event),
        },
    }
}

/// Watches a trace to its end, with at most so many configurations of a word at once.
///
/// Errors: out of memory.
pub fn watch_trace<A: Allocator + Copy>(
    alloc: A,
    trace: &TraceText<A>,
    bound: usize,
) -> Result<Watched, AllocError>
    ensures { IfOk result (TellsWatched trace.now bound) }
{
    let renumbered = trace.renumbered(alloc)?;
    let halt = halt_of(alloc, &renumbered.opening, &renumbered.events, bound)?;
    Ok(watched_of(trace.lines(), halt))
}
