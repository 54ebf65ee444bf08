//! What a log says of the operations of its trace beside their kinds.

ghost use Rattle.std.specs.Prelude.{◌≡◌, ◌++◌, IfOk, OnOk, length, map, not, ◌||◌, ◌==◌};
ghost use Rattle.model_text.specs.Depends.{note_by};
ghost use Rattle.model_text.specs.Noted.{TellsNotes, dependencies_of_log, dependency_of_log};
ghost use Rattle.model_text.specs.Noted.{is_annotated, note_of_log};
ghost use Rattle.model_text.specs.Traces.{ArePlaces, numbers_of_log};
ghost use Rattle.model_text.specs.Views.{log_so_far};

use crate::log::Log;
use crate::placing::places_in;
use crate::trace::trace_spot;
use std::alloc::{AllocError, Allocator, Global};
use weak_models::notes::note_of;
use weak_models::{Dependency, Note};

/// What a log says of the operations of its trace beside their kinds, by their places there.
#[derive(Drop)]
pub struct LogNotes<A: Allocator = Global> {
    /// The note of each operation.
    pub notes: Vec<Note, A>,
    /// The dependencies.
    pub dependencies: Vec<Dependency, A>,
}

impl<A: Allocator> Log<A> {
    /// Whether a line says something of an operation beside its kind, or of a dependency.
    pub fn is_annotated(&self) -> bool
        ensures { result ≡ is_annotated (log_so_far self.now) }
    {
        !self.notes.is_empty() || !self.dependencies.is_empty()
    }
}

/// The note of the operation of a number.
fn note_of_log<A: Allocator + Copy>(
    log: &Log<A>,
    numbers: &[usize],
    places: &[usize],
    n: usize,
) -> Note
    requires numbers { numbers.now ≡ numbers_of_log (log_so_far log.now) }
    requires places { ArePlaces numbers.now (length log.now.made.items) places.now }
    ensures { result ≡ note_of_log (log_so_far log.now) n }
{
    let note = log.note_by(n);
    let pair = match note.pair {
        None => None,
        Some(reserved) => Some(trace_spot(log, numbers, places, reserved)),
    };
    Note {
        acquire: note.acquire,
        release: note.release,
        rcpc: note.rcpc,
        pair,
        fence: note.fence,
    }
}

/// Adds the notes of the operations of the log.
///
/// Errors: out of memory.
fn push_notes<A: Allocator + Copy>(
    log: &Log<A>,
    numbers: &[usize],
    places: &[usize],
    notes: &mut Vec<Note, A>,
) -> Result<(), AllocError>
    requires numbers { numbers.now ≡ numbers_of_log (log_so_far log.now) }
    requires places { ArePlaces numbers.now (length log.now.made.items) places.now }
    ensures { OnOk result (notes.new.items
        ≡ notes.old.items ++ map (note_of_log (log_so_far log.now)) numbers.now) }
{
    for i in 0..numbers.len() {
        let n = numbers[i];
        notes.push(note_of_log(log, numbers, places, n))?;
    }
    Ok(())
}

/// A dependency, by places in the trace.
fn dependency_of_log<A: Allocator + Copy>(
    log: &Log<A>,
    numbers: &[usize],
    places: &[usize],
    dependency: Dependency,
) -> Dependency
    requires numbers { numbers.now ≡ numbers_of_log (log_so_far log.now) }
    requires places { ArePlaces numbers.now (length log.now.made.items) places.now }
    ensures { result ≡ dependency_of_log (log_so_far log.now) dependency }
{
    Dependency {
        on: trace_spot(log, numbers, places, dependency.on),
        operation: trace_spot(log, numbers, places, dependency.operation),
        kind: dependency.kind,
    }
}

/// The dependencies, by places in the trace.
///
/// Errors: out of memory.
fn dependencies_of_log<A: Allocator + Copy>(
    alloc: A,
    log: &Log<A>,
    numbers: &[usize],
    places: &[usize],
) -> Result<Vec<Dependency, A>, AllocError>
    requires numbers { numbers.now ≡ numbers_of_log (log_so_far log.now) }
    requires places { ArePlaces numbers.now (length log.now.made.items) places.now }
    ensures { IfOk result (λ all. all.items ≡ dependencies_of_log (log_so_far log.now)) }
{
    let mut all = Vec::new(alloc);
    for i in 0..log.dependencies.len() {
        all.push(dependency_of_log(log, numbers, places, log.dependencies[i]))?;
    }
    Ok(all)
}

/// What a log says of the operations of its trace beside their kinds.
///
/// Errors: out of memory.
pub fn notes_of_log<A: Allocator + Copy>(alloc: A, log: &Log<A>) -> Result<LogNotes<A>, AllocError>
    ensures { IfOk result (TellsNotes (log_so_far log.now)) }
{
    let numbers = log.rows.joined(alloc)?;
    let places = places_in(alloc, &numbers, log.made.len())?;
    let bare = note_of(&[], 0);
    let mut notes = vec![in alloc; bare; log.addresses.len()]?;
    push_notes(log, &numbers, &places, &mut notes)?;
    let dependencies = dependencies_of_log(alloc, log, &numbers, &places)?;
    Ok(LogNotes {
        notes,
        dependencies,
    })
}
