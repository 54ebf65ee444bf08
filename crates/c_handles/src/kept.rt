ghost use Rattle.std.specs.Prelude.{◌≡◌, ℕ, List, IfOk, IfErr};
ghost use Rattle.trace_laws.specs.declared.event.Event.{Event};
ghost use Rattle.trace_watch.specs.Follows.{AnswersFew, Tracks, TellsFull, TellsSeen};
ghost use Rattle.trace_watch.specs.Watched.{watched};
ghost use Rattle.c_handles.specs.WatchRows.{IsSavedWatch};

use crate::watch_bytes::bytes_of_watch;
use std::alloc::{AllocError, Allocator, Global};
use std::marker::Model;
use trace_laws::Event;
use trace_watch::{Full, Seen, Watch};

/// A watch as a handle holds it: contracts see the watch.
#[derive(Drop)]
pub struct Kept<A: Allocator = Global> {
    watch: Watch<A>,
}

impl<A: Allocator> Model for Kept<A> {
    ghost use Rattle.trace_watch.specs.declared.watch.Watch.{Watch};

    ghost Value = { Watch A };

    ghost view = { λ kept. kept.watch };
}

impl<A: Allocator + Copy> Kept<A> {
    /// The watch, to be held.
    pub fn of(watch: Watch<A>) -> Kept<A>
        ensures { result ≡ watch }
    {
        Kept { watch }
    }

    /// Takes the next event, as `Watch::event` does.
    pub fn event(&mut self, alloc: A, event: Event, bound: usize) -> Result<Seen, Full>
        ensures seen { IfOk result (λ seen. (opening : List ℕ) (trace : List Event)
            → Tracks opening trace self.old → TellsSeen opening trace event self.new seen) }
        ensures same { IfErr result (λ full. (opening : List ℕ) (trace : List Event)
            → Tracks opening trace self.old → Tracks opening trace self.new) }
        ensures full { IfErr result (λ full. (opening : List ℕ) (trace : List Event)
            → Tracks opening trace self.old → TellsFull opening trace event bound full) }
        ensures few { IfOk result (λ seen. (opening : List ℕ) (trace : List Event)
            → Tracks opening trace self.old → AnswersFew trace event bound self.old) }
    {
        self.watch.event(alloc, event, bound)
    }

    /// Another watch that has seen what this one has, as `Watch::copied` makes it.
    ///
    /// Errors: out of memory alone.
    pub fn copied(&self, alloc: A) -> Result<Watch<A>, AllocError>
        ensures same { IfOk result (λ copy. watched copy ≡ watched self.now) }
        ensures follows { IfOk result (λ copy. (opening : List ℕ) (trace : List Event)
            → Tracks opening trace self.now → Tracks opening trace copy) }
    {
        self.watch.copied(alloc)
    }
    /// Its bytes, which make it again: as many as its words, its open operations and its configurations ask for,
    /// however long the trace is.
    ///
    /// Errors: out of memory alone.
    pub fn saved(&self, alloc: A) -> Result<Vec<u8, A>, AllocError>
        ensures { IfOk result (λ bytes. IsSavedWatch bytes.items (watched self.now)) }
    {
        bytes_of_watch(alloc, &self.watch)
    }
}
