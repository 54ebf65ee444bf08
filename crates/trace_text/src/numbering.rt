//! A trace over the words alone that its operations name.

ghost use Rattle.std.specs.Prelude.{IfOk, length};
ghost use Rattle.trace_laws.specs.Traces.{IsTrace};
ghost use Rattle.trace_text.specs.Findings.{trace_read};
ghost use Rattle.trace_text.specs.Kept.{IsKeptIssue};
ghost use Rattle.trace_text.specs.Renumbered.{IsRenumbered};
ghost use Rattle.trace_text.specs.Views.{trace_so_far};

use crate::linearize::{moved_events, opening_words_at};
use crate::reading::Reading;
use std::alloc::{AllocError, Allocator, Global};
use trace_laws::Event;

/// A trace whose words are numbered from 0, in the order in which its operations name them first.
#[derive(Drop)]
pub struct RenumberedTrace<A: Allocator = Global> {
    /// The opening words.
    pub opening: Vec<u64, A>,
    pub events: Vec<Event, A>,
}

impl<A: Allocator + Copy> Reading<A> {
    /// The trace over the words alone that its operations name.
    pub(crate) fn renumbered(&self, alloc: A) -> Result<RenumberedTrace<A>, AllocError>
        requires { IsKeptIssue (trace_so_far self.now) }
        ensures trace { IfOk result (λ r. IsTrace (length r.opening.items) r.events.items) }
        ensures same { IfOk result (λ r.
            IsRenumbered (trace_read (trace_so_far self.now)) r.opening.items r.events.items) }
    {
        let opening = opening_words_at(alloc, &self.head, &self.addresses)?;
        let events = moved_events(alloc, &self.places, &self.events)?;
        Ok(RenumberedTrace { opening, events })
    }
}
