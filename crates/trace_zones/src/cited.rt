//! The events that a certificate cites.

ghost use Rattle.std.specs.Prelude.{◌≡◌, ◌++◌, IfOk, OnOk};
ghost use Rattle.trace_zones.specs.Cited.{cited_events, first_cited, listed_event, second_cited};

use crate::conflict::{Before, Conflict};
use std::alloc::{AllocError, Allocator};

impl Before {
    /// The event that issues what sees the first set, if one does.
    pub fn first(self) -> Option<usize>
        ensures { result ≡ first_cited self }
    {
        match self {
            Before::Times { first, .. } => Some(first),
            Before::Atomic { event } => Some(event),
            Before::Opening { .. } => None,
        }
    }

    /// The event that issues what sees the second set.
    pub fn second(self) -> usize
        ensures { result ≡ second_cited self }
    {
        match self {
            Before::Times { second, .. } => second,
            Before::Atomic { event } => event,
            Before::Opening { event } => event,
        }
    }
}

/// Adds an event, if there is one.
fn add<A: Allocator>(events: &mut Vec<usize, A>, event: Option<usize>) -> Result<(), AllocError>
    ensures { OnOk result (events.new.items ≡ events.old.items ++ listed_event event) }
{
    if let Some(event) = event {
        events.push(event)?;
    }
    Ok(())
}

/// The events that a certificate cites: each issues an operation. Of a zone the one that may enter it comes first, then
/// those that see it.
pub fn cited_events<A: Allocator, B: Allocator>(
    alloc: A,
    conflict: &Conflict<B>,
) -> Result<Vec<usize, A>, AllocError>
    ensures { IfOk result (λ events. events.items ≡ cited_events conflict.now) }
{
    let mut events = Vec::new(alloc);
    match conflict {
        Conflict::Crossed {
            one,
            other,
            before,
            behind,
        } => {
            add(&mut events, one.entry)?;
            add(&mut events, before.first())?;
            add(&mut events, Some(behind.second()))?;
            add(&mut events, other.entry)?;
            add(&mut events, behind.first())?;
            add(&mut events, Some(before.second()))?;
        }
        Conflict::Early { zone, writer } => {
            add(&mut events, Some(zone.reader))?;
            add(&mut events, Some(*writer))?;
        }
        Conflict::Unwritten { zone } => add(&mut events, Some(zone.reader))?,
        Conflict::Twice {
            zone,
            first,
            second,
        } => {
            add(&mut events, zone.entry)?;
            add(&mut events, Some(*first))?;
            add(&mut events, Some(*second))?;
        }
    }
    Ok(events)
}
