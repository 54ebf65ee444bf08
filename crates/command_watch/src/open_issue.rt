//! The operations that aren't answered yet.

ghost use Rattle.std.specs.Prelude.{◌≡◌};
ghost use Rattle.std.specs.List.{position, slice_index_or};
ghost use Rattle.std.specs.Prelude.{slice_set};
ghost use Rattle.command_watch.specs.Stream.{event_of, is_issue_of};

use packet::Reply;
use trace_laws::{Call, Event};

/// An operation that isn't answered yet.
#[derive(Clone, Copy)]
pub struct OpenIssue {
    /// The processor that issued it, below 4096.
    pub processor: u32,
    /// How many operations of this processor were issued before.
    pub index: u64,
    pub call: Call,
    /// The line that issued it.
    pub line: u64,
}

/// What a line gives to be judged.
#[derive(Clone, Copy)]
pub enum Given {
    /// Nothing is.
    Nothing,
    /// An operation is issued.
    Issue(OpenIssue),
    /// An operation is answered.
    Answer(OpenIssue, Reply),
}

/// The event that a line gives, if it gives one.
pub(crate) fn event_of(given: Given) -> Option<Event>
    ensures { result ≡ event_of given }
{
    match given {
        Given::Nothing => None,
        Given::Issue(issue) => Some(Event::Issue(issue.call)),
        Given::Answer(issue, reply) => Some(Event::Answer(issue.call.id, reply)),
    }
}

/// The place of the operation of a processor and an index.
pub(crate) fn place_of(pending: &[OpenIssue], p: u32, index: u128) -> Option<usize>
    ensures { result ≡ position (is_issue_of p index) pending.now }
{
    pending.iter().position(|issue| issue.processor == p && issue.index as u128 == index)
}

/// How many operations a processor has issued.
pub(crate) fn count_of(counts: &[u64], p: u32) -> u64
    ensures { result ≡ slice_index_or counts.now p 0 }
{
    counts.get(p as usize).copied().unwrap_or(0)
}

/// Sets how many operations a processor has issued.
pub(crate) fn set_count_of(counts: &mut [u64], p: u32, count: u64)
    ensures { counts.new ≡ slice_set counts.old p count }
{
    if (p as usize) < counts.len() {
        counts[p as usize] = count;
    }
}
