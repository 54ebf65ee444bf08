//! What a trace tells of the operations that it issues.

ghost use Rattle.std.specs.Prelude.{◌≡◌, ◌≤◌, ◌<◌, ℕ, MatchOption, length};
ghost use Rattle.trace_laws.specs.declared.event.Call.{Call};
ghost use Rattle.trace_laws.specs.Traces.{TraceIssuesAt, TraceAnswersAt};

use packet::Reply;
use trace_guess::pairs::number_at;
use trace_laws::{Call, Event};

/// A reply, and the event that tells it.
#[derive(Clone, Copy)]
pub struct Told {
    pub event: usize,
    pub reply: Reply,
}

/// The operation that event i issues, if it issues one.
pub(crate) fn issue_at(events: &[Event], i: usize) -> Option<Call>
    ensures { MatchOption result
        ((c : Call) → TraceIssuesAt events.now i c → ⊥)
        (TraceIssuesAt events.now i) }
{
    if i >= events.len() {
        return None;
    }
    match events[i] {
        Event::Issue(call) => Some(call),
        Event::Answer(..) => None,
    }
}

/// The reply of event k, if it answers the operation of this number.
fn answer_at(events: &[Event], k: usize, id: u64) -> Option<Reply>
    ensures { MatchOption result (Unit {0}) (TraceAnswersAt events.now k id) }
{
    if k >= events.len() {
        return None;
    }
    match events[k] {
        Event::Answer(other, reply) => { if other == id { Some(reply) } else { None } }
        Event::Issue(_) => None,
    }
}

/// The reply to the operation of this number, which event i issues, if the partner of that event tells it.
pub(crate) fn told_at(
    events: &[Event],
    partners: &[Option<usize>],
    i: usize,
    id: u64,
) -> Option<Told>
    ensures { MatchOption result (Unit {0}) (λ t. TraceAnswersAt events.now t.event id t.reply) }
{
    let event = number_at(partners, i)?;
    match answer_at(events, event, id) {
        Some(reply) => Some(Told { event, reply }),
        None => None,
    }
}
