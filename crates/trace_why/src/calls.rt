//! Operations of a trace, with the events that issue them.

ghost use Rattle.std.specs.Prelude.{◌≡◌, ◌<◌, ◌≤◌, ℕ, true, false, MatchOption, length};
ghost use Rattle.packet.specs.declared.kinds.Reply.{Reply};
ghost use Rattle.trace_laws.specs.declared.event.Call.{Call};
ghost use Rattle.trace_laws.specs.Traces.{TraceAnswersAt, TraceIssuesAt};

use trace_laws::{Call, Event};

/// An operation of a trace, and the event that issues it, counted from 0.
#[derive(Clone, Copy)]
pub struct CallAt {
    pub event: usize,
    pub call: Call,
}

/// The operation of this number, if it was issued before event k.
pub(crate) fn issue_before(events: &[Event], k: usize, id: u64) -> Option<CallAt>
    requires { k ≤ length events.now }
    ensures { MatchOption result
        ((i : ℕ) (call : Call) → i < k → TraceIssuesAt events.now i call → call.id ≡ id → ⊥)
        (λ c. (c.event < k) × TraceIssuesAt events.now c.event c.call × (c.call.id ≡ id)) }
{
    let mut i = k;
    while i > 0 {
        i -= 1;
        if let Event::Issue(call) = events[i]
            && call.id == id
        {
            return Some(CallAt { event: i, call });
        }
    }
    None
}

/// Whether the operation of this number is answered by an event from one up to another.
pub(crate) fn is_answered(events: &[Event], from: usize, to: usize, id: u64) -> bool
    requires { to ≤ length events.now }
    ensures yes { result ≡ true → (i : ℕ) × (reply : Reply) × (i < to)
        × TraceAnswersAt events.now i id reply }
    ensures no { result ≡ false → (i : ℕ) (reply : Reply) → from ≤ i → i < to
        → TraceAnswersAt events.now i id reply → ⊥ }
{
    for i in from..to {
        if let Event::Answer(other, _) = events[i]
            && other == id
        {
            return true;
        }
    }
    false
}
