//! Looks things up in a trace.

ghost use Rattle.std.specs.Prelude.{◌≡◌, ◌<◌, ◌≤◌, ℕ, true, None, MatchOption, length};
ghost use Rattle.packet.specs.declared.kinds.Op.TheVariants.{Load};
ghost use Rattle.packet.specs.declared.kinds.Reply.{Reply};
ghost use Rattle.trace_laws.specs.declared.event.Call.{Call};
ghost use Rattle.trace_laws.specs.Traces.{TraceAnswersAt, TraceIssuesAt};
ghost use Rattle.trace_judge.specs.Slots.{IsBegunSlot};

use packet::{Op, Reply};
use trace_laws::{Call, Event};

/// The reply to the operation of this number, if it is answered from this event on.
pub fn promise_of(events: &[Event], from: usize, id: u64) -> Option<Reply>
    ensures { MatchOption result
        ((i : ℕ) (reply : Reply) → from ≤ i → TraceAnswersAt events.now i id reply → ⊥)
        (λ reply. (i : ℕ) × (from ≤ i) × TraceAnswersAt events.now i id reply) }
{
    for i in from..events.len() {
        if let Event::Answer(other, reply) = events[i]
            && other == id
        {
            return Some(reply);
        }
    }
    None
}

/// The operation of this number, if it was issued before event k.
pub fn issue_of(events: &[Event], k: usize, id: u64) -> Option<Call>
    requires { k ≤ length events.now }
    ensures { MatchOption result
        ((i : ℕ) (call : Call) → i < k → TraceIssuesAt events.now i call → call.id ≡ id → ⊥)
        (λ call. (i : ℕ) × (i < k) × TraceIssuesAt events.now i call × (call.id ≡ id)) }
{
    let mut i = k;
    while i > 0 {
        i -= 1;
        if let Event::Issue(call) = events[i]
            && call.id == id
        {
            return Some(call);
        }
    }
    None
}

/// Whether an operation with this promise is a load that is never answered.
pub fn is_unanswered_load(op: Op, promise: Option<Reply>) -> bool
    ensures { result ≡ true → (op ≡ Load) × (promise ≡ None) }
{
    match promise {
        Some(_) => false,
        None => op == Op::Load,
    }
}

/// The slot from which on operations are put that the trace never answers.
const NEVER: usize = 64;

/// The first slot for an operation with this promise: 0 if it has one, or the whole trace answers it
/// from this event on.
pub fn first_slot(whole: &[Event], from: usize, id: u64, promise: Option<Reply>) -> usize
    ensures { IsBegunSlot whole.now from id promise result }
{
    if promise.is_some() {
        return 0;
    }
    match promise_of(whole, from, id) {
        Some(_) => 0,
        None => NEVER,
    }
}
