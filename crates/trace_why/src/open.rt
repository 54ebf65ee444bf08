//! The operations that are open on a word.

ghost use Rattle.std.specs.Prelude.{◌≡◌, ◌<◌, ◌≤◌, ℕ, MatchOption, IfOk, length};
ghost use Rattle.trace_laws.specs.Traces.{IsTrace};
ghost use Rattle.trace_why.specs.declared.calls.CallAt.{CallAt};
ghost use Rattle.trace_why.specs.Calls.{IsOpenOnWord, AreOpenOn};

use crate::calls::{CallAt, is_answered};
use std::alloc::{AllocError, Allocator};
use trace_laws::Event;

/// The operation that event i issues, if it is on this word and open before event k.
fn opened(events: &[Event], k: usize, address: u32, i: usize) -> Option<CallAt>
    requires trace { (words : ℕ) × IsTrace words events.now }
    requires inside { k ≤ length events.now }
    requires early { i < k }
    ensures { MatchOption result
        ((c : CallAt) → IsOpenOnWord events.now k address c → c.event ≡ i → ⊥)
        (λ c. IsOpenOnWord events.now k address c × (c.event ≡ i)) }
{
    if let Event::Issue(call) = events[i]
        && call.operation.address == address
        && !is_answered(events, i, k, call.id)
    {
        return Some(CallAt { event: i, call });
    }
    None
}

/// The operations that are open on a word before event k, in the order of issue.
pub(crate) fn open_on<A: Allocator>(
    alloc: A,
    events: &[Event],
    k: usize,
    address: u32,
) -> Result<Vec<CallAt, A>, AllocError>
    requires trace { (words : ℕ) × IsTrace words events.now }
    requires inside { k ≤ length events.now }
    ensures { IfOk result (λ pending. AreOpenOn events.now k address pending.items) }
{
    let mut pending = Vec::new(alloc);
    for i in 0..k {
        if let Some(call) = opened(events, k, address, i) {
            pending.push(call)?;
        }
    }
    Ok(pending)
}
