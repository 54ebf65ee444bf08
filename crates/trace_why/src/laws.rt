//! A law of the first event that no order explains, the contract of a function that does nothing.

ghost use Rattle.std.specs.Prelude.{◌<◌, ◌+◌, ℕ, List, length, take};
ghost use Rattle.packet.specs.declared.kinds.Reply.{Reply};
ghost use Rattle.trace_laws.specs.declared.event.Event.{Event};
ghost use Rattle.trace_laws.specs.Orders.{IsLinearizable};
ghost use Rattle.trace_laws.specs.Traces.{IsTrace, TraceAnswersAt};
ghost use Rattle.trace_text.specs.Allowed.{IsAllowed};

/// The first event with which no order explains a trace is an answer, and tells what it may not.
pub fn bad_events_tell_words()
    ensures { (opening : List ℕ) (trace : List Event) (k : ℕ) → IsTrace (length opening) trace
        → k < length trace → IsLinearizable opening (take k trace)
        → (IsLinearizable opening (take (k + 1) trace) → ⊥)
        → (id : ℕ) × (reply : Reply) × TraceAnswersAt trace k id reply
        × (IsAllowed opening trace k id reply → ⊥) }
{}
