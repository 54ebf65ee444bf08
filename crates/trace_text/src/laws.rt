//! A law of traces whose addresses have other numbers, the contract of a function that does nothing.

ghost use Rattle.std.specs.Prelude.{ℕ, List, map};
ghost use Rattle.trace_laws.specs.declared.event.Call.{Call};
ghost use Rattle.trace_laws.specs.declared.event.Event.{Event};
ghost use Rattle.trace_laws.specs.Orders.{IsOrder};
ghost use Rattle.trace_text.specs.Renumbered.{IsRenumbering, moved_call, moved_event};

/// A trace and the same trace with other numbers of its words have the same orders, up to these
/// numbers: which words a trace doesn't name changes nothing.
pub fn renumbered_traces_have_the_same_orders()
    ensures there { (place back : ℕ → ℕ) (opening others : List ℕ) (trace : List Event)
        (order : List Call)
        → IsRenumbering place back opening others trace → IsOrder opening trace order
        → IsOrder others (map (moved_event place) trace) (map (moved_call place) order) }
    ensures back { (place back : ℕ → ℕ) (opening others : List ℕ) (trace : List Event)
        (order : List Call)
        → IsRenumbering place back opening others trace
        → IsOrder others (map (moved_event place) trace) order
        → IsOrder opening trace (map (moved_call back) order) }
{}
