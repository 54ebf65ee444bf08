//! Laws of traces and the orders that explain them, each the contract of a function that does nothing.

ghost use Rattle.std.specs.Prelude.{◌<◌, ◌↔◌, ℕ, List, length, take};
ghost use Rattle.trace_laws.specs.declared.event.Call.{Call};
ghost use Rattle.trace_laws.specs.declared.event.Event.{Event};
ghost use Rattle.trace_laws.specs.Locality.{IsLinearizableOn};
ghost use Rattle.trace_laws.specs.Orders.{IsOrder, IsLinearizable};
ghost use Rattle.trace_laws.specs.Paths.{HasPath};
ghost use Rattle.trace_laws.specs.Traces.{IsTrace};
ghost use Rattle.trace_laws.specs.Unanswered.{IssuesUnanswered, IssuesUnansweredLoad};
ghost use Rattle.trace_laws.specs.Unanswered.{IsResponse, IsWithout};

/// What is linearizable was so at each event: once a trace isn't, it never is again.
pub fn beginnings_are_linearizable()
    ensures { (words : ℕ) (opening : List ℕ) (trace : List Event) (n : ℕ) → IsTrace words trace
        → IsLinearizable opening trace → IsLinearizable opening (take n trace) }
{}

/// An order explains a trace exactly if a path leads to it: operations take effect in this order,
/// each between its issue and its answer, and are answered what they replied.
pub fn orders_are_paths()
    ensures explains { (words : ℕ) (opening : List ℕ) (trace : List Event) (order : List Call)
        → IsTrace words trace → HasPath opening trace order → IsOrder opening trace order }
    ensures has_path { (opening : List ℕ) (trace : List Event) (order : List Call)
        → IsOrder opening trace order → HasPath opening trace order }
{}

/// Linearizability is local (Herlihy and Wing, theorem 1): a trace is linearizable exactly where what
/// it does on each word is.
pub fn linearizability_is_local()
    ensures { (opening : List ℕ) (trace : List Event) → IsTrace (length opening) trace
        → IsLinearizable opening trace
        ↔ ((w : ℕ) → w < length opening → IsLinearizableOn w opening trace) }
{}

/// A load that is never answered says nothing: with and without it a trace is linearizable alike.
pub fn unanswered_loads_say_nothing()
    ensures { (opening : List ℕ) (trace short : List Event) → IsTrace (length opening) trace
        → IsWithout (IssuesUnansweredLoad trace) trace short
        → IsLinearizable opening trace ↔ IsLinearizable opening short }
{}

/// An operation that is never answered may be left out: what explains the trace without it explains
/// the trace.
pub fn unanswered_operations_may_be_left_out()
    ensures { (opening : List ℕ) (trace short : List Event) (order : List Call)
        → IsTrace (length opening) trace → IsWithout (IssuesUnanswered trace) trace short
        → IsOrder opening short order → IsOrder opening trace order }
{}

/// An answer only restrains: what explains a trace explains it without some of its answers.
pub fn answers_may_be_left_out()
    ensures { (opening : List ℕ) (trace fewer : List Event) (order : List Call)
        → IsWithout IsResponse trace fewer → IsOrder opening trace order → IsOrder opening fewer order }
{}
