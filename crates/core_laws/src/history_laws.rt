//! Laws of the traces of runs, each the contract of a function that does nothing.

ghost use Rattle.std.specs.Prelude.{ℕ, List, length};
ghost use Rattle.torus.specs.declared.step.Step.{Step};
ghost use Rattle.one_order.specs.Observed.{Run};
ghost use Rattle.one_order.specs.Events.{Event, IsHistory};
ghost use Rattle.trace_laws.specs.Orders.{IsLinearizable};
ghost use Rattle.trace_laws.specs.Traces.{IsTrace};
ghost use Rattle.core_laws.specs.Core.{Load};
ghost use Rattle.core_laws.specs.Runs.{IsAcceptedLoad};
ghost use Rattle.core_laws.specs.TraceOfRun.{trace_after, trace_of_run};

/// Whatever machine makes a history of issues, services and answers, each where it may happen: the
/// trace of its issues and answers is linearizable.
pub fn histories_are_linearizable_traces()
    ensures trace { (tiles tags : ℕ) (opening : List ℕ) (run : Run) (event : ℕ → Event) (n : ℕ)
        → IsHistory tiles tags opening run event n
        → IsTrace (length opening) (trace_after tiles event n) }
    ensures linearizable { (tiles tags : ℕ) (opening : List ℕ) (run : Run) (event : ℕ → Event)
        (n : ℕ)
        → IsHistory tiles tags opening run event n
        → IsLinearizable opening (trace_after tiles event n) }
{}

/// Of every run from an accepted load the trace of its issues and answers is linearizable.
pub fn runs_are_linearizable_traces()
    ensures trace { (l : Load) (steps : List Step) → IsAcceptedLoad l
        → IsTrace (length l.opening) (trace_of_run l steps) }
    ensures linearizable { (l : Load) (steps : List Step) → IsAcceptedLoad l
        → IsLinearizable l.opening (trace_of_run l steps) }
{}
