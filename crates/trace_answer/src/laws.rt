//! The law of what is read, the contract of a function that does nothing.

ghost use Rattle.std.specs.Prelude.{◌≡◌, ℕ, List, Ok};
ghost use Rattle.trace_text.specs.Traced.{TraceSpec, trace_of};
ghost use Rattle.trace_answer.specs.Whole.{IsWholeTrace};

/// A text that is read gives a trace whose operations are told apart by processor and index.
pub fn texts_are_whole()
    ensures { (lines : List (List ℕ)) (t : TraceSpec) → trace_of lines ≡ Ok t → IsWholeTrace t }
{}
