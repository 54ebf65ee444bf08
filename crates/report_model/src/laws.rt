//! Laws of traces with their fences and without, each the contract of a function that does nothing.

ghost use Rattle.std.specs.Prelude.{ℕ, List};
ghost use Rattle.memory_models.specs.declared.kinds.Operation.{Operation};
ghost use Rattle.memory_models.specs.declared.kinds.Rule.{Rule};
ghost use Rattle.memory_models.specs.Trace.{IsMemoryTrace};
ghost use Rattle.memory_models.specs.Order.{IsMemoryOrder};
ghost use Rattle.memory_models.specs.Models.{coherent, sequential};
ghost use Rattle.report_model.specs.Bare.{IsWithoutFences};

/// Fences only forbid: whatever model allows a trace with its fences allows it without them, so what is
/// not allowed without them isn't allowed with them either. They forbid nothing where the trace is
/// sequentially consistent without them, nor by coherence.
pub fn fences_only_forbid()
    ensures without { (words : ℕ) (bare : List Operation) (bare_writes : List ℕ)
        (ops : List Operation) (writes : List ℕ) → IsMemoryTrace words bare bare_writes
        → IsWithoutFences bare bare_writes ops writes
        → (rules : List Rule) (turn : ℕ → ℕ) → IsMemoryOrder rules ops writes turn
        → (t : ℕ → ℕ) × IsMemoryOrder rules bare bare_writes t }
    ensures sequential { (words : ℕ) (bare : List Operation) (bare_writes : List ℕ)
        (ops : List Operation) (writes : List ℕ) → IsMemoryTrace words bare bare_writes
        → IsWithoutFences bare bare_writes ops writes
        → (rules : List Rule) (turn : ℕ → ℕ)
        → IsMemoryOrder sequential bare bare_writes turn
        → (t : ℕ → ℕ) × IsMemoryOrder rules ops writes t }
    ensures coherent { (words : ℕ) (bare : List Operation) (bare_writes : List ℕ)
        (ops : List Operation) (writes : List ℕ) → IsMemoryTrace words bare bare_writes
        → IsWithoutFences bare bare_writes ops writes
        → (turn : ℕ → ℕ) → IsMemoryOrder coherent bare bare_writes turn
        → (t : ℕ → ℕ) × IsMemoryOrder coherent ops writes t }
{}
