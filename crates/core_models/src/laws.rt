//! Laws of the memory model of runs, each the contract of a function that does nothing.

ghost use Rattle.std.specs.Prelude.{◌≡◌, ℕ, List, Some, length, slice_get};
ghost use Rattle.torus.specs.declared.step.Step.{Step};
ghost use Rattle.memory_models.specs.declared.kinds.Operation.{Operation};
ghost use Rattle.memory_models.specs.Trace.{IsMemoryTrace};
ghost use Rattle.memory_models.specs.Order.{IsMemoryOrder};
ghost use Rattle.memory_models.specs.Models.{coherent, fenced};
ghost use Rattle.memory_models.specs.Machines.{IsSequential};
ghost use Rattle.one_order.specs.declared.ordered.Ordered.{Ordered};
ghost use Rattle.core_laws.specs.Core.{Load, run_of};
ghost use Rattle.core_laws.specs.Runs.{IsAcceptedLoad};
ghost use Rattle.core_laws.specs.Machine.{IsLawful};
ghost use Rattle.core_models.specs.Traces.{access_at, found_at, IsLastWriteBefore};
ghost use Rattle.core_models.specs.Values.{RepliesWordOf};
ghost use Rattle.core_models.specs.Runs.{accesses_of_run, IsTraceOfRun, AreFencedApart};
ghost use Rattle.core_models.specs.Runs.{IsAccessOfRow, RepliesInTurn};

/// Each run has a memory trace, and each operation that took effect has its place there. A machine
/// that is reached (`IsAfter`) has a lawful run, with the rows of its book.
pub fn runs_have_traces()
    ensures some { (l : Load) (steps : List Step) (rows : List Ordered)
        → IsAcceptedLoad l → IsLawful l steps rows
        → (ops : List Operation) × (writes : List ℕ) × IsTraceOfRun l steps rows ops writes }
    ensures whole { (l : Load) (steps : List Step) (rows : List Ordered)
        → IsAcceptedLoad l → IsLawful l steps rows
        → (k : ℕ) (row : Ordered) → slice_get rows k ≡ Some row
        → (x : ℕ) × IsAccessOfRow l steps rows row x }
{}

/// Each operation of a run's memory trace, swaps, compare-and-swaps and fetch-and-ops too, replied what
/// is due where it finds the word that one write left: an opening word, or what a write made of the
/// word before it. That write is the last one before it on its word: the one that a load read, and of
/// a write the one before it in its word's order.
pub fn operations_reply_what_they_find()
    ensures replies { (l : Load) (steps : List Step) (rows : List Ordered)
        → IsAcceptedLoad l → IsLawful l steps rows
        → (ops : List Operation) (writes : List ℕ) → IsTraceOfRun l steps rows ops writes
        → (x k : ℕ) (row : Ordered) → slice_get rows k ≡ Some row
        → IsAccessOfRow l steps rows row x
        → RepliesWordOf l.opening (run_of l steps (length steps)) rows
        (access_at (accesses_of_run l steps rows) (found_at ops writes x)) row }
    ensures last { (l : Load) (steps : List Step) (rows : List Ordered)
        → IsAcceptedLoad l → IsLawful l steps rows
        → (ops : List Operation) (writes : List ℕ) → IsTraceOfRun l steps rows ops writes
        → (x k : ℕ) (row : Ordered) → slice_get rows k ≡ Some row
        → IsAccessOfRow l steps rows row x
        → IsLastWriteBefore (accesses_of_run l steps rows) (found_at ops writes x) x }
{}

/// Every run is coherent and obeys its fences: its memory trace is one of the models `coherent` and
/// `fenced`, whatever the steps.
pub fn runs_are_fenced()
    ensures trace { (l : Load) (steps : List Step) (rows : List Ordered)
        → IsAcceptedLoad l → IsLawful l steps rows
        → (ops : List Operation) (writes : List ℕ) → IsTraceOfRun l steps rows ops writes
        → IsMemoryTrace (length l.opening) ops writes }
    ensures coherent { (l : Load) (steps : List Step) (rows : List Ordered)
        → IsAcceptedLoad l → IsLawful l steps rows
        → (ops : List Operation) (writes : List ℕ) → IsTraceOfRun l steps rows ops writes
        → (turn : ℕ → ℕ) × IsMemoryOrder coherent ops writes turn }
    ensures fenced { (l : Load) (steps : List Step) (rows : List Ordered)
        → IsAcceptedLoad l → IsLawful l steps rows
        → (ops : List Operation) (writes : List ℕ) → IsTraceOfRun l steps rows ops writes
        → (turn : ℕ → ℕ) × IsMemoryOrder fenced ops writes turn }
{}

/// With a fence between each two lines of each processor, or with one tag, every run is
/// sequentially consistent: one order of its operations keeps program order, and one memory gives all
/// their replies in it, those of atomics too.
pub fn fenced_scripts_are_sequential()
    ensures fences { (l : Load) (steps : List Step) (rows : List Ordered)
        → IsAcceptedLoad l → IsLawful l steps rows
        → (ops : List Operation) (writes : List ℕ) → IsTraceOfRun l steps rows ops writes
        → AreFencedApart l.scripts → (turn : ℕ → ℕ) × IsSequential ops writes turn
        × RepliesInTurn l steps rows turn }
    ensures one_tag { (l : Load) (steps : List Step) (rows : List Ordered)
        → IsAcceptedLoad l → IsLawful l steps rows
        → (ops : List Operation) (writes : List ℕ) → IsTraceOfRun l steps rows ops writes
        → l.tags ≡ 1 → (turn : ℕ → ℕ) × IsSequential ops writes turn
        × RepliesInTurn l steps rows turn }
{}
