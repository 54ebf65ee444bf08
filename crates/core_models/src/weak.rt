//! Laws of RISC-V's memory model of runs, each the contract of a function that does nothing.

ghost use Rattle.std.specs.Prelude.{◌≡◌, ◌⊎◌, ℕ, List, []};
ghost use Rattle.torus.specs.declared.step.Step.{Step};
ghost use Rattle.memory_models.specs.declared.kinds.Operation.{Operation};
ghost use Rattle.weak_models.specs.declared.notes.Note.{Note};
ghost use Rattle.weak_models.specs.declared.notes.Dependency.{Dependency};
ghost use Rattle.weak_models.specs.Equal.{HasRvwmoOrder, HasNoPairs, HasNoAnnotations};
ghost use Rattle.one_order.specs.declared.ordered.Ordered.{Ordered};
ghost use Rattle.core_laws.specs.Core.{Load};
ghost use Rattle.core_laws.specs.Runs.{IsAcceptedLoad};
ghost use Rattle.core_laws.specs.Machine.{IsLawful};
ghost use Rattle.core_models.specs.Runs.{IsTraceOfRun, AreFencedApart};

/// Every run obeys RISC-V's memory model: its memory trace has an order of that model, whichever
/// accesses each fence keeps. With a fence between each two lines of each processor, or with one
/// tag, it has one whatever its operations are annotated with, and whatever depends on what.
pub fn runs_obey_rvwmo()
    ensures every_run { (l : Load) (steps : List Step) (rows : List Ordered)
        → IsAcceptedLoad l → IsLawful l steps rows
        → (ops : List Operation) (writes : List ℕ) → IsTraceOfRun l steps rows ops writes
        → (notes : List Note) → HasNoAnnotations notes → HasNoPairs notes
        → HasRvwmoOrder notes [] ops writes }
    ensures in_one_order { (l : Load) (steps : List Step) (rows : List Ordered)
        → IsAcceptedLoad l → IsLawful l steps rows
        → (ops : List Operation) (writes : List ℕ) → IsTraceOfRun l steps rows ops writes
        → AreFencedApart l.scripts ⊎ (l.tags ≡ 1)
        → (notes : List Note) (dependencies : List Dependency) → HasNoPairs notes
        → HasRvwmoOrder notes dependencies ops writes }
{}
