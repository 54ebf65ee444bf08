//! Laws that compare RISC-V's memory model with the other models, each the contract of a function
//! that does nothing.

ghost use Rattle.std.specs.Prelude.{◌↔◌, ℕ, List, []};
ghost use Rattle.memory_models.specs.declared.kinds.Operation.{Operation};
ghost use Rattle.memory_models.specs.Trace.{IsMemoryTrace};
ghost use Rattle.memory_models.specs.Models.{coherent, fenced, partial_store_order};
ghost use Rattle.memory_models.specs.Models.{total_store_order, sequential};
ghost use Rattle.memory_models.specs.Order.{IsMemoryOrder};
ghost use Rattle.weak_models.specs.declared.notes.Note.{Note};
ghost use Rattle.weak_models.specs.declared.notes.Dependency.{Dependency};
ghost use Rattle.weak_models.specs.Laws.{HasNoFences, AreAllRcsc};
ghost use Rattle.weak_models.specs.Order.{IsRvwmo, ArePairsAtomic};
ghost use Rattle.weak_models.specs.Equal.{HasOrder, HasRvwmoOrder, HasNoPairs, ArePairsOnOne};
ghost use Rattle.weak_models.specs.Equal.{ArePairsAtomicInWords, HasNoRelease, HasNoAnnotations};
ghost use Rattle.weak_models.specs.Equal.{HasNoAcquireOnStores, AreReleasesOfStores, AreOnReads};
ghost use Rattle.weak_models.specs.Equal.{AreConditionalsKept, HasOrderWithPairs, AreZtso};

/// With Ztso's annotations a log has an order of this model exactly where it has one of total
/// store order, in which pairs are atomic and no load comes before a store conditional of its
/// processor that it reads from. So without store conditionals both models allow the same logs.
pub fn ztso_is_total_store_order()
    ensures equal { (words : ℕ) (notes : List Note) (dependencies : List Dependency)
        (ops : List Operation) (writes : List ℕ) → IsMemoryTrace words ops writes
        → AreZtso notes ops → HasNoPairs notes → AreOnReads dependencies ops
        → HasRvwmoOrder notes dependencies ops writes ↔ HasOrder total_store_order ops writes }
    ensures with_pairs { (words : ℕ) (notes : List Note) (dependencies : List Dependency)
        (ops : List Operation) (writes : List ℕ) → IsMemoryTrace words ops writes
        → AreZtso notes ops → ArePairsOnOne notes ops → AreOnReads dependencies ops
        → HasRvwmoOrder notes dependencies ops writes
        ↔ HasOrderWithPairs total_store_order notes ops writes }
{}

/// A log that has an order of this model is coherent, whatever its notes say. Without annotations,
/// fences and dependencies it has one exactly where it is coherent, and its pairs are atomic.
pub fn bare_is_coherent()
    ensures coherent { (words : ℕ) (notes : List Note) (dependencies : List Dependency)
        (ops : List Operation) (writes : List ℕ) → IsMemoryTrace words ops writes
        → HasRvwmoOrder notes dependencies ops writes → HasOrder coherent ops writes }
    ensures equal { (words : ℕ) (notes : List Note) (ops : List Operation) (writes : List ℕ)
        → IsMemoryTrace words ops writes → HasNoAnnotations notes → HasNoFences ops
        → ArePairsOnOne notes ops
        → HasRvwmoOrder notes [] ops writes
        ↔ (HasOrder coherent ops writes × ArePairsAtomicInWords notes ops) }
{}

/// Where each operation on a word has an RCsc annotation, a log has an order of this model exactly
/// where it has one of sequential consistency, and its pairs are atomic.
pub fn rcsc_is_sequential()
    ensures { (words : ℕ) (notes : List Note) (dependencies : List Dependency)
        (ops : List Operation) (writes : List ℕ) → IsMemoryTrace words ops writes
        → AreAllRcsc notes ops → ArePairsOnOne notes ops
        → HasRvwmoOrder notes dependencies ops writes
        ↔ (HasOrder sequential ops writes × ArePairsAtomicInWords notes ops) }
{}

/// What stronger models allow this one allows: partial store order, where no operation has a
/// release annotation; total store order, where no load has one, and no store one that is RCsc;
/// both where stores have no acquire annotation. And coherence with fences, where there are no
/// annotations and no dependencies.
pub fn stronger_models_allow_no_more()
    ensures partial_store_order { (words : ℕ) (notes : List Note) (dependencies : List Dependency)
        (ops : List Operation) (writes : List ℕ) (turn : ℕ → ℕ) → IsMemoryTrace words ops writes
        → AreConditionalsKept notes ops writes turn → AreOnReads dependencies ops
        → HasNoAcquireOnStores notes ops → HasNoRelease notes
        → IsMemoryOrder partial_store_order ops writes turn
        → IsRvwmo notes dependencies ops writes turn }
    ensures total_store_order { (words : ℕ) (notes : List Note) (dependencies : List Dependency)
        (ops : List Operation) (writes : List ℕ) (turn : ℕ → ℕ) → IsMemoryTrace words ops writes
        → AreConditionalsKept notes ops writes turn → AreOnReads dependencies ops
        → HasNoAcquireOnStores notes ops → AreReleasesOfStores notes ops
        → IsMemoryOrder total_store_order ops writes turn
        → IsRvwmo notes dependencies ops writes turn }
    ensures fenced { (words : ℕ) (notes : List Note) (ops : List Operation) (writes : List ℕ)
        (turn : ℕ → ℕ) → IsMemoryTrace words ops writes
        → ArePairsOnOne notes ops → ArePairsAtomic notes ops turn → HasNoAnnotations notes
        → IsMemoryOrder fenced ops writes turn → IsRvwmo notes [] ops writes turn }
    ensures no_pairs { (notes : List Note) (ops : List Operation) (writes : List ℕ)
        (turn : ℕ → ℕ) → HasNoPairs notes → AreConditionalsKept notes ops writes turn }
{}
