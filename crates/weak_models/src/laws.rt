//! Laws of RISC-V's memory model, each the contract of a function that does nothing.

ghost use Rattle.std.specs.Prelude.{◌≡◌, ◌<◌, ℕ, Bool, true, List};
ghost use Rattle.memory_models.specs.declared.kinds.Operation.{Operation};
ghost use Rattle.memory_models.specs.declared.kinds.Rule.{Rule};
ghost use Rattle.memory_models.specs.Models.{sequential};
ghost use Rattle.memory_models.specs.Order.{IsMemoryOrder, KeepsOrder};
ghost use Rattle.weak_models.specs.declared.notes.Note.{Note};
ghost use Rattle.weak_models.specs.declared.notes.Dependency.{Dependency};
ghost use Rattle.weak_models.specs.Laws.{HasNoFences, AreAllRcsc, AreListedIn};
ghost use Rattle.weak_models.specs.Order.{IsOrderKeeping, ArePairsAtomic, IsRvwmo};

/// An order that keeps more pairs keeps fewer, and the models by rules are orders of this form.
pub fn orders_that_keep_more_keep_fewer()
    ensures fewer { (more fewer : ℕ → ℕ → Bool) (ops : List Operation) (writes : List ℕ)
        (turn : ℕ → ℕ) → ((x y : ℕ) → fewer x y ≡ true → more x y ≡ true)
        → IsOrderKeeping (λ x y. more x y ≡ true) ops writes turn
        → IsOrderKeeping (λ x y. fewer x y ≡ true) ops writes turn }
    ensures by_rules { (rules : List Rule) (ops : List Operation) (writes : List ℕ)
        (turn : ℕ → ℕ) → IsMemoryOrder rules ops writes turn
        → IsOrderKeeping (KeepsOrder rules ops) ops writes turn }
    ensures to_rules { (rules : List Rule) (ops : List Operation) (writes : List ℕ)
        (turn : ℕ → ℕ) → IsOrderKeeping (KeepsOrder rules ops) ops writes turn
        → IsMemoryOrder rules ops writes turn }
{}

/// A log with fewer dependencies is allowed by each order that allows it with more.
pub fn fewer_dependencies_allow_no_less()
    ensures { (notes : List Note) (fewer more : List Dependency) (ops : List Operation)
        (writes : List ℕ) (turn : ℕ → ℕ) → AreListedIn fewer more
        → IsRvwmo notes more ops writes turn → IsRvwmo notes fewer ops writes turn }
{}

/// An order of sequential consistency with atomic pairs is one of this model, whatever the notes say.
/// Where each operation has an RCsc annotation, and there is no fence, there are no others.
pub fn rcsc_everywhere_is_sequential()
    ensures sequential { (notes : List Note) (dependencies : List Dependency)
        (ops : List Operation) (writes : List ℕ) (turn : ℕ → ℕ)
        → IsMemoryOrder sequential ops writes turn → ArePairsAtomic notes ops turn
        → IsRvwmo notes dependencies ops writes turn }
    ensures no_others { (notes : List Note) (dependencies : List Dependency)
        (ops : List Operation) (writes : List ℕ) (turn : ℕ → ℕ)
        → AreAllRcsc notes ops → HasNoFences ops → IsRvwmo notes dependencies ops writes turn
        → IsMemoryOrder sequential ops writes turn }
{}
