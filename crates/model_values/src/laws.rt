//! Laws of values, each the contract of a function that does nothing.

ghost use Rattle.std.specs.Prelude.{ℕ, List};
ghost use Rattle.memory_models.specs.declared.kinds.Operation.{Operation};
ghost use Rattle.memory_models.specs.declared.kinds.Rule.{Rule};
ghost use Rattle.memory_models.specs.Order.{IsMemoryOrder};
ghost use Rattle.model_values.specs.declared.valued.Valued.{Valued};
ghost use Rattle.model_values.specs.Replies.{AreGrouped, IsReplyOrder};
ghost use Rattle.model_values.specs.ValuedVerdict.{BreaksValues};
ghost use Rattle.model_values.specs.Values.{IsValuedPlacing};

/// The replies follow along the order of an explanation. Each load and each atomic found the word that
/// the newest write left of those that it can see: those before it in the order, and those before it in
/// its own processor's program; a closing load that of the newest of all. And each such order is that of
/// an explanation. So where a trace breaks a model, the replies follow along no order of its operations.
pub fn replies_follow()
    ensures follow { (rules : List Rule) (v : Valued) (placed : List Operation) (writes : List ℕ)
        → IsValuedPlacing v placed writes
        → (turn : ℕ → ℕ) → IsMemoryOrder rules placed writes turn → IsReplyOrder rules v turn }
    ensures explain { (rules : List Rule) (v : Valued) → AreGrouped v
        → (turn : ℕ → ℕ) → IsReplyOrder rules v turn
        → (placed : List Operation) × (writes : List ℕ) × IsValuedPlacing v placed writes
        × IsMemoryOrder rules placed writes turn }
    ensures none { (rules : List Rule) (v : Valued) → AreGrouped v → BreaksValues rules v
        → (turn : ℕ → ℕ) → IsReplyOrder rules v turn → ⊥ }
{}
