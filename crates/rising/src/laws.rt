//! A law of graphs, the contract of a function that does nothing.

ghost use Rattle.std.specs.Prelude.{ℕ, List};
ghost use Rattle.rising.specs.declared.edge.Edge.{Edge};
ghost use Rattle.rising.specs.Graph.{RisesOnEdges};
ghost use Rattle.rising.specs.Found.{IsEdgeCycle};

/// Around a cycle no numbers rise: so of each graph exactly one is found.
pub fn cycles_have_no_numbers()
    ensures { (edges : List Edge) (cycle : List ℕ) → IsEdgeCycle edges cycle
        → (number : ℕ → ℕ) → RisesOnEdges edges number → ⊥ }
{}
