//! Laws of what a machine's agents ask, each the contract of a function that does nothing.

ghost use Rattle.std.specs.Prelude.{◌≡◌, ◌≤◌, ◌<◌, ℕ, List, length, Some, None, IfSome, slice_get};
ghost use Rattle.std.specs.Prelude.{slice_index};
ghost use Rattle.torus.specs.Shape.{tiles_of};
ghost use Rattle.torus.specs.declared.step.Step.{Step};
ghost use Rattle.torus.specs.declared.step.Choice.TheVariants as choice;
ghost use Rattle.flit_buffer.specs.Words.{word_of};
ghost use Rattle.one_order.specs.Room.{home_room};
ghost use Rattle.core_laws.specs.Agent.TheVariants.{Bank};
ghost use Rattle.core_laws.specs.Tile.{TileState};
ghost use Rattle.core_laws.specs.Agents.{TilePlace, tile_next_op, agent_kind, agent_tile};
ghost use Rattle.tile.specs.Placed.{IsAcceptableTo};
ghost use Rattle.core_laws.specs.Core.{Load, design_of, step};
ghost use Rattle.core_laws.specs.Runs.{IsAcceptedLoad, state_after};
ghost use Rattle.core_laws.specs.Seen.{IsShown};

/// Where tiles and a row show a state that a run reaches, each attempt may be tried over the row at its
/// tile: the word of its operation is one of the row, and the word found is as the agent asks.
pub fn agents_may_try()
    ensures room { (l : Load) → IsAcceptedLoad l
        → (steps : List Step) (n : ℕ) (places : List TilePlace) (row : List ℕ)
        → IsShown (design_of l) (state_after l steps n) places row
        → (attempt : Step) (p : TilePlace) → slice_get places (agent_tile attempt.agent) ≡ Some p
        → IfSome (tile_next_op p attempt) (λ o. word_of o < length row) }
    ensures flit { (l : Load) → IsAcceptedLoad l
        → (steps : List Step) (n : ℕ) (places : List TilePlace) (row : List ℕ)
        → IsShown (design_of l) (state_after l steps n) places row
        → (attempt : Step) (p : TilePlace) → slice_get places (agent_tile attempt.agent) ≡ Some p
        → IfSome (tile_next_op p attempt)
        (λ o. IsAcceptableTo p (agent_kind attempt.agent) attempt.choice
        (slice_index row (word_of o))) }
{}

/// In a state that a run reaches, a bank that has as many entries as the scripts have operations for it
/// has no request left to serve: its service isn't enabled. The second clause says it of tiles that
/// show the state.
pub fn full_banks_serve_nothing()
    ensures reached { (l : Load) → IsAcceptedLoad l →
        (steps : List Step) (n t : ℕ) (tile : TileState)
        → slice_get (state_after l steps n).tiles t ≡ Some tile
        → length tile.bank.entries ≡ home_room (tiles_of l.shape) t l.scripts
        → (attempt : Step) → agent_tile attempt.agent ≡ t → agent_kind attempt.agent ≡ Bank
        → attempt.choice ≡ choice.Serve
        → step (design_of l) (state_after l steps n) attempt ≡ None }
    ensures shown { (l : Load) → IsAcceptedLoad l
        → (steps : List Step) (n : ℕ) (places : List TilePlace) (row : List ℕ)
        → IsShown (design_of l) (state_after l steps n) places row
        → (attempt : Step) (p : TilePlace) → slice_get places (agent_tile attempt.agent) ≡ Some p
        → length p.bank.state.entries
        ≡ home_room (tiles_of l.shape) (agent_tile attempt.agent) l.scripts
        → agent_kind attempt.agent ≡ Bank → attempt.choice ≡ choice.Serve
        → step (design_of l) (state_after l steps n) attempt ≡ None }
{}

/// In every state that a run reaches, a bank has at most as many entries as the scripts have operations
/// for it.
pub fn banks_are_within_their_room()
    ensures { (l : Load) → IsAcceptedLoad l → (steps : List Step) (n t : ℕ) (tile : TileState)
        → slice_get (state_after l steps n).tiles t ≡ Some tile
        → length tile.bank.entries ≤ home_room (tiles_of l.shape) t l.scripts }
{}
