//! Laws of what a machine's tiles and row show, each the contract of a function that does nothing.

ghost use Rattle.std.specs.Prelude.{◌≡◌, ℕ, List, Some, slice_get};
ghost use Rattle.torus.specs.declared.step.Step.{Step};
ghost use Rattle.torus.specs.Shape.{tiles_of};
ghost use Rattle.one_order.specs.EventBook.{EventBook, noted_event};
ghost use Rattle.core_laws.specs.Tile.{TileState};
ghost use Rattle.core_laws.specs.Agents.{TilePlace, agent_tile};
ghost use Rattle.core_laws.specs.Core.{Load, State, design_of, step};
ghost use Rattle.core_laws.specs.Runs.{IsAcceptedLoad, state_after};
ghost use Rattle.core_laws.specs.Seen.{IsShown, LeadsOn, IsToldByCounts, state_seen};
ghost use Rattle.core_laws.specs.Machine.{event_in};

/// Of every state that a run reaches, its tiles in their places and its row tell the whole state: the
/// channels' flits are read off the row, their fronts and credits off the ends of the tiles' agents.
pub fn tiles_and_row_tell_the_state()
    ensures { (l : Load) → IsAcceptedLoad l
        → (steps : List Step) (n : ℕ) (places : List TilePlace) (row : List ℕ)
        → IsShown (design_of l) (state_after l steps n) places row
        → state_seen (design_of l) places row ≡ state_after l steps n }
{}

/// An attempt over the row that shows a reached state, at the tile of which it is: the tile moves exactly
/// where the attempt is enabled, and then tiles and row show the next state; else the row stays.
pub fn attempts_lead_on()
    ensures { (l : Load) → IsAcceptedLoad l
        → (steps : List Step) (n : ℕ) (places : List TilePlace) (row : List ℕ)
        → IsShown (design_of l) (state_after l steps n) places row
        → (attempt : Step) (p : TilePlace) → slice_get places (agent_tile attempt.agent) ≡ Some p
        → LeadsOn (design_of l) (state_after l steps n) places row attempt p }
{}

/// The tile of an enabled attempt shows which event it is, and what is noted of it: by how many
/// operations are issued and answered there, and how many entries its bank has, before and after it.
pub fn events_are_told_by_counts()
    ensures { (l : Load) → IsAcceptedLoad l
        → (steps : List Step) (n : ℕ) (attempt : Step) (next : State)
        → step (design_of l) (state_after l steps n) attempt ≡ Some next
        → (before after : TileState)
        → slice_get (state_after l steps n).tiles (agent_tile attempt.agent) ≡ Some before
        → slice_get next.tiles (agent_tile attempt.agent) ≡ Some after
        → (g : EventBook)
        → IsToldByCounts (state_after l steps n) (agent_tile attempt.agent) before after
        g
        (noted_event (tiles_of l.shape) g
        (event_in (design_of l) (state_after l steps n) attempt)) }
{}
