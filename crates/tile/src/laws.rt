//! Laws of one tile, each the contract of a function that does nothing.

ghost use Rattle.std.specs.Prelude.{◌≡◌, ◌≢◌, ◌<◌, ℕ, List, Option, Some, None};
ghost use Rattle.torus.specs.Shape.{Shape, IsAccepted, tiles_of};
ghost use Rattle.torus.specs.declared.step.Step.{Step};
ghost use Rattle.torus.specs.declared.step.Choice.{Choice};
ghost use Rattle.channel_number.specs.Order.{channel_count};
ghost use Rattle.flit_buffer.specs.Joined.{AreDisjoint};
ghost use Rattle.flit_buffer.specs.Surroundings.{Surroundings, ShowsAll, IsWired, ports_of};
ghost use Rattle.flit_buffer.specs.declared.word_op.WordOp.{WordOp};
ghost use Rattle.flit_buffer.specs.declared.word_op.WordOp.TheVariants.{Store};
ghost use Rattle.router.specs.Beginning.{empty_surroundings};
ghost use Rattle.tile.specs.declared.agent.Agent.{Agent};
ghost use Rattle.tile.specs.Tile.{Design, TileState, tile_step};
ghost use Rattle.tile.specs.Agents.{TilePlace, wiring_of, tile_placed, tile_next_op, tile_absorbed};
ghost use Rattle.tile.specs.Agents.{agent_tile};
ghost use Rattle.tile.specs.Beginning.{new_tile};
ghost use Rattle.tile.specs.Refinement.{IsSurrounded, IsPossibleChoice, TileRefines, KeepsOthers};

/// The channels of each agent of each tile are there, no two of its inputs are one channel, nor two
/// outputs; and no channel is an input of two agents, nor an output of two.
pub fn agents_have_their_own_channels()
    ensures wired { (s : Shape) → IsAccepted s → (t : ℕ) (a : Agent) → t < tiles_of s
        → IsWired (channel_count s) (wiring_of s t a) }
    ensures apart { (s : Shape) → IsAccepted s → (t u : ℕ) (a b : Agent) → t < tiles_of s
        → u < tiles_of s → ((u ≡ t) × (b ≡ a) → ⊥)
        → AreDisjoint (wiring_of s t a) (wiring_of s u b) }
{}

/// A choice of an agent of a tile, read at the tile's ports over one word of a row that shows the
/// surroundings, does there what it does to the surroundings; and it leaves the ports of all other
/// agents of all tiles.
pub fn tiles_refine()
    ensures refines { (d : Design) (t : ℕ) (tile : TileState) (around : Surroundings) (row : List ℕ)
        (agent : Agent) (choice : Choice)
        → IsAccepted d.shape → t < tiles_of d.shape → IsSurrounded d around
        → IsPossibleChoice d t tile around agent choice
        → ShowsAll row d.depth around → TileRefines d t tile around row agent choice }
    ensures others { (d : Design) (t : ℕ) (tile : TileState) (around : Surroundings) (agent : Agent)
        (choice : Choice) (next : TileState) (left : Surroundings)
        → IsAccepted d.shape → t < tiles_of d.shape → IsSurrounded d around
        → IsPossibleChoice d t tile around agent choice
        → tile_step d t tile around agent choice ≡ Some (next, left)
        → KeepsOthers d t agent around left }
{}

/// A new tile's ports are those over empty channels, whatever the words behind them are.
pub fn new_tiles_see_empty_channels()
    ensures { (d : Design) (t : ℕ) (tile : TileState) (words : List ℕ) → IsAccepted d.shape
        → t < tiles_of d.shape → 0 < d.depth
        → new_tile d t tile ≡ tile_placed d t tile (empty_surroundings d.shape d.depth words) }
{}

/// A tile has no operation for an attempt of another tile, and doesn't move by it; and after a store it
/// doesn't look at the word that was there.
pub fn tiles_tell_their_own_steps()
    ensures op { (p : TilePlace) (attempt : Step) → agent_tile attempt.agent ≢ p.tile
        → tile_next_op p attempt ≡ None }
    ensures absorbed { (p : TilePlace) (attempt : Step) (found : ℕ)
        → agent_tile attempt.agent ≢ p.tile → tile_absorbed p attempt found ≡ None }
    ensures store { (p : TilePlace) (attempt : Step) (word v m n : ℕ)
        → tile_next_op p attempt ≡ Some (Store word v)
        → tile_absorbed p attempt m ≡ tile_absorbed p attempt n }
{}
