//! Laws of the row that shows a state, each the contract of a function that does nothing.

ghost use Rattle.std.specs.Prelude.{◌≡◌, ◌≢◌, ◌↔◌, ◌<◌, ◌≤◌, ◌+◌, ◌*◌, ◌%◌, ◌++◌, [], ◌∷◌, ℕ, List};
ghost use Rattle.std.specs.Prelude.{Some, All};
ghost use Rattle.std.specs.Prelude.{length, replicate, slice_get, slice_index, take};
ghost use Rattle.torus.specs.Shape.{dims_of, tiles_of};
ghost use Rattle.torus.specs.declared.step.Step.{Step};
ghost use Rattle.script_lines.specs.declared.line.Line.{Line};
ghost use Rattle.channel_number.specs.Order.{channel_count};
ghost use Rattle.flit_buffer.specs.Surroundings.{Surroundings, ring, AreRings, ShowsAll};
ghost use Rattle.core_laws.specs.Tile.{TileState};
ghost use Rattle.core_laws.specs.Agents.{TilePlace, agent_kind, agent_tile};
ghost use Rattle.core_laws.specs.Beginning.{new_tile};
ghost use Rattle.core_laws.specs.Refinement.{IsSurrounded, IsPossibleChoice, KeepsOthers};
ghost use Rattle.core_laws.specs.Refinement.{OnlyAgent};
ghost use Rattle.core_laws.specs.Core.{Load, State, design_of, first_state, first_tile, after};
ghost use Rattle.core_laws.specs.Core.{step, show};
ghost use Rattle.core_laws.specs.Runs.{IsAcceptedLoad, state_after};
ghost use Rattle.core_laws.specs.Row.{row_showing, row_of};
ghost use Rattle.core_laws.specs.Taken.{words_taken};
ghost use Rattle.core_laws.specs.Attempts.{tile_in, IsWordOperation};

/// Of all rows exactly one shows given channels and words.
pub fn one_row_shows()
    ensures { (depth : ℕ) (around : Surroundings) (row : List ℕ) → AreRings depth around
        → (ShowsAll row depth around ↔ (row ≡ row_showing depth around)) }
{}

/// In every state that a run reaches: exactly the row of the state shows it; the row has a word for
/// each place of each channel, for each address and the done word, at most 79873; flit i of a channel
/// stands at the place that is i after the front, round the ring, and 0 at every other place; behind
/// the places stand the words of the memory by address, and behind those the done word.
pub fn rows_show_states()
    ensures shows { (l : Load) → IsAcceptedLoad l → (steps : List Step) (n : ℕ) (row : List ℕ)
        → (ShowsAll row l.depth (state_after l steps n).around
        ↔ (row ≡ row_of (design_of l) (state_after l steps n))) }
    ensures size { (l : Load) → IsAcceptedLoad l → (steps : List Step) (n : ℕ)
        → length (row_of (design_of l) (state_after l steps n))
        ≡ channel_count l.shape * l.depth + length l.opening + 1 }
    ensures most { (l : Load) → IsAcceptedLoad l → (steps : List Step) (n : ℕ)
        → length (row_of (design_of l) (state_after l steps n)) ≤ 79873 }
    ensures flits { (l : Load) → IsAcceptedLoad l → (steps : List Step) (n x i : ℕ)
        → x < channel_count l.shape
        → i < length (ring (state_after l steps n).around.rings x).channel.flits
        → slice_index (row_of (design_of l) (state_after l steps n))
        (x * l.depth + ((ring (state_after l steps n).around.rings x).front + i) % l.depth)
        ≡ slice_index (ring (state_after l steps n).around.rings x).channel.flits i }
    ensures empty { (l : Load) → IsAcceptedLoad l → (steps : List Step) (n x q : ℕ)
        → x < channel_count l.shape → q < l.depth
        → ((i : ℕ) → i < length (ring (state_after l steps n).around.rings x).channel.flits
        → ((ring (state_after l steps n).around.rings x).front + i) % l.depth ≢ q)
        → slice_index (row_of (design_of l) (state_after l steps n)) (x * l.depth + q) ≡ 0 }
    ensures words { (l : Load) → IsAcceptedLoad l → (steps : List Step) (n a : ℕ) →
        a < length l.opening
        → slice_index (row_of (design_of l) (state_after l steps n))
        (channel_count l.shape * l.depth + a)
        ≡ slice_index (show (length l.opening) (state_after l steps n)).memory a }
    ensures done { (l : Load) → IsAcceptedLoad l → (steps : List Step) (n : ℕ)
        → slice_index (row_of (design_of l) (state_after l steps n))
        (channel_count l.shape * l.depth + length l.opening)
        ≡ slice_index (state_after l steps n).around.words (length l.opening) }
{}

/// In every run from an accepted load the front of a channel is the number of flits taken from it so far,
/// modulo the depth: flit i of the channel stands in the row at the place of that number and i together,
/// modulo the depth.
pub fn places_follow_the_flits_taken()
    ensures front { (l : Load) → IsAcceptedLoad l → (steps : List Step) (n x : ℕ)
        → x < channel_count l.shape
        → (ring (state_after l steps n).around.rings x).front ≡ words_taken l (take n steps) x % l.depth }
    ensures flits { (l : Load) → IsAcceptedLoad l → (steps : List Step) (n x i : ℕ)
        → x < channel_count l.shape
        → i < length (ring (state_after l steps n).around.rings x).channel.flits
        → slice_index (row_of (design_of l) (state_after l steps n))
        (x * l.depth + (words_taken l (take n steps) x + i) % l.depth)
        ≡ slice_index (ring (state_after l steps n).around.rings x).channel.flits i }
{}

/// In every state that a run reaches, the tiles and channels of the torus are there, and what an agent's
/// choice wants; and each attempt is at most one operation on one word of the row: without an operation it
/// isn't enabled; else the operation leaves the row of the next state, and the word found makes the tile
/// that of the next state, if the attempt is enabled, and leaves row and tile if it isn't.
pub fn attempts_are_word_operations()
    ensures tiles { (l : Load) → IsAcceptedLoad l → (steps : List Step) (n : ℕ)
        → length (state_after l steps n).tiles ≡ tiles_of l.shape }
    ensures surrounded { (l : Load) → IsAcceptedLoad l → (steps : List Step) (n : ℕ)
        → IsSurrounded (design_of l) (state_after l steps n).around }
    ensures possible { (l : Load) → IsAcceptedLoad l
        → (steps : List Step) (n : ℕ) (attempt : Step) (tile : TileState)
        → slice_get (state_after l steps n).tiles (agent_tile attempt.agent) ≡ Some tile
        → IsPossibleChoice (design_of l) (agent_tile attempt.agent) tile
        (state_after l steps n).around (agent_kind attempt.agent) attempt.choice }
    ensures operations { (l : Load) → IsAcceptedLoad l →
        (steps : List Step) (n : ℕ) (attempt : Step)
        → IsWordOperation (design_of l) (state_after l steps n) attempt }
{}

/// A step leaves the states and the ports of all other agents of all tiles, its own tile's included;
/// so the steps of other tiles leave a tile as it is.
pub fn other_agents_keep_their_ports()
    ensures ports { (l : Load) → IsAcceptedLoad l
        → (steps : List Step) (n : ℕ) (attempt : Step) (next : State)
        → step (design_of l) (state_after l steps n) attempt ≡ Some next
        → KeepsOthers (design_of l) (agent_tile attempt.agent) (agent_kind attempt.agent)
        (state_after l steps n).around next.around }
    ensures tiles { (l : Load) → IsAcceptedLoad l
        → (steps : List Step) (n : ℕ) (attempt : Step) (next : State) (u : ℕ)
        → step (design_of l) (state_after l steps n) attempt ≡ Some next
        → u ≢ agent_tile attempt.agent
        → tile_in (design_of l) next u ≡ tile_in (design_of l) (state_after l steps n) u }
    ensures agents { (l : Load) → IsAcceptedLoad l
        → (steps : List Step) (n : ℕ) (attempt : Step) (next : State) (p q : TilePlace)
        → step (design_of l) (state_after l steps n) attempt ≡ Some next
        → tile_in (design_of l) (state_after l steps n) (agent_tile attempt.agent) ≡ Some p
        → tile_in (design_of l) next (agent_tile attempt.agent) ≡ Some q
        → OnlyAgent (agent_kind attempt.agent) p q }
    ensures runs { (l : Load) → IsAcceptedLoad l → (steps more : List Step) (u : ℕ)
        → All (λ attempt. agent_tile attempt.agent ≢ u) more
        → tile_in (design_of l) (after l (steps ++ more)) u
        ≡ tile_in (design_of l) (after l steps) u }
{}

/// Before any step all places are 0, the words are the opening ones, and the done word is 0; and each
/// tile's ports are new.
pub fn first_rows()
    ensures row { (l : Load) → IsAcceptedLoad l
        → row_of (design_of l) (first_state l)
        ≡ replicate (channel_count l.shape * l.depth) 0 ++ (l.opening ++ 0 ∷ []) }
    ensures tiles { (l : Load) → IsAcceptedLoad l → (t : ℕ) (lines : List Line)
        → slice_get l.scripts t ≡ Some lines
        → tile_in (design_of l) (first_state l) t
        ≡ Some (new_tile (design_of l) t (first_tile (dims_of l.shape) l.tags lines)) }
{}
