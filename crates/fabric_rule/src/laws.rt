//! Laws of the shared row, each the contract of a function that does nothing.

ghost use mathlib.Core.Option.{some};
ghost use lib.ListN.{get_elem?};
ghost use Rattle.std.specs.Prelude.{◌≡◌, ◌<◌, ◌+◌, ◌*◌, ℕ, true, [], ◌∷◌, ◌++◌, List, length, set};
ghost use Rattle.std.specs.Prelude.{slice_index, Some};
ghost use Rattle.torus.specs.Shape.{tiles_of};
ghost use Rattle.channel_number.specs.Order.{channel_count};
ghost use Rattle.torus.specs.declared.step.Step.{Step};
ghost use Rattle.flit_buffer.specs.Words.{word_of, performed};
ghost use Rattle.flit_buffer.specs.declared.word_op.WordOp.{WordOp};
ghost use Rattle.flit_buffer.specs.declared.word_op.WordOp.TheVariants.{Store};
ghost use Rattle.tile.specs.Agents.{TilePlace};
ghost use Rattle.core_laws.specs.Core.{Load};
ghost use Rattle.core_laws.specs.Runs.{IsAcceptedLoad};
ghost use Rattle.fabric_rule.specs.Known.{tile_of, known, ShowsBeginning, word_after, row_length};
ghost use Rattle.fabric_rule.specs.Known.{op_of, moves, left_by, Suits};
ghost use Rattle.fabric_rule.specs.Told.{Away, Tells, made};
ghost use Rattle.fabric_rule.specs.View.{View, blank};
ghost use Rattle.fabric_rule.specs.Groups.{In, Apart, Others, Mine, Named, ToldOfGroup, both};
ghost use Rattle.fabric_rule.specs.Groups.{knowing, with_groups};
ghost use Rattle.fabric_rule.specs.Rule.{Kept, Attempted};

/// Only its own steps change a tile. So by a run that is the beginning of a longer one, after which its
/// tile made no step, and by one word of a row that shows the longer run, a seat knows whether its
/// attempt is enabled after the longer run, and what stands then.
pub fn a_seat_knows_enough()
    ensures tile { (load : Load) → IsAcceptedLoad load →
        (run more : List Step) (t : ℕ) → Away t more
        → known load (run ++ more) t ≡ known load run t }
    ensures word { (load : Load) → IsAcceptedLoad load
        → (row : List ℕ) (run more : List Step) (attempt : Step) (p : TilePlace) (op : WordOp)
        → ShowsBeginning load row (run ++ more) → Away (tile_of attempt) more
        → known load run (tile_of attempt) ≡ Some p → op_of p attempt ≡ Some op
        → Tells load row (run ++ more) attempt p op }
{}

/// The words of the memory stand in the row behind the places of all channels, and behind them the
/// done word; a tile of which something is known is one of the torus.
pub fn words_are_shown()
    ensures size { (load : Load) → IsAcceptedLoad load → (row : List ℕ) (run : List Step)
        → ShowsBeginning load row run → length row ≡ row_length load }
    ensures words { (load : Load) → IsAcceptedLoad load → (row : List ℕ) (run : List Step) (a : ℕ)
        → ShowsBeginning load row run
        → slice_index row (channel_count load.shape * load.depth + a) ≡ word_after load run a }
    ensures tiles { (load : Load) → IsAcceptedLoad load → (run : List Step) (t : ℕ) (p : TilePlace)
        → known load run t ≡ Some p → t < tiles_of load.shape }
{}

/// After a store nobody looks at the word that was there: not whether the tile moves, nor what it becomes,
/// nor what its agents ask of the word.
pub fn stores_are_blind()
    ensures { (load : Load) (p : TilePlace) (attempt : Step) (word v n m : ℕ)
        → op_of p attempt ≡ Some (Store word v)
        → (moves p attempt n ≡ moves p attempt m) × (left_by p attempt n ≡ left_by p attempt m)
        × (Suits load p attempt n → Suits load p attempt m) }
{}

/// The rule begins with one seat that knows the empty run, over the row that shows the state before any
/// step; and the run of a seat that has every tile is the longest.
pub fn the_rule_begins_and_ends()
    ensures begins { (load : Load) (row : List ℕ) (v : View) →
        ShowsBeginning load row [] → v.load ≡ load
        → v.run ≡ [] → v.told ≡ [] → Apart v.groups
        → Kept load row (v ∷ []) [] }
    ensures ends { (load : Load) (words : List ℕ) (views : List View) (r : List Step) (id : ℕ)
        (v : View)
        → Kept load words views r → get_elem? views id ≡ some v
        → ((t : ℕ) → t < tiles_of load.shape → In v.groups t) → v.run ≡ r }
{}

/// One law for steps of every kind. Where a seat that was told of nothing makes the operation of an attempt
/// at a tile of its own, that stands as after the seat's run, the rule is kept: the longest run goes on
/// by the attempt if it moved, and the seat knows all of it.
pub fn operations_keep_the_rule()
    ensures kept { (load : Load) → IsAcceptedLoad load
        → (words : List ℕ) (views : List View) (id : ℕ) (v : View)
        (attempt : Step) (p : TilePlace) (op : WordOp) (r between : List Step)
        → Kept load words views r → get_elem? views id ≡ some v → v.load ≡ load → v.told ≡ []
        → r ≡ v.run ++ between → Others v.groups between
        → In v.groups (tile_of attempt) → known v.load v.run (tile_of attempt) ≡ Some p
        → op_of p attempt ≡ Some op
        → Kept load (performed op words)
        (set views id (knowing v (r
        ++ made (moves p attempt (slice_index words (word_of op))) attempt)))
        (r ++ made (moves p attempt (slice_index words (word_of op))) attempt) }
    ensures told { (load : Load) → IsAcceptedLoad load
        → (words : List ℕ) (views : List View) (id : ℕ) (v : View)
        (attempt : Step) (p : TilePlace) (op : WordOp) (r between : List Step)
        → Kept load words views r → get_elem? views id ≡ some v → v.load ≡ load → v.told ≡ []
        → r ≡ v.run ++ between → Others v.groups between
        → In v.groups (tile_of attempt) → known v.load v.run (tile_of attempt) ≡ Some p
        → op_of p attempt ≡ Some op
        → Attempted attempt p v (slice_index words (word_of op))
        (knowing v (r ++ made (moves p attempt (slice_index words (word_of op))) attempt)) }
{}

/// The rule is kept where one seat learns the longest run, which may go on by steps of the seat's own and
/// be shown by another row; where the views of two seats become one; and where a view is cut in two.
pub fn views_keep_the_rule()
    ensures grown { (load : Load) (words now : List ℕ) (views : List View) (r more : List Step)
        (id : ℕ) (v w : View)
        → Kept load words views r → get_elem? views id ≡ some v
        → ShowsBeginning load now (r ++ more) → Named (tiles_of load.shape) more → Mine v.groups more
        → w.run ≡ r ++ more → (w.live ≡ true → w.load ≡ load)
        → ((t : ℕ) → In w.groups t → In v.groups t) → Apart w.groups
        → ToldOfGroup (r ++ more) w.groups w.told
        → Kept load now (set views id w) (r ++ more) }
    ensures joined { (load : Load) (words : List ℕ) (views : List View) (r : List Step)
        (id other : ℕ) (v w : View)
        → Kept load words views r → get_elem? views id ≡ some v
        → ¬ (other ≡ id) → get_elem? views other ≡ some w
        → Kept load words (set (set views id (both v w)) other blank) r }
    ensures cut { (load : Load) (words : List ℕ) (views : List View) (r : List Step) (id : ℕ)
        (v : View) (kept_groups given : List (List ℕ))
        → Kept load words views r → get_elem? views id ≡ some v
        → ((t : ℕ) → In kept_groups t → In v.groups t) → ((t : ℕ) → In given t → In v.groups t)
        → ((t : ℕ) → In kept_groups t → In given t → ⊥) → Apart kept_groups → Apart given
        → Kept load words (set views id (with_groups v kept_groups) ++ with_groups v given ∷ []) r }
{}
