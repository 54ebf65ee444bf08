//! Laws of moves on a wormhole network, each the contract of a function that does nothing.

ghost use Rattle.std.specs.Prelude.{◌≡◌, ◌⊎◌, ◌+◌, ◌*◌, ◌<◌, ◌≤◌, ℕ, Bool, true, List, length, sum_by};
ghost use Rattle.wormhole.specs.Net.{Net, IsNet};
ghost use Rattle.wormhole.specs.State.{NetState, empty};
ghost use Rattle.wormhole.specs.Events.{NetEvent, CanHappen, CanAllHappen, after, after_all};
ghost use Rattle.wormhole.specs.Words.{Words};
ghost use Rattle.wormhole.specs.Routes.{Routes, between};
ghost use Rattle.wormhole.specs.Delivery.{IsReached, whole};
ghost use Rattle.wormhole.specs.Weight.{sum_below, weight, promised};
ghost use Rattle.wormhole.specs.Ends.{Tiles, AreTiles, Goes, NetMove, IsQuiet};
ghost use Rattle.wormhole.specs.Work.{End, first_end, work, IsStep};

/// Something in the network can move, or all its channels are quiet: whatever follows from each
/// possible move holds, or no flit stands anywhere. A channel that isn't quiet gives a move.
pub fn goes_or_quiet()
    ensures either { (n : Net) → IsNet n → 0 < n.depth → (tiles : Tiles) → AreTiles n tiles
        → (s : NetState) → Words n s → Routes n s
        → (goes : Bool) → Goes n s tiles (goes ≡ true)
        → (goes ≡ true) ⊎ ((x : ℕ) → x < n.channels → IsQuiet n s x) }
    ensures moving { (n : Net) → IsNet n → 0 < n.depth → (tiles : Tiles) → AreTiles n tiles
        → (s : NetState) → IsReached n s
        → (x : ℕ) → x < n.channels → (IsQuiet n s x → ⊥) → NetMove n s tiles }
    ensures quiet { (n : Net) → IsNet n → 0 < n.depth → (tiles : Tiles) → AreTiles n tiles
        → (s : NetState) → IsReached n s
        → Goes n s tiles ⊥ → (x : ℕ) → x < n.channels → IsQuiet n s x }
{}

/// Over a quiet network all packets have come: what was sent between two ends is what is whole there.
pub fn quiet_networks_have_delivered()
    ensures { (n : Net) → IsNet n → (s : NetState) → Routes n s
        → ((x : ℕ) → x < n.channels → IsQuiet n s x)
        → (i j : ℕ) → n.joins i j ≡ true → j < n.channels
        → between i j (whole s j) ≡ between i j (s.notes i).sent }
{}

/// Each event of the network is one of the moves that packets promise when they are sent.
pub fn events_make_moves()
    ensures each { (n : Net) → IsNet n → (s : NetState) → Words n s → Routes n s → (e : NetEvent)
        → CanHappen n s.lines e
        → weight n (after n s e) + 1 ≡ weight n s + promised n e }
    ensures all { (n : Net) → IsNet n → (es : List NetEvent) → CanAllHappen n (empty n) es
        → weight n (after_all n (empty n) es) + length es ≡ sum_by (promised n) es }
{}

/// Bounded work: each enabled step of the tiles' agents lowers the work, so there are no more steps
/// than work, and at first that is 241 for each operation, and 2 for each tile.
pub fn work_is_bounded()
    ensures step { (n : Net) → IsNet n → (tiles : ℕ) (ends new : ℕ → End) (s t : NetState) → Words n s
        → Routes n s
        → IsStep n tiles ends s new t → work n tiles new t < work n tiles ends s }
    ensures steps { (n : Net) → IsNet n → (tiles : ℕ) (ends : ℕ → ℕ → End) (s : ℕ → NetState)
        → IsReached n (s 0)
        → (m : ℕ) → ((i : ℕ) → i < m → IsStep n tiles (ends i) (s i) (ends (i + 1)) (s (i + 1)))
        → m + work n tiles (ends m) (s m) ≤ work n tiles (ends 0) (s 0) }
    ensures first { (n : Net) (tiles total : ℕ) (ops room : ℕ → ℕ) → sum_below tiles ops ≡ total
        → sum_below tiles room ≡ total
        → work n tiles (λ t. first_end (ops t) (room t)) (empty n) ≡ 241 * total + 2 * tiles }
{}
