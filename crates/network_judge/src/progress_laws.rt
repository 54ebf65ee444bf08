//! Laws of networks that are judged to have rising numbers, each the contract of a function that does
//! nothing.

ghost use Rattle.std.specs.Prelude.{◌≡◌, ◌⊎◌, ℕ, ◌<◌, true, List, All};
ghost use Rattle.wormhole.specs.State.{NetState};
ghost use Rattle.wormhole.specs.Routes.{between};
ghost use Rattle.wormhole.specs.Delivery.{IsReached, whole, IsDelivered, WasSentTo};
ghost use Rattle.wormhole.specs.Ends.{Tiles, AreTiles, IsQuiet};
ghost use Rattle.network_judge.specs.declared.table.Reply.{Reply};
ghost use Rattle.network_judge.specs.Table.{Table, channels_of, joins_of};
ghost use Rattle.network_judge.specs.Replies.{AreReplies};
ghost use Rattle.network_judge.specs.TableNet.{Flits, numbered};
ghost use Rattle.network_judge.specs.Verdicts.{IsNumbered};
ghost use Rattle.network_judge.specs.Receivers.{GoesWhere, MoveThere, AreEndsOfTiles};

/// A judged network never deadlocks: in every state that events lead to something can move, or all
/// channels are quiet, if receivers take a flit wherever each channel on which they answer holds a
/// credit. A channel that isn't quiet gives a move; and where nothing can move, all packets that were
/// sent have come whole.
pub fn judged_networks_never_lock_up()
    ensures either { (t : Table) (replies : List Reply) (numbers : List ℕ) → AreReplies t replies
        → IsNumbered t replies numbers → (depth : ℕ) (flits : Flits) → 0 < depth
        → (s : NetState) → IsReached (numbered t numbers depth flits) s
        → MoveThere (numbered t numbers depth flits) s replies
        ⊎ ((x : ℕ) → x < channels_of t → IsQuiet (numbered t numbers depth flits) s x) }
    ensures moving { (t : Table) (replies : List Reply) (numbers : List ℕ) → AreReplies t replies
        → IsNumbered t replies numbers → (depth : ℕ) (flits : Flits) → 0 < depth
        → (s : NetState) → IsReached (numbered t numbers depth flits) s
        → (x : ℕ) → x < channels_of t → (IsQuiet (numbered t numbers depth flits) s x → ⊥)
        → MoveThere (numbered t numbers depth flits) s replies }
    ensures delivered { (t : Table) (replies : List Reply) (numbers : List ℕ) → AreReplies t replies
        → IsNumbered t replies numbers → (depth : ℕ) (flits : Flits) → 0 < depth
        → (s : NetState) → IsReached (numbered t numbers depth flits) s
        → GoesWhere (numbered t numbers depth flits) s replies ⊥
        → (i j : ℕ) → joins_of t i j ≡ true
        → between i j (whole s j) ≡ between i j (s.notes i).sent }
{}

/// Packets of a judged network come whole, once and in the order in which they were sent, and none is
/// invented: a packet that is whole was sent, to where it is.
pub fn judged_networks_deliver()
    ensures order { (t : Table) (replies : List Reply) (numbers : List ℕ)
        → IsNumbered t replies numbers
        → (depth : ℕ) (flits : Flits) (s : NetState) → IsReached (numbered t numbers depth flits) s
        → (i j : ℕ) → joins_of t i j ≡ true → IsDelivered s i j }
    ensures sent { (t : Table) (replies : List Reply) (numbers : List ℕ)
        → IsNumbered t replies numbers
        → (depth : ℕ) (flits : Flits) (s : NetState) → IsReached (numbered t numbers depth flits) s
        → (x : ℕ) → All (WasSentTo (numbered t numbers depth flits) s x) (whole s x) }
{}

/// Tiles whose banks answer as the replies say have all that moves of processors and banks ask for:
/// the replies are numbered above the requests.
pub fn judged_networks_have_tiles()
    ensures { (t : Table) (replies : List Reply) (numbers : List ℕ) → AreReplies t replies
        → IsNumbered t replies numbers → (tiles : Tiles) → AreEndsOfTiles t replies tiles
        → (depth : ℕ) (flits : Flits) → AreTiles (numbered t numbers depth flits) tiles }
{}
