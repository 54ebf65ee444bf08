//! Laws of endpoints that answer, each the contract of a function that does nothing.

ghost use Rattle.std.specs.Prelude.{◌⊎◌, ℕ, ◌<◌, List, []};
ghost use Rattle.wormhole.specs.Delivery.{IsReached};
ghost use Rattle.network_judge.specs.Table.{Table};
ghost use Rattle.network_judge.specs.Replies.{AreReplies};
ghost use Rattle.network_judge.specs.TableNet.{Flits, numbered};
ghost use Rattle.network_judge.specs.Verdicts.{AllArrive, IsNumbered};
ghost use Rattle.network_judge.specs.Cycles.{IsCycle};
ghost use Rattle.network_judge.specs.declared.table.Link.{Link};
ghost use Rattle.network_judge.specs.declared.fill.Fill.{Fill};
ghost use Rattle.network_judge.specs.LockUps.{HasOneFlitPackets};
ghost use Rattle.deadlock_laws.specs.CircularJams.{IsCircularJam};
ghost use Rattle.deadlock_laws.specs.Endpoints.{Endpoints, EndState, EndsReached};
ghost use Rattle.deadlock_laws.specs.Endpoints.{EndMove, AllIsDone};
ghost use Rattle.deadlock_laws.specs.Transactions.{IsComposed, EndsLockUp, HasAllDependencies};

/// What the network does is a run of the network, so packets come whole, once and in order there.
pub fn endpoints_run_the_network()
    ensures { (t : Table) (p : Endpoints) (numbers : List ℕ) (depth : ℕ) (flits : Flits)
        (s : EndState) → EndsReached (numbered t numbers depth flits) p s
        → IsReached (numbered t numbers depth flits) s.net }
{}

/// Where numbers rise along every route and over every reply, a network with endpoints that take a packet
/// only while their queue has room is free of deadlock: whatever the depth of its channels, the rooms of
/// the queues (one or more), the lengths of the packets and what each begets. In every state that events
/// lead to something must go, or no flit stands anywhere and every answer is sent.
pub fn rising_classes_never_lock_up()
    ensures { (t : Table) (p : Endpoints) (numbers : List ℕ) → AreReplies t p.replies
        → IsNumbered t p.replies numbers → ((x : ℕ) → 0 < p.room x)
        → (depth : ℕ) (flits : Flits) → 0 < depth
        → (s : EndState) → EndsReached (numbered t numbers depth flits) p s
        → EndMove (numbered t numbers depth flits) p s
        ⊎ AllIsDone (numbered t numbers depth flits) s }
{}

/// Such numbers and a run with endpoints that deadlocks the network exclude one another.
pub fn rising_classes_have_no_lock_up()
    ensures { (t : Table) (p : Endpoints) (numbers : List ℕ) → AreReplies t p.replies
        → IsNumbered t p.replies numbers → ((x : ℕ) → 0 < p.room x)
        → (depth : ℕ) (flits : Flits) → 0 < depth → EndsLockUp t p depth flits → ⊥ }
{}

/// Where the transactions of a network with endpoints have a circular jam, or a cycle, the network can
/// deadlock, whatever the depth of its channels and the rooms of its queues: by packets of one flit, none
/// of which is sent unasked where answers go.
pub fn composed_cycles_lock_up()
    ensures jam { (t : Table) (p : Endpoints) (c : Table) (leg : ℕ → ℕ → ℕ)
        → AreReplies t p.replies → IsComposed t p c leg → ((x : ℕ) → 0 < p.room x)
        → (fs : List Fill) → IsCircularJam c fs
        → (depth : ℕ) (flits : Flits) → 0 < depth → HasOneFlitPackets t flits
        → EndsLockUp t p depth flits }
    ensures cycle { (t : Table) (p : Endpoints) (c : Table) (leg : ℕ → ℕ → ℕ)
        → AreReplies t p.replies → IsComposed t p c leg → ((x : ℕ) → 0 < p.room x)
        → (links : List Link) → AllArrive c → IsCycle c [] links
        → (depth : ℕ) (flits : Flits) → 0 < depth → HasOneFlitPackets t flits
        → EndsLockUp t p depth flits }
{}

/// Where the transactions have each dependency of the network and each reply, a cycle of the network with
/// its replies is enough. So the verdict on such a network also decides deadlocks in which each answer is
/// owed for a packet that was taken.
pub fn covered_cycles_lock_up()
    ensures { (t : Table) (p : Endpoints) (c : Table) (leg : ℕ → ℕ → ℕ)
        → AreReplies t p.replies → IsComposed t p c leg → HasAllDependencies t p c
        → ((x : ℕ) → 0 < p.room x)
        → (links : List Link) → AllArrive t → AllArrive c → IsCycle t p.replies links
        → (depth : ℕ) (flits : Flits) → 0 < depth → HasOneFlitPackets t flits
        → EndsLockUp t p depth flits }
{}
