//! Laws of networks that can deadlock, each the contract of a function that does nothing.

ghost use Rattle.std.specs.Prelude.{ℕ, ◌<◌, List};
ghost use Rattle.network_judge.specs.declared.table.Verdict.{Verdict};
ghost use Rattle.network_judge.specs.Verdicts.{IsVerdict};
ghost use Rattle.network_judge.specs.declared.table.Reply.{Reply};
ghost use Rattle.network_judge.specs.Table.{Table};
ghost use Rattle.network_judge.specs.Replies.{AreReplies};
ghost use Rattle.network_judge.specs.TableNet.{Flits};
ghost use Rattle.network_judge.specs.Verdicts.{AllArrive, IsNumbered};
ghost use Rattle.network_judge.specs.Cycles.{IsCycle};
ghost use Rattle.network_judge.specs.declared.table.Link.{Link};
ghost use Rattle.network_judge.specs.declared.fill.Fill.{Fill};
ghost use Rattle.network_judge.specs.Jams.{IsJam};
ghost use Rattle.network_judge.specs.LockUps.{LocksUp, HasOneFlitPackets, SettlesLockUps};
ghost use Rattle.network_judge.specs.LockUps.{plain_format};

use std::alloc::Allocator;

/// A network with a jam can deadlock, whatever the depth of its channels.
pub fn jams_lock_up()
    ensures { (t : Table) (replies : List Reply) (fs : List Fill) → IsJam t replies fs
        → (depth : ℕ) (flits : Flits) → 0 < depth → HasOneFlitPackets t flits
        → LocksUp t replies depth flits }
{}

/// A network with rising numbers never deadlocks.
pub fn rising_networks_never_lock_up()
    ensures { (t : Table) (replies : List Reply) (numbers : List ℕ) → AreReplies t replies
        → IsNumbered t replies numbers → (depth : ℕ) (flits : Flits) → 0 < depth
        → LocksUp t replies depth flits → ⊥ }
{}

/// A network with a cycle can deadlock.
pub fn cycles_lock_up()
    ensures jam { (t : Table) (replies : List Reply) (links : List Link) → AllArrive t
        → AreReplies t replies → IsCycle t replies links
        → (fs : List Fill) × IsJam t replies fs }
    ensures locks { (t : Table) (replies : List Reply) (links : List Link) → AllArrive t
        → AreReplies t replies → IsCycle t replies links
        → (depth : ℕ) (flits : Flits) → 0 < depth → HasOneFlitPackets t flits
        → LocksUp t replies depth flits }
{}

/// A network in which all walks arrive can deadlock only if it has a cycle: the other direction (Dally
/// and Seitz). So a verdict of cycles says that the network can deadlock, and one of rising numbers that
/// it is free of deadlock.
pub fn lock_ups_have_cycles<A: Allocator>()
    ensures cycle { (t : Table) (replies : List Reply) → AllArrive t → AreReplies t replies
        → (depth : ℕ) (flits : Flits) → 0 < depth → LocksUp t replies depth flits
        → (links : List Link) × IsCycle t replies links }
    ensures verdict { (t : Table) (replies : List Reply) → AreReplies t replies → (v : Verdict A)
        → IsVerdict t replies v → (depth : ℕ) (flits : Flits) → 0 < depth
        → HasOneFlitPackets t flits → SettlesLockUps t replies depth flits v }
{}

/// The plain format has packets of one flit to each ejection channel, so there are such formats.
pub fn some_format_has_one_flit_packets()
    ensures { (t : Table) → HasOneFlitPackets t plain_format }
{}
