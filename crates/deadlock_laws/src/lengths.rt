//! Laws of packets of one length, each the contract of a function that does nothing.

ghost use Rattle.std.specs.Prelude.{ℕ, ◌+◌, ◌<◌, ◌≤◌, List, []};
ghost use Rattle.network_judge.specs.Table.{Table};
ghost use Rattle.network_judge.specs.TableNet.{Flits};
ghost use Rattle.network_judge.specs.Verdicts.{AllArrive, IsVerdict};
ghost use Rattle.network_judge.specs.Cycles.{IsCycle};
ghost use Rattle.network_judge.specs.declared.table.Link.{Link};
ghost use Rattle.network_judge.specs.declared.table.Verdict.{Verdict};
ghost use Rattle.network_judge.specs.declared.fill.Fill.{Fill};
ghost use Rattle.network_judge.specs.Jams.{IsJam};
ghost use Rattle.network_judge.specs.LockUps.{plain_format};
ghost use Rattle.deadlock_laws.specs.Lengths.{LocksUpOf, HasPacketsOf, SettlesLength};
ghost use Rattle.deadlock_laws.specs.CircularJams.{IsCircularJam};

use std::alloc::Allocator;

/// A network with a cycle, in which all walks arrive, has a circular jam: channels that can be filled one
/// after the other, each of whose packets wait for the channel that was filled before it, and those of the
/// first one for the last.
pub fn cycles_have_circular_jams()
    ensures { (t : Table) (links : List Link) → AllArrive t → IsCycle t [] links
        → (fs : List Fill) × IsCircularJam t fs }
{}

/// A circular jam is a jam.
pub fn circular_jams_are_jams()
    ensures { (t : Table) (fs : List Fill) → IsCircularJam t fs → IsJam t [] fs }
{}

/// Where all packets have so many flits, and a channel and the latch behind it can hold one, a network with
/// a circular jam, or with a cycle, can deadlock: there is a run with packets of this length alone after
/// which flits stand and nothing can go.
pub fn packets_that_fit_lock_up()
    ensures jam { (t : Table) (fs : List Fill) → IsCircularJam t fs
        → (size depth : ℕ) (flits : Flits) → 0 < depth → size ≤ depth + 1
        → HasPacketsOf t flits size → LocksUpOf t [] depth flits size }
    ensures cycle { (t : Table) (links : List Link) → AllArrive t → IsCycle t [] links
        → (size depth : ℕ) (flits : Flits) → 0 < depth → size ≤ depth + 1
        → HasPacketsOf t flits size → LocksUpOf t [] depth flits size }
{}

/// So for packets that a channel and its latch can hold the verdict decides deadlocks: with rising numbers
/// no run of them deadlocks the network, with a cycle one does.
pub fn verdicts_decide_lengths_that_fit<A: Allocator>()
    ensures { (t : Table) (v : Verdict A) → IsVerdict t [] v → (size depth : ℕ) (flits : Flits)
        → 0 < depth → size ≤ depth + 1 → HasPacketsOf t flits size
        → SettlesLength t depth flits size v }
{}

/// The plain format has packets of each length from one flit on, so there are such formats.
pub fn some_format_has_packets_of_each_length()
    ensures { (t : Table) (size : ℕ) → 0 < size → HasPacketsOf t plain_format size }
{}
