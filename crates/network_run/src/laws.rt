//! Laws of runs, each the contract of a function that does nothing.

ghost use Rattle.std.specs.Prelude.{ℕ, ◌<◌, List};
ghost use Rattle.wormhole.specs.Events.{NetEvent};
ghost use Rattle.network_judge.specs.declared.table.Reply.{Reply};
ghost use Rattle.network_judge.specs.LockUps.{IsLockUp, LocksUp, plain_format};
ghost use Rattle.network_judge.specs.Table.{Table};
ghost use Rattle.network_judge.specs.TableNet.{Flits, table_network};
ghost use Rattle.network_machine.specs.declared.moves.Move.{Move};
ghost use Rattle.network_answer.specs.Answer.{NeverLocksUp};
ghost use Rattle.network_text.specs.Network.{NetworkSpec};
ghost use Rattle.network_run.specs.LockedUp.{HasNoLockUp, MovesLockUp};

/// A network that some moves deadlock can deadlock: at this depth, with flits of the plain format.
pub fn locking_moves_are_lock_ups()
    ensures { (n : NetworkSpec) (depth : ℕ) (moves : List Move) → MovesLockUp n depth moves
        → LocksUp n.table n.replies depth plain_format }
{}

/// Events look at no numbers of channels: a run that deadlocks a network under one numbering does so under
/// every other. So no run deadlocks a network that is free of deadlock, whatever the numbering.
pub fn lock_ups_look_at_no_numbers()
    ensures every { (t : Table) (replies : List Reply) (depth : ℕ) (flits : Flits)
        (number other : ℕ → ℕ) (top bound : ℕ) (events : List NetEvent)
        → IsLockUp (table_network t number top depth flits) replies events
        → IsLockUp (table_network t other bound depth flits) replies events }
    ensures never { (n : NetworkSpec) → NeverLocksUp n → HasNoLockUp n }
{}
