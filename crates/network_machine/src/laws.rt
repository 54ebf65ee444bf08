//! Laws of machines, each the contract of a function that does nothing.

ghost use Rattle.std.specs.Prelude.{ℕ, List};
ghost use Rattle.wormhole.specs.Net.{Net};
ghost use Rattle.wormhole.specs.State.{NetState, empty};
ghost use Rattle.wormhole.specs.Events.{NetEvent};
ghost use Rattle.network_judge.specs.LockUps.{IsLockUp};
ghost use Rattle.network_machine.specs.declared.moves.Move.{Move};
ghost use Rattle.network_machine.specs.Machine.{NetworkMachineSpec};
ghost use Rattle.network_machine.specs.Runs.{Runs};
ghost use Rattle.network_machine.specs.Endings.{IsLocked};

/// A run from the empty network that ends locked is a deadlock: its moves are events that all can happen,
/// and after them flits stand and nothing goes.
pub fn locked_runs_are_lock_ups()
    ensures { (n : Net) (m : NetworkMachineSpec) (moves : List Move) (s : NetState)
        → Runs n m.replies (empty n) moves s → IsLocked m n s
        → (events : List NetEvent) × IsLockUp n m.replies events }
{}
