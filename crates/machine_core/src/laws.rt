//! Laws of what machines show and tell, each the contract of a function that does nothing.

ghost use Rattle.std.specs.Prelude.{◌≡◌, List, []};
ghost use Rattle.torus.specs.declared.step.Step.{Step};
ghost use Rattle.machine_parts.specs.Core.{Load, after};
ghost use Rattle.machine_parts.specs.Machine.{Core, IsAfter};
ghost use Rattle.machine_core.specs.Shown.{ShowsRow};
ghost use Rattle.machine_core.specs.Fresh.{told_load};

/// The row of every machine that is reached, in full: where each flit of each channel stands, that 0
/// stands at all other places of the channels, the words of the memory behind them, and the done word.
pub fn rows_show_machines()
    ensures { (l : Load) (c : Core) (steps : List Step) → IsAfter l c steps → ShowsRow l steps c }
{}

/// Two loads from which one machine stands freshly loaded run alike; and what the machine tells of its
/// load is such a load.
pub fn fresh_machines_tell_their_load()
    ensures told { (l : Load) (c : Core) → IsAfter l c [] → IsAfter (told_load c) c [] }
    ensures alike { (l k : Load) (c : Core) → IsAfter l c [] → IsAfter k c [] → (steps : List Step)
        → after l steps ≡ after k steps }
{}
