//! Laws of the end of a run, each the contract of a function that does nothing.

ghost use Rattle.std.specs.Prelude.{◌≡◌, ℕ, true, List, length, Some};
ghost use Rattle.torus.specs.declared.step.Step.{Step};
ghost use Rattle.one_order.specs.AbstractScripts.{AreFinished};
ghost use Rattle.tile.specs.Agents.{TilePlace};
ghost use Rattle.core_laws.specs.Core.{Load, run_of};
ghost use Rattle.core_laws.specs.Runs.{IsAcceptedLoad};
ghost use Rattle.fabric_rule.specs.Known.{known};
ghost use Rattle.fabric_rule.specs.Ended.{AreAllFinished};

/// Where one processor has seen the end after a run, every script is finished: the processor saw that
/// all have reported, and only one whose script is finished reports.
pub fn ends_seen_are_ends()
    ensures followers { (load : Load) → IsAcceptedLoad load →
        (run : List Step) (t : ℕ) (p : TilePlace)
        → known load run t ≡ Some p
        → p.processor.state.seen ≡ true → AreAllFinished load run }
    ensures scripts { (load : Load) → IsAcceptedLoad load → (run : List Step) →
        AreAllFinished load run
        → AreFinished (run_of load run) (length run) load.scripts }
{}
