//! Laws of turns, each the contract of a function that does nothing.

ghost use Rattle.std.specs.Prelude.{◌≡◌, false};
ghost use Rattle.torus.specs.declared.step.Step.{Step};
ghost use Rattle.fabric_rule.specs.Known.{enabled};
ghost use Rattle.fabric.specs.Seats.{Knowing};
ghost use Rattle.worker_run.specs.Working.{Turns, Grew};

/// A turn whose step isn't enabled after the run that the seat knows may be left out: that nothing is done,
/// and the seat knows what it knew, is what an idle turn may be.
pub fn skipped_turns_are_idle()
    ensures { (v : Knowing) (c : Step) → enabled v.load v.run c ≡ false → Turns v c v × Grew v v }
{}
