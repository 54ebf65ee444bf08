//! The fewest rounds that finish every script, in order or clocked.

ghost use Rattle.std.specs.Prelude.{◌≡◌, ◌<◌, ◌≤◌, ◌↔◌, ℕ, Bool, true, false, []};
ghost use Rattle.one_order.specs.Load.{Load};
ghost use Rattle.core_laws.specs.Runs.{IsAcceptedLoad};
ghost use Rattle.core_laws.specs.Machine.{core_after_load};
ghost use Rattle.machine_core.specs.Clocked.{NeedsClocked};
ghost use Rattle.machine_core.specs.FewestRounds.{AreFewest};
ghost use Rattle.machine_core.specs.Rounds.{NeedsRounds};
ghost use Rattle.machine_core.specs.Fewest.{AreFewestFrom};

/// At most one number of rounds is the fewest that finish every script, where so many are allowed. Of
/// rounds in order the number is that of `AreFewest`.
pub fn fewest_rounds_are_one()
    ensures one { (clocked : Bool) (l : Load) (most j k : ℕ)
        → AreFewestFrom clocked l most j → AreFewestFrom clocked l most k → j ≡ k }
    ensures in_order { (l : Load) (most k : ℕ) → AreFewestFrom false l most k ↔ AreFewest l most k }
{}

/// The fewest rounds in order from an accepted load, where more are allowed, are those of
/// `Machine::finish`; and these are the fewest where so many are allowed.
pub fn fewest_rounds_finish()
    ensures needed { (l : Load) (most k : ℕ) → IsAcceptedLoad l → k < most
        → AreFewestFrom false l most k → NeedsRounds (core_after_load l []) k }
    ensures fewest { (l : Load) (most k : ℕ) → IsAcceptedLoad l → k ≤ most
        → NeedsRounds (core_after_load l []) k → AreFewestFrom false l most k }
{}

/// The fewest clocked rounds from an accepted load, where more are allowed, are those of
/// `Machine::finish_clocked`; and these are the fewest where so many are allowed.
pub fn fewest_clocked_rounds_finish()
    ensures needed { (l : Load) (most k : ℕ) → IsAcceptedLoad l → k < most
        → AreFewestFrom true l most k → NeedsClocked (core_after_load l []) k }
    ensures fewest { (l : Load) (most k : ℕ) → IsAcceptedLoad l → k ≤ most
        → NeedsClocked (core_after_load l []) k → AreFewestFrom true l most k }
{}
