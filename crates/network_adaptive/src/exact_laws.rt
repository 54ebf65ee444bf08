//! Laws of the verdicts on adaptive networks: each network has exactly one.

ghost use Rattle.std.specs.Prelude.{◌≡◌, ◌⊎◌, ℕ, Bool};
ghost use Rattle.network_adaptive.specs.Choices.{AdaptiveNet, IsAdaptiveNet, HasEscapes};
ghost use Rattle.network_adaptive.specs.Choices.{AreReplyEnds};
ghost use Rattle.network_adaptive.specs.Choices.{AreRising};
ghost use Rattle.network_adaptive.specs.Verdicts.{IsDependencyCycle, LacksEscape, HasNumbers};
ghost use Rattle.network_adaptive.specs.Verdicts.{HasCycle};
ghost use Rattle.network_adaptive.specs.Verdicts.{HasNoEscape};

/// Around a cycle of extended dependencies no numbers rise.
pub fn cycles_have_no_numbers()
    ensures { (n : AdaptiveNet) (answers : ℕ → ℕ → Bool) (size : ℕ) (at : ℕ → ℕ)
        → IsDependencyCycle n answers size at → (number : ℕ → ℕ) → AreRising n answers number → ⊥ }
{}

/// Each network is judged: it has numbers that rise, a cycle, or a channel without an escape.
pub fn each_network_is_judged()
    ensures { (n : AdaptiveNet) (answers : ℕ → ℕ → Bool) → IsAdaptiveNet n → AreReplyEnds n answers
        → HasNumbers n answers ⊎ (HasCycle n answers ⊎ HasNoEscape n) }
{}

/// And no two of these hold.
pub fn verdicts_are_exact()
    ensures numbers_or_cycle { (n : AdaptiveNet) (answers : ℕ → ℕ → Bool) → HasNumbers n answers
        → HasCycle n answers → ⊥ }
    ensures escapes_or_none { (n : AdaptiveNet) → HasEscapes n → HasNoEscape n → ⊥ }
{}
