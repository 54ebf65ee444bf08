//! Laws of deadlocks where routers choose, each the contract of a function that does nothing.

ghost use Rattle.std.specs.Prelude.{◌≡◌, ◌⊎◌, ℕ, ◌<◌, Bool, true, false, List, [], All};
ghost use Rattle.wormhole.specs.State.{empty, in_line};
ghost use Rattle.wormhole.specs.Events.{NetEvent, after_all};
ghost use Rattle.network_adaptive.specs.Choices.{AdaptiveNet, IsAdaptiveNet, AreReplyEnds};
ghost use Rattle.network_adaptive.specs.Flow.{CanAllOccur};
ghost use Rattle.deadlock_laws.specs.Lengths.{HasLength};
ghost use Rattle.deadlock_laws.specs.LockUps.{IsAdaptiveLockUp, HasSingleFlitPackets};
ghost use Rattle.deadlock_laws.specs.LockUps.{GoesByChoices};
ghost use Rattle.deadlock_laws.specs.Fillings.{Filling, IsDeadFilling, is_occupied};
ghost use Rattle.deadlock_laws.specs.DeadSets.{IsDeadSet, HasRisingChoices};

/// A network with channels that can be filled so that packets of one flit wait for one another wherever
/// they could go can deadlock, whatever the depth of its channels.
pub fn fillings_lock_up()
    ensures { (n : AdaptiveNet) (answers : ℕ → ℕ → Bool) (fs : List Filling) → IsAdaptiveNet n
        → 0 < n.frame.depth → HasSingleFlitPackets n → IsDeadFilling n answers fs
        → (events : List NetEvent) × IsAdaptiveLockUp n answers events }
{}

/// The channels of such a filling are a dead set.
pub fn fillings_are_dead_sets()
    ensures { (n : AdaptiveNet) (answers : ℕ → ℕ → Bool) (fs : List Filling)
        → IsDeadFilling n answers fs → IsDeadSet n answers (is_occupied fs) }
{}

/// Where a choice rises wherever packets come, the network never deadlocks with packets of one flit: after
/// each run of them something can go, or no flit stands anywhere.
pub fn rising_choices_never_lock_up()
    ensures empty { (n : AdaptiveNet) (answers : ℕ → ℕ → Bool) (number : ℕ → ℕ) → IsAdaptiveNet n
        → AreReplyEnds n answers → HasRisingChoices n answers number → 0 < n.frame.depth
        → (events : List NetEvent) → All (HasLength 1) events → CanAllOccur n (empty n.frame) events
        → GoesByChoices n (after_all n.frame (empty n.frame) events) answers ⊥
        → (x : ℕ) → x < n.frame.channels
        → in_line ((after_all n.frame (empty n.frame) events).lines x) ≡ [] }
    ensures never { (n : AdaptiveNet) (answers : ℕ → ℕ → Bool) (number : ℕ → ℕ) → IsAdaptiveNet n
        → AreReplyEnds n answers → HasRisingChoices n answers number → 0 < n.frame.depth
        → (events : List NetEvent) → All (HasLength 1) events
        → IsAdaptiveLockUp n answers events → ⊥ }
{}

/// Choices rise exactly where no channel is in a dead set: each network has such numbers or a dead set,
/// and none has both.
pub fn choices_rise_or_a_dead_set_stands()
    ensures either { (n : AdaptiveNet) (answers : ℕ → ℕ → Bool) → IsAdaptiveNet n
        → AreReplyEnds n answers
        → ((number : ℕ → ℕ) × HasRisingChoices n answers number)
        ⊎ ((set : ℕ → Bool) × ((x : ℕ) × (set x ≡ true)) × IsDeadSet n answers set) }
    ensures never_both { (n : AdaptiveNet) (answers : ℕ → ℕ → Bool) (number : ℕ → ℕ)
        → IsAdaptiveNet n → AreReplyEnds n answers → HasRisingChoices n answers number
        → (set : ℕ → Bool) → IsDeadSet n answers set → (x : ℕ) → set x ≡ false }
{}
