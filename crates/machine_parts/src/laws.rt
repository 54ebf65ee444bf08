//! Laws of the flags, each the contract of a function that does nothing.

ghost use Rattle.std.specs.Prelude.{◌≡◌, ◌≢◌, ℕ, Bool, List, Some, None, true, false, replicate};
ghost use Rattle.torus.specs.Shape.{dims_of};
ghost use Rattle.torus.specs.declared.step.Step.{Step};
ghost use Rattle.torus.specs.declared.step.Choice.{Choice};
ghost use Rattle.channel_number.specs.Ports.{port_count};
ghost use Rattle.flit_buffer.specs.declared.word_op.WordOp.{WordOp};
ghost use Rattle.tile.specs.declared.agent.Agent.TheVariants.{Router};
ghost use Rattle.tile.specs.Tile.{Design};
ghost use Rattle.tile.specs.Agents.{agent_kind};
ghost use Rattle.tile.specs.Choices.{has_choice};
ghost use Rattle.core_laws.specs.Core.{Load, State, design_of, step, after};
ghost use Rattle.core_laws.specs.Runs.{IsAcceptedLoad};
ghost use Rattle.core_laws.specs.Attempts.{step_op};
ghost use Rattle.core_laws.specs.Sleep.{OthersSleep, attempts_at, has_moved};
ghost use Rattle.core_laws.specs.ChoicesAsleep.{OtherChoicesSleep};
ghost use Rattle.machine_parts.specs.Awake.{Awake, is_awake, is_choice_awake, awake_after, rested};
ghost use Rattle.machine_parts.specs.Awake.{roused, all_roused, choice_rested};

/// That no choice is enabled that doesn't count as awake holds where all are awake; a move keeps it, where
/// all choices of its own agent count as awake then, and those that its operation can enable; and so does
/// an agent's falling asleep, where its choices were attempted one after the other and none moved, and
/// that of a choice of a processor or a bank that isn't enabled. Every agent that doesn't count as awake
/// is asleep then.
pub fn flags_keep_sleepers()
    ensures fresh { (d : Design) (s : State) → OtherChoicesSleep d s
        (is_choice_awake (record { design = d; flags = replicate 192 255 })) }
    ensures moved { (l : Load) → IsAcceptedLoad l
        → (steps : List Step) (attempt : Step) (op : WordOp) (next : State) (w : Awake)
        → w.design ≡ design_of l → OtherChoicesSleep (design_of l) (after l steps) (is_choice_awake w)
        → step_op (design_of l) (after l steps) attempt ≡ Some op
        → step (design_of l) (after l steps) attempt ≡ Some next
        → OtherChoicesSleep (design_of l) next (is_choice_awake (awake_after w attempt.agent op)) }
    ensures rested { (d : Design) (s : State) (agent : ℕ) (w : Awake)
        → OtherChoicesSleep d s (is_choice_awake w) → has_moved d s (attempts_at d.shape agent) ≡ false
        → OtherChoicesSleep d s (is_choice_awake (rested w agent)) }
    ensures choice { (d : Design) (s : State) (agent : ℕ) (choice : Choice)
        (awake : ℕ → Choice → Bool)
        → OtherChoicesSleep d s awake → agent_kind agent ≢ Router
        → has_choice (port_count (dims_of d.shape)) (agent_kind agent) choice ≡ true
        → step d s (record { agent = agent; choice = choice }) ≡ None
        → OtherChoicesSleep d s (choice_rested agent choice awake) }
    ensures agents { (d : Design) (s : State) (w : Awake) →
        OtherChoicesSleep d s (is_choice_awake w)
        → OthersSleep d s (is_awake w) }
{}

/// Who counts as asleep once an agent is roused did before, and is another one, and so does a choice; once
/// all are roused, none does.
pub fn roused_agents_are_awake()
    ensures one { (w : Awake) (agent k : ℕ) → is_awake (roused w agent) k ≡ false
        → (k ≢ agent) × (is_awake w k ≡ false) }
    ensures all { (w : Awake) (k : ℕ) → is_awake (all_roused w) k ≡ true }
    ensures choice { (w : Awake) (agent k : ℕ) (c : Choice) →
        is_choice_awake (roused w agent) k c ≡ false
        → (k ≢ agent) × (is_choice_awake w k c ≡ false) }
    ensures choices { (w : Awake) (k : ℕ) (c : Choice) → is_choice_awake (all_roused w) k c ≡ true }
{}
