//! Laws of who is awake, each the contract of a function that does nothing.

ghost use Rattle.std.specs.Prelude.{◌≡◌, ◌≢◌, ◌↔◌, ◌<◌, ◌||◌, [], ◌∷◌, ℕ, Bool, List, Some, None};
ghost use Rattle.std.specs.Prelude.{true, false, length, map, slice_index};
ghost use Rattle.torus.specs.Shape.{Shape, IsAccepted as IsAcceptedShape, tiles_of};
ghost use Rattle.torus.specs.declared.step.Step.{Step};
ghost use Rattle.torus.specs.declared.step.Choice.{Choice};
ghost use Rattle.torus.specs.declared.step.Choice.TheVariants.{Serve, Put};
ghost use Rattle.flit_buffer.specs.declared.word_op.WordOp.{WordOp};
ghost use Rattle.core_laws.specs.Agent.{Agent};
ghost use Rattle.core_laws.specs.Agent.TheVariants.{Router, Bank};
ghost use Rattle.core_laws.specs.Tile.{Design};
ghost use Rattle.core_laws.specs.Agents.{wiring_of, agent_number, agent_kind};
ghost use Rattle.core_laws.specs.Core.{Load, State, design_of, step, after_from};
ghost use Rattle.core_laws.specs.Core.{after, attempts_of, round};
ghost use Rattle.core_laws.specs.Runs.{IsAcceptedLoad};
ghost use Rattle.core_laws.specs.Attempts.{step_op};
ghost use Rattle.core_laws.specs.Machine.{Core, built_to, core_after};
ghost use Rattle.core_laws.specs.Waking.{receiver_of, sender_of, Disturbs, woken, is_woken};
ghost use Rattle.core_laws.specs.Sleep.{IsAsleep, OthersSleep, attempts_at, has_moved};
ghost use Rattle.core_laws.specs.Operations.{woken_by_operation};
ghost use Rattle.core_laws.specs.Watch.{Watch, round_awake};
ghost use Rattle.core_laws.specs.ChoicesAsleep.{OtherChoicesSleep, choices_woken, can_enable};
ghost use Rattle.core_laws.specs.Routers.{PortFlags, OtherPortsSleep, of_router, ports_woken};
ghost use Rattle.core_laws.specs.Routers.{router_moved, latch_at};

/// A step leaves the choices of another agent that look at nothing that it changes enabled, or not
/// enabled, as they were.
pub fn steps_leave_distant_choices()
    ensures { (l : Load) → IsAcceptedLoad l →
        (steps : List Step) (attempt other : Step) (next : State)
        → step (design_of l) (after l steps) attempt ≡ Some next → other.agent ≢ attempt.agent
        → (Disturbs (design_of l) (after l steps) attempt other → ⊥)
        → (step (design_of l) next other ≡ None)
        ↔ (step (design_of l) (after l steps) other ≡ None) }
{}

/// Each input of an agent is at a channel that it receives from, and each output at one that it sends on.
pub fn channels_have_two_agents()
    ensures receiver { (s : Shape) → IsAcceptedShape s → (t : ℕ) (a : Agent) (i : ℕ)
        → t < tiles_of s → i < length (wiring_of s t a).inputs
        → receiver_of s (slice_index (wiring_of s t a).inputs i) ≡ agent_number t a }
    ensures sender { (s : Shape) → IsAcceptedShape s → (t : ℕ) (a : Agent) (o : ℕ) → t < tiles_of s
        → o < length (wiring_of s t a).outputs
        → sender_of s (slice_index (wiring_of s t a).outputs o) ≡ agent_number t a }
{}

/// A move wakes its own agent, and besides at most the agent at the other end of the channel that it
/// changed, or, where it changed the done word, the processors: every other agent that had no enabled
/// choice has none after it. A service wakes no other agent.
pub fn moves_wake_few()
    ensures disturbed { (l : Load) → IsAcceptedLoad l → (steps : List Step) (attempt other : Step)
        → Disturbs (design_of l) (after l steps) attempt other
        → is_woken (design_of l) (after l steps) attempt other.agent ≡ true }
    ensures others { (l : Load) → IsAcceptedLoad l
        → (steps : List Step) (attempt : Step) (next : State) (agent : ℕ)
        → step (design_of l) (after l steps) attempt ≡ Some next
        → is_woken (design_of l) (after l steps) attempt agent ≡ false
        → IsAsleep (design_of l) (after l steps) agent → IsAsleep (design_of l) next agent }
    ensures services { (l : Load) → IsAcceptedLoad l → (steps : List Step) (agent : ℕ)
        → agent_kind agent ≡ Bank
        → woken (design_of l) (after l steps) (record { agent = agent; choice = Serve })
        ≡ agent ∷ [] }
{}

/// The operation of an attempt tells whom it wakes: a swap at a place of a channel its sender, a store
/// there its receiver, an addition to the done word the processors, and any other nobody.
pub fn operations_tell_whom_they_wake()
    ensures { (l : Load) → IsAcceptedLoad l → (steps : List Step) (attempt : Step) (op : WordOp)
        → step_op (design_of l) (after l steps) attempt ≡ Some op
        → woken (design_of l) (after l steps) attempt
        ≡ attempt.agent ∷ woken_by_operation (design_of l) op }
{}

/// An agent whose choices were attempted one after the other, and none moved, is asleep; and attempts
/// of an agent that is asleep change nothing, of the state and of the machine with its book.
pub fn sleepers_stay_asleep()
    ensures falls { (d : Design) (s : State) (agent : ℕ)
        → has_moved d s (attempts_at d.shape agent) ≡ false → IsAsleep d s agent }
    ensures still { (d : Design) (s : State) (attempts : List Step) → has_moved d s attempts ≡ false
        → after_from d s attempts ≡ s }
    ensures unmoved { (d : Design) (s : State) (agent : ℕ) (choices : List Choice)
        → IsAsleep d s agent → has_moved d s (attempts_of agent choices) ≡ false }
    ensures same { (d : Design) (s : State) (agent : ℕ) (choices : List Choice) → IsAsleep d s agent
        → after_from d s (attempts_of agent choices) ≡ s }
    ensures machine { (c : Core) (agent : ℕ) (choices : List Choice)
        → IsAsleep (built_to c) c.state agent → core_after c (attempts_of agent choices) ≡ c }
{}

/// That all agents but those counted as awake are asleep holds of all agents, and of more; and a move
/// keeps it, where those that it wakes are counted too.
pub fn moves_keep_sleepers()
    ensures all { (d : Design) (s : State) → OthersSleep d s (λ agent. true) }
    ensures more { (d : Design) (s : State) (awake more : ℕ → Bool) → OthersSleep d s awake
        → ((agent : ℕ) → more agent ≡ false → awake agent ≡ false) → OthersSleep d s more }
    ensures kept { (l : Load) → IsAcceptedLoad l
        → (steps : List Step) (attempt : Step) (next : State) (awake : ℕ → Bool)
        → OthersSleep (design_of l) (after l steps) awake
        → step (design_of l) (after l steps) attempt ≡ Some next
        → OthersSleep (design_of l) next
        (λ agent. awake agent || is_woken (design_of l) (after l steps) attempt agent) }
{}

/// A round that leaves out the agents that aren't awake when their turn comes leads where the round
/// leads, and all agents but those then awake are asleep there.
pub fn rounds_may_skip_sleepers()
    ensures state { (l : Load) → IsAcceptedLoad l → (steps : List Step) (awake : ℕ → Bool)
        → OthersSleep (design_of l) (after l steps) awake
        → (round_awake (design_of l) (record { state = after l steps; awake = awake })).state
        ≡ after_from (design_of l) (after l steps) (round l.shape) }
    ensures awake { (l : Load) → IsAcceptedLoad l → (steps : List Step) (awake : ℕ → Bool)
        → OthersSleep (design_of l) (after l steps) awake
        → OthersSleep (design_of l) (after_from (design_of l) (after l steps) (round l.shape))
        (round_awake (design_of l) (record { state = after l steps; awake = awake })).awake }
{}

/// That all takes, puts and credits of routers but those counted as awake are asleep, and all latches but
/// those counted as full are empty, is kept by a move of a processor or a bank, where the take to which it
/// brings a flit and the credit that it returns are counted too; and by a move of a router, where besides
/// the take is whose latch it empties, and its puts of full latches that it may free are. A put of an
/// empty latch isn't enabled. And it hangs on the channels and the routers alone.
pub fn moves_keep_sleeping_ports()
    ensures others { (l : Load) → IsAcceptedLoad l →
        (steps : List Step) (attempt : Step) (op : WordOp)
        (next : State) (f : PortFlags) → step_op (design_of l) (after l steps) attempt ≡ Some op
        → step (design_of l) (after l steps) attempt ≡ Some next
        → ((t : ℕ) → agent_number t Router ≢ attempt.agent)
        → OtherPortsSleep (design_of l) (after l steps) f
        → OtherPortsSleep (design_of l) next (ports_woken (design_of l) op f) }
    ensures routers { (l : Load) → IsAcceptedLoad l → (steps : List Step) (t : ℕ) (choice : Choice)
        (op : WordOp) (next : State) (f : PortFlags)
        → step_op (design_of l) (after l steps) (of_router t choice) ≡ Some op
        → step (design_of l) (after l steps) (of_router t choice) ≡ Some next
        → OtherPortsSleep (design_of l) (after l steps) f
        → OtherPortsSleep (design_of l) next (router_moved t choice (ports_woken (design_of l) op f)) }
    ensures empty { (d : Design) (s : State) (t i : ℕ) → latch_at s t i ≡ None
        → step d s (of_router t (Put i)) ≡ None }
    ensures alike { (d : Design) (s other : State) (f : PortFlags)
        → other.around.rings ≡ s.around.rings
        → map (λ tile. tile.router) other.tiles ≡ map (λ tile. tile.router) s.tiles
        → OtherPortsSleep d s f → OtherPortsSleep d other f }
{}

/// That no choice is enabled but those counted as awake holds where all are; a move keeps it, where all of
/// its own agent are counted too, and of the agents that its operation wakes those that it can enable; and
/// an agent of which none is counted is asleep.
pub fn moves_keep_sleeping_choices()
    ensures all { (d : Design) (s : State) → OtherChoicesSleep d s (λ agent choice. true) }
    ensures kept { (l : Load) → IsAcceptedLoad l →
        (steps : List Step) (attempt : Step) (op : WordOp)
        (next : State) (awake : ℕ → Choice → Bool)
        → step_op (design_of l) (after l steps) attempt ≡ Some op
        → step (design_of l) (after l steps) attempt ≡ Some next
        → OtherChoicesSleep (design_of l) (after l steps) awake
        → OtherChoicesSleep (design_of l) next (choices_woken (design_of l) attempt.agent op awake) }
    ensures enabled { (l : Load) → IsAcceptedLoad l →
        (steps : List Step) (attempt other : Step) (op : WordOp)
        → step_op (design_of l) (after l steps) attempt ≡ Some op
        → Disturbs (design_of l) (after l steps) attempt other → can_enable op other.choice ≡ true }
    ensures agents { (d : Design) (s : State) (awake : ℕ → Choice → Bool) (agent : ℕ)
        → OtherChoicesSleep d s awake → ((choice : Choice) → awake agent choice ≡ false)
        → IsAsleep d s agent }
{}
