//! Laws of a seat's sleeping choices, each the contract of a function that does nothing.

ghost use mathlib.Core.Option.{some};
ghost use lib.ListN.{get_elem?};
ghost use Rattle.std.specs.Prelude.{◌≡◌, ◌≢◌, ℕ, Bool, true, false, List, [], ◌∷◌, ◌++◌, Some};
ghost use Rattle.std.specs.Prelude.{None};
ghost use Rattle.torus.specs.Shape.{Shape, dims_of};
ghost use Rattle.torus.specs.declared.step.Step.{Step};
ghost use Rattle.torus.specs.declared.step.Choice.{Choice};
ghost use Rattle.torus.specs.declared.step.Choice.TheVariants.{Take, Credit, Look, TakeFrom, Put};
ghost use Rattle.torus.specs.declared.step.Choice.TheVariants.{CreditOf};
ghost use Rattle.channel_number.specs.Ports.{port_count};
ghost use Rattle.flit_buffer.specs.declared.word_op.WordOp.{WordOp};
ghost use Rattle.tile.specs.declared.agent.Agent.TheVariants.{Processor, Router, Bank};
ghost use Rattle.tile.specs.Agents.{TilePlace, agent_number, agent_kind, agent_tile};
ghost use Rattle.tile.specs.Choices.{has_choice};
ghost use Rattle.core_laws.specs.Core.{Load, design_of, after};
ghost use Rattle.core_laws.specs.Runs.{IsAcceptedLoad};
ghost use Rattle.core_laws.specs.ChoicesAsleep.{choices_woken};
ghost use Rattle.core_laws.specs.Routers.{PortFlags, of_router, latch_at, ports_woken};
ghost use Rattle.core_laws.specs.Routers.{router_moved};
ghost use Rattle.machine_parts.specs.Awake.{choice_rested};
ghost use Rattle.machine_parts.specs.Ports.{take_rested, put_rested, credit_rested};
ghost use Rattle.fabric_rule.specs.Known.{tile_of, known, enabled, op_of, moves};
ghost use Rattle.fabric_rule.specs.View.{View};
ghost use Rattle.fabric_rule.specs.Groups.{In, Others};
ghost use Rattle.fabric_rule.specs.Rule.{Kept, Attempted};
ghost use Rattle.fabric_rule.specs.Inner.{IsInner};
ghost use Rattle.fabric_rule.specs.Sleeping.{Sleeps};

/// Attempts at tiles of other groups leave an inner choice enabled, or not enabled, as it was. So what a
/// seat knows of it by its own run holds of the longest run too; and an attempt of one that isn't enabled
/// leaves its tile as it was.
pub fn others_leave_inner_choices()
    ensures same { (load : Load) → IsAcceptedLoad load
        → (gs : List (List ℕ)) (run between : List Step) (c : Step) → In gs (tile_of c)
        → IsInner load.shape gs c.agent c.choice → Others gs between
        → enabled load (run ++ between) c ≡ enabled load run c }
    ensures longest { (load : Load) → IsAcceptedLoad load → (words : List ℕ) (views : List View)
        (r : List Step) (id : ℕ) (v : View) (c : Step)
        → Kept load words views r → get_elem? views id ≡ some v → In v.groups (tile_of c)
        → IsInner load.shape v.groups c.agent c.choice → enabled load v.run c ≡ false
        → enabled load r c ≡ false }
    ensures attempt { (c : Step) (p : TilePlace) (v : View) (n : ℕ) (w : View)
        → IsAcceptedLoad v.load → Attempted c p v n w → In v.groups (tile_of c)
        → IsInner v.load.shape v.groups c.agent c.choice → enabled v.load v.run c ≡ false
        → moves p c n ≡ false }
{}

/// A choice of a processor or a bank of the groups is inner, but for a look at the done word: at the other
/// end of each of its channels is its tile's own router.
pub fn own_ends_are_inner()
    ensures processor { (s : Shape) (gs : List (List ℕ)) (t : ℕ) → In gs t
        → IsInner s gs (agent_number t Processor) Take
        × IsInner s gs (agent_number t Processor) Credit }
    ensures bank { (s : Shape) (gs : List (List ℕ)) (t : ℕ) → In gs t
        → IsInner s gs (agent_number t Bank) Take × IsInner s gs (agent_number t Bank) Credit }
    ensures all { (s : Shape) (gs : List (List ℕ)) (agent : ℕ) (choice : Choice)
        → In gs (agent_tile agent) → agent_kind agent ≢ Router → choice ≢ Look
        → has_choice (port_count (dims_of s)) (agent_kind agent) choice ≡ true
        → IsInner s gs agent choice }
{}

/// What a seat counts as asleep and empty stays so by attempts at tiles of other groups; and by a move of
/// the seat's behind them, where besides those choices count as awake that the move can enable: of a
/// processor or a bank, and of a router.
pub fn seats_keep_sleepers()
    ensures others { (load : Load) → IsAcceptedLoad load
        → (gs : List (List ℕ)) (run between : List Step) (awake : ℕ → Choice → Bool) (f : PortFlags)
        → Sleeps load run gs awake f → Others gs between → Sleeps load (run ++ between) gs awake f }
    ensures moved { (load : Load) → IsAcceptedLoad load
        → (gs : List (List ℕ)) (run between : List Step)
        (awake : ℕ → Choice → Bool) (f : PortFlags) (c : Step) (p : TilePlace) (op : WordOp)
        → Sleeps load run gs awake f → Others gs between → In gs (tile_of c)
        → known load run (tile_of c) ≡ Some p → op_of p c ≡ Some op
        → enabled load (run ++ between) c ≡ true → agent_kind c.agent ≢ Router
        → Sleeps load ((run ++ between) ++ c ∷ []) gs
        (choices_woken (design_of load) c.agent op awake) (ports_woken (design_of load) op f) }
    ensures routers { (load : Load) → IsAcceptedLoad load
        → (gs : List (List ℕ)) (run between : List Step)
        (awake : ℕ → Choice → Bool) (f : PortFlags)
        (t : ℕ) (choice : Choice) (p : TilePlace) (op : WordOp)
        → Sleeps load run gs awake f → Others gs between → In gs t
        → known load run t ≡ Some p → op_of p (of_router t choice) ≡ Some op
        → enabled load (run ++ between) (of_router t choice) ≡ true
        → Sleeps load ((run ++ between) ++ of_router t choice ∷ []) gs
        (choices_woken (design_of load) (agent_number t Router) op awake)
        (router_moved t choice (ports_woken (design_of load) op f)) }
{}

/// A seat may begin with all choices awake, where the latches that it counts as empty are. A choice that
/// isn't enabled after its run may fall asleep: one of its processors and banks, but for a look; a put of
/// its routers; and a take or a credit of these where it is inner. And it may count more choices as awake.
pub fn idle_choices_fall_asleep()
    ensures begins { (load : Load) (run : List Step) (gs : List (List ℕ))
        (awake : ℕ → Choice → Bool) (f : PortFlags)
        → ((agent : ℕ) (choice : Choice) → awake agent choice ≡ true)
        → ((t i : ℕ) → f.takes t i ≡ true) → ((t i : ℕ) → f.puts t i ≡ true)
        → ((t o : ℕ) → f.credits t o ≡ true)
        → ((t i : ℕ) → f.full t i ≡ false → In gs t × (latch_at (after load run) t i ≡ None))
        → Sleeps load run gs awake f }
    ensures more { (load : Load) (run : List Step) (gs : List (List ℕ))
        (awake more : ℕ → Choice → Bool) (f : PortFlags) → Sleeps load run gs awake f
        → ((agent : ℕ) (choice : Choice) → more agent choice ≡ false → awake agent choice ≡ false)
        → Sleeps load run gs more f }
    ensures choice { (load : Load) (run : List Step) (gs : List (List ℕ))
        (awake : ℕ → Choice → Bool) (f : PortFlags) (agent : ℕ) (choice : Choice)
        → Sleeps load run gs awake f
        → In gs (agent_tile agent) → agent_kind agent ≢ Router → choice ≢ Look
        → has_choice (port_count (dims_of load.shape)) (agent_kind agent) choice ≡ true
        → enabled load run (record { agent = agent; choice = choice }) ≡ false
        → Sleeps load run gs (choice_rested agent choice awake) f }
    ensures take { (load : Load) (run : List Step) (gs : List (List ℕ))
        (awake : ℕ → Choice → Bool) (f : PortFlags) (t i : ℕ) → Sleeps load run gs awake f
        → In gs t → IsInner load.shape gs (agent_number t Router) (TakeFrom i)
        → enabled load run (of_router t (TakeFrom i)) ≡ false
        → Sleeps load run gs awake (take_rested t i f) }
    ensures put { (load : Load) (run : List Step) (gs : List (List ℕ))
        (awake : ℕ → Choice → Bool) (f : PortFlags) (t i : ℕ) → Sleeps load run gs awake f
        → In gs t → enabled load run (of_router t (Put i)) ≡ false
        → Sleeps load run gs awake (put_rested t i f) }
    ensures credit { (load : Load) (run : List Step) (gs : List (List ℕ))
        (awake : ℕ → Choice → Bool) (f : PortFlags) (t o : ℕ) → Sleeps load run gs awake f
        → In gs t → IsInner load.shape gs (agent_number t Router) (CreditOf o)
        → enabled load run (of_router t (CreditOf o)) ≡ false
        → Sleeps load run gs awake (credit_rested t o f) }
{}

/// A choice that a seat doesn't count as awake isn't enabled after the run that the seat knows, by its
/// agent or by the port of a router. Nor is an attempt for which its tile has no operation.
pub fn sleeping_choices_are_idle()
    ensures choice { (load : Load) (run : List Step) (gs : List (List ℕ))
        (awake : ℕ → Choice → Bool) (f : PortFlags) (c : Step) → Sleeps load run gs awake f
        → awake c.agent c.choice ≡ false → enabled load run c ≡ false }
    ensures take { (load : Load) (run : List Step) (gs : List (List ℕ))
        (awake : ℕ → Choice → Bool) (f : PortFlags) (t i : ℕ) → Sleeps load run gs awake f
        → f.takes t i ≡ false → enabled load run (of_router t (TakeFrom i)) ≡ false }
    ensures put { (load : Load) (run : List Step) (gs : List (List ℕ))
        (awake : ℕ → Choice → Bool) (f : PortFlags) (t i : ℕ) → Sleeps load run gs awake f
        → f.puts t i ≡ false → enabled load run (of_router t (Put i)) ≡ false }
    ensures credit { (load : Load) (run : List Step) (gs : List (List ℕ))
        (awake : ℕ → Choice → Bool) (f : PortFlags) (t o : ℕ) → Sleeps load run gs awake f
        → f.credits t o ≡ false → enabled load run (of_router t (CreditOf o)) ≡ false }
    ensures unready { (load : Load) (run : List Step) (c : Step) (p : TilePlace)
        → IsAcceptedLoad load → known load run (tile_of c) ≡ Some p → op_of p c ≡ None
        → enabled load run c ≡ false }
{}
