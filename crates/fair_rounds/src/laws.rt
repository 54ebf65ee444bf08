//! Laws of what the packets of a network have still to do, each the contract of a function that does
//! nothing.

ghost use Rattle.std.specs.Prelude.{◌≡◌, ◌↔◌, ◌+◌, ◌*◌, ◌^◌, ◌<◌, ◌≤◌, ℕ, suc, Bool, List, Some};
ghost use Rattle.std.specs.Prelude.{true, false, All, slice_get};
ghost use Rattle.torus.specs.Shape.{tiles_of};
ghost use Rattle.torus.specs.declared.step.Step.{Step};
ghost use Rattle.wormhole.specs.Net.{Net, IsNet};
ghost use Rattle.wormhole.specs.State.{NetState};
ghost use Rattle.wormhole.specs.Events.{NetEvent, CanHappen, after};
ghost use Rattle.wormhole.specs.Words.{Words};
ghost use Rattle.wormhole.specs.Routes.{Routes};
ghost use Rattle.wormhole.specs.Delivery.{IsReached};
ghost use Rattle.wormhole.specs.Weight.{promised};
ghost use Rattle.tile.specs.Agents.{agent_kind};
ghost use Rattle.core_laws.specs.Core.{Load, State, design_of, step};
ghost use Rattle.core_laws.specs.Runs.{IsAcceptedLoad, state_after};
ghost use Rattle.fair_rounds.specs.Charges.{charge};
ghost use Rattle.machine_core.specs.Guarded.{begins_operation};
ghost use Rattle.core_laws.specs.Machine.{Core, IsAfter};
ghost use Rattle.router.specs.Table.{latch_of};
ghost use Rattle.core_laws.specs.Mirrors.{tile_at};
ghost use Rattle.machine_core.specs.Clocked.{clocked_round};
ghost use Rattle.machine_core.specs.Arbiters.{Arbiter, IsArbiter, arbited_round, by_turn};
ghost use Rattle.machine_core.specs.Oldest.{age_of, RisesBy, oldest};
ghost use Rattle.fair_rounds.specs.Guard.{Guarding, holds};
ghost use Rattle.fair_rounds.specs.Hosts.{Handing, IsOut, WaitsLonger, IsHosted, NobodyWaits};
ghost use Rattle.fair_rounds.specs.Hosts.{AreSuccessive, SeesMachines, IsRoundByRound};
ghost use Rattle.fair_rounds.specs.Hosts.{longest_wait, with_lines};
ghost use Rattle.fair_rounds.specs.Chores.{chores, issued_count, served_count};
ghost use Rattle.fair_rounds.specs.Burden.{HasShortRoutes, AreShort, burden, toll, caps_sent};
ghost use Rattle.fair_rounds.specs.Burden.{caps_whole};

/// Where no route has more than 10 channels, 30 moves for each flit of the packets under way are as many
/// as the flits of the network have still to do; and each event does of it what it counts, and adds what
/// a new packet has to do.
pub fn packets_under_way_bound_the_burden()
    ensures most { (n : Net) → IsNet n → HasShortRoutes n → (s : NetState) → IsReached n s
        → (cap : ℕ → ℕ) → ((x : ℕ) → All (AreShort cap) (s.notes x).sent)
        → burden n s + 30 * caps_whole n cap s ≤ 30 * caps_sent n cap s }
    ensures event { (n : Net) → IsNet n → (s : NetState) (e : NetEvent) → Words n s → Routes n s
        → CanHappen n s.lines e
        → burden n (after n s e) + toll e ≡ burden n s + promised n e }
{}

/// In every state that a run reaches, what its packets have still to do, 91 for each operation that isn't
/// served, and 30 for each flit of the replies that aren't begun, are at most 241 for each tag of each
/// processor, whatever was done before.
pub fn tags_bound_the_chores()
    ensures { (l : Load) → IsAcceptedLoad l → (steps : List Step) (n : ℕ)
        → chores l steps n + 91 * issued_count (design_of l) (state_after l steps n)
        ≤ 91 * served_count (design_of l) (state_after l steps n) + 241 * (tiles_of l.shape * l.tags) }
{}

/// Each step that begins no operation does at least as much of it as it counts: a put two, a take and a
/// service one.
pub fn steps_do_chores()
    ensures { (l : Load) → IsAcceptedLoad l → (steps : List Step) (n : ℕ) (a : Step) (after : State)
        → slice_get steps n ≡ Some a → step (design_of l) (state_after l steps n) a ≡ Some after
        → begins_operation (state_after l steps n) a ≡ false
        → chores l steps (suc n) + 91 * served_count (design_of l) (state_after l steps n)
        + charge (agent_kind a.agent) a.choice
        ≤ chores l steps n + 91 * served_count (design_of l) (state_after l steps (suc n)) }
{}

/// With a guard every operation is answered within the guard's rounds and 241 for each tag of each tile,
/// and 2 for each tile and one, whatever hosts and scripts go on asking, and whatever the arbiter is.
pub fn no_operation_waits_forever()
    ensures { (by : Arbiter) → IsArbiter by → (most : ℕ) (lines : ℕ → List Handing)
        → (held : ℕ → Bool) (c : ℕ → Core) (l : Load) (steps : List Step)
        → IsAfter l (c 0) steps → IsHosted by most lines held c
        → NobodyWaits (longest_wait most (c 0)) c }
{}

/// A guard that is given machines one after the other, of which each is what steps and then lines make of
/// the one before, holds operations back exactly where one has been out for more than its rounds.
pub fn guards_hold_back_where_one_waits()
    ensures { (most : ℕ) (c : ℕ → Core) (g : ℕ → Guarding) (l : Load) (steps : List Step)
        → IsAfter l (c 0) steps → AreSuccessive c → SeesMachines most c g
        → (k : ℕ) → k < 2 ^ 64 → (holds (g k) (c k) ≡ true) ↔ WaitsLonger most c k }
{}

/// So in rounds that `Guard::round` makes no operation is out for as many as `no_operation_waits_forever`
/// says, whatever lines hosts hand between them, within the first 2^64 rounds.
pub fn guarded_rounds_let_none_wait()
    ensures { (most : ℕ) (lines : ℕ → List Handing) (c : ℕ → Core) (g : ℕ → Guarding) (l : Load)
        (steps : List Step) → IsAfter l (c 0) steps → IsRoundByRound lines c g
        → SeesMachines most (λ k. with_lines (c k) (lines k)) g
        → (k p i : ℕ) → k + longest_wait most (c 0) < 2 ^ 64
        → ((m : ℕ) → k ≤ m → m ≤ k + longest_wait most (c 0) → IsOut (c m) p i) → ⊥ }
{}

/// Two arbiters: today's, by which a clocked round of a turn is one by an arbiter; and that by which the
/// oldest operation goes first, of the heads that stand in a router's latches.
pub fn arbiters_order_inputs()
    ensures by_turn { (turn : ℕ) → IsArbiter (by_turn turn) }
    ensures rounds { (c : Core) (turn : ℕ) → clocked_round c turn ≡ arbited_round (by_turn turn) c }
    ensures oldest { IsArbiter oldest }
    ensures first { (c : Core) (t : ℕ)
        → RisesBy (λ i. age_of c (latch_of (tile_at c.state t).router i)) (oldest c t) }
{}
