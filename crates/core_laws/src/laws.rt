//! Laws of every run of the core, each the contract of a function that does nothing.

ghost use Rattle.std.specs.Prelude.{◌≡◌, ◌≢◌, ◌≤◌, ◌<◌, ℕ, List, [], take, length, Some, None};
ghost use Rattle.std.specs.Prelude.{true, false};
ghost use Rattle.std.specs.Prelude.{option_map, slice_get, IfSome};
ghost use Rattle.torus.specs.Shape.{tiles_of, dims_of};
ghost use Rattle.torus.specs.Choices.{has_choice as numbered_has};
ghost use Rattle.torus.specs.declared.step.Step.{Step};
ghost use Rattle.torus.specs.declared.step.Choice.{Choice};
ghost use Rattle.script_lines.specs.Machine.{MachineSpec, IsAcceptedMachine};
ghost use Rattle.script_lines.specs.Lines.{ScriptsSpec, AreAcceptedScripts, Fit, script_of};
ghost use Rattle.one_order.specs.declared.ordered.Ordered.{Ordered};
ghost use Rattle.one_order.specs.Events.{IsHistory};
ghost use Rattle.one_order.specs.OneOrder.{HasOneOrder};
ghost use Rattle.one_order.specs.Consequences.{ServesInTurn, AnswersInTurn};
ghost use Rattle.channel_number.specs.Order.{channel_count};
ghost use Rattle.channel_number.specs.Ports.{port_count};
ghost use Rattle.flit_buffer.specs.Channel.{IsChannelState};
ghost use Rattle.flit_buffer.specs.declared.want.Want.{Want};
ghost use Rattle.flit_buffer.specs.Surroundings.{Surroundings, ring};
ghost use Rattle.flit_buffer.specs.OwnPart.{SameWhereWanted};
ghost use Rattle.router.specs.Table.{router_wants};
ghost use Rattle.router.specs.Beginning.{router_wiring};
ghost use Rattle.one_order.specs.AbstractScripts.{FollowScripts};
ghost use Rattle.one_order.specs.ProcessorTable.{processor_wants};
ghost use Rattle.home_bank.specs.BankTable.{bank_wants};
ghost use Rattle.tile.specs.Wiring.{processor_wiring, bank_wiring};
ghost use Rattle.tile.specs.declared.agent.Agent.TheVariants.{Processor, Router, Bank};
ghost use Rattle.tile.specs.Tile.{Design, TileState, tile_step};
ghost use Rattle.tile.specs.Agents.{agent_numbered, agent_kind, agent_tile};
ghost use Rattle.core_laws.specs.Core.{Load, State, design_of, step, after_from, run_of};
ghost use Rattle.core_laws.specs.Runs.{IsAcceptedLoad, state_after, event_of};
ghost use Rattle.core_laws.specs.Delivery.{DeliversPackets};
ghost use Rattle.tile.specs.Choices.{has_choice};
ghost use Rattle.core_laws.specs.Touches.{ProcessorAlone, RouterAlone, BankAlone};
ghost use Rattle.core_laws.specs.Reports.{CountsReports};
ghost use Rattle.script_lines.specs.declared.line.Line.{Line};
ghost use Rattle.one_order.specs.Flight.{processor_at};
ghost use Rattle.one_order.specs.Courses.{IsCourse};
ghost use Rattle.wormhole.specs.Events.{CanHappen};
ghost use Rattle.wormhole.specs.Words.{Words};
ghost use Rattle.wormhole.specs.Routes.{Routes};
ghost use Rattle.core_laws.specs.Mirrors.{Mirrors};
ghost use Rattle.core_laws.specs.Network.{net_of};
ghost use Rattle.core_laws.specs.Noted.{noted, event_by, flight_after, move_after};
ghost use Rattle.core_laws.specs.Pending.{HavePackets, ShowsOperations};
ghost use Rattle.core_laws.specs.Asks.{RouterAsks, ProcessorAsks, BankAsks};

/// The load of an accepted machine and of accepted scripts that fit it is accepted.
pub fn readers_give_accepted_loads()
    ensures { (m : MachineSpec) (s : ScriptsSpec) → IsAcceptedMachine m → AreAcceptedScripts s
        → Fit s m
        → IsAcceptedLoad (record {
          shape = m.shape;
          depth = m.depth;
          tags = m.tags;
          opening = m.opening;
          scripts = s.lists;
        }) }
{}

/// Every run from an accepted load, whatever its steps, goes from where nothing has happened by
/// issues, services and answers, each of which may happen where it does.
pub fn runs_are_histories()
    ensures { (l : Load) → IsAcceptedLoad l → (steps : List Step) (n : ℕ)
        → IsHistory (tiles_of l.shape) l.tags l.opening (run_of l steps) (event_of l steps) n }
{}

/// In every run from an accepted load each processor follows its script.
pub fn scripts_are_followed()
    ensures { (l : Load) → IsAcceptedLoad l → (steps : List Step) (n : ℕ)
        → FollowScripts (run_of l steps) n l.scripts }
{}

/// The first steps of a list make the beginning of its run, and after the last step nothing changes.
pub fn first_steps_begin_the_run()
    ensures first { (l : Load) (steps : List Step) (k n : ℕ) → n ≤ k
        → run_of l (take k steps) n ≡ run_of l steps n }
    ensures last { (l : Load) (steps : List Step) (n : ℕ) → length steps ≤ n
        → run_of l steps n ≡ run_of l steps (length steps) }
{}

/// Every run from an accepted load has one legal order, that of its services.
pub fn runs_have_one_order()
    ensures { (l : Load) → IsAcceptedLoad l → (steps : List Step) (n : ℕ) → (rows : List Ordered)
        × HasOneOrder (tiles_of l.shape) l.tags l.opening (run_of l steps) n rows }
{}

/// Of each bank and processor, the bank's entries of the processor are a beginning of the operations
/// that it issued with that home, in the order of issue.
pub fn banks_serve_in_turn()
    ensures { (l : Load) → IsAcceptedLoad l → (steps : List Step) (n b p : ℕ)
        → ServesInTurn (tiles_of l.shape) (run_of l steps n) b p }
{}

/// Of each two tiles and both classes, the packets that the receiver has whole are a beginning of
/// those whose heads the sender has put: none is invented, doubled, mixed or overtaken. The requests
/// are those noted at the issues, each under the tag under which its operation was issued.
pub fn packets_are_delivered_in_order()
    ensures { (l : Load) → IsAcceptedLoad l → (steps : List Step) (n : ℕ)
        → DeliversPackets (design_of l) (length l.opening) (state_after l steps n)
        (noted l steps n).requests (noted l steps n).taken }
{}

/// Of each processor and bank, the answers in the order of answering are a beginning of the bank's
/// entries of the processor.
pub fn answers_come_in_turn()
    ensures { (l : Load) → IsAcceptedLoad l → (steps : List Step) (n b p : ℕ)
        → AnswersInTurn (run_of l steps n) b p }
{}

/// In every state that a run reaches the channels of the torus are there, and of each the flits, the
/// credits held and the credits returning add up to the depth.
pub fn credits_add_up()
    ensures count { (l : Load) → IsAcceptedLoad l → (steps : List Step) (n : ℕ)
        → length (state_after l steps n).around.rings ≡ channel_count l.shape }
    ensures depth { (l : Load) → IsAcceptedLoad l → (steps : List Step) (n x : ℕ)
        → x < channel_count l.shape
        → IsChannelState l.depth (ring (state_after l steps n).around.rings x).channel }
{}

/// In every state that a run reaches the done word counts the processors that have reported; only
/// processors whose script is finished have; and who has seen the end saw that all have.
pub fn done_word_counts_reports()
    ensures { (l : Load) → IsAcceptedLoad l → (steps : List Step) (n : ℕ)
        → CountsReports (design_of l) (state_after l steps n) }
{}

/// An attempt that is enabled is of a choice that its agent has; one of any other changes nothing.
pub fn enabled_choices_are_the_agents()
    ensures enabled { (d : Design) (s : State) (attempt : Step) (next : State)
        → step d s attempt ≡ Some next
        → has_choice (port_count (dims_of d.shape)) (agent_kind attempt.agent)
        attempt.choice ≡ true }
    ensures other { (d : Design) (s : State) (attempt : Step)
        → has_choice (port_count (dims_of d.shape)) (agent_kind attempt.agent)
        attempt.choice ≡ false → step d s attempt ≡ None }
    ensures numbered { (ports kind : ℕ) (choice : Choice)
        → has_choice ports (agent_numbered kind) choice ≡ numbered_has ports kind choice }
{}

/// A choice of an agent is enabled in both of two states or in neither, with the same effect on the
/// agent, where the agent is the same and so is what it wants: the end of a channel, or a word.
pub fn choices_look_at_their_own_part()
    ensures processor { (d : Design) (t : ℕ) (v w : TileState) (a b : Surroundings)
        (choice : Choice) → v.processor ≡ w.processor
        → ((want : Want) → processor_wants (tiles_of d.shape) d.words t v.processor choice
        ≡ Some want → SameWhereWanted a b (processor_wiring d.shape t) want)
        → option_map (λ (p : TileState × Surroundings). p.0.processor)
        (tile_step d t v a Processor choice)
        ≡ option_map (λ (p : TileState × Surroundings). p.0.processor)
        (tile_step d t w b Processor choice) }
    ensures router { (d : Design) (t : ℕ) (v w : TileState) (a b : Surroundings) (choice : Choice)
        → v.router ≡ w.router
        → ((want : Want) → router_wants d.shape t v.router choice ≡ Some want
        → SameWhereWanted a b (router_wiring d.shape t) want)
        → option_map (λ (p : TileState × Surroundings). p.0.router)
        (tile_step d t v a Router choice)
        ≡ option_map (λ (p : TileState × Surroundings). p.0.router)
        (tile_step d t w b Router choice) }
    ensures bank { (d : Design) (t : ℕ) (v w : TileState) (a b : Surroundings) (choice : Choice)
        → v.bank ≡ w.bank
        → ((want : Want) → bank_wants (tiles_of d.shape) t v.bank choice ≡ Some want
        → SameWhereWanted a b (bank_wiring d.shape t) want)
        → option_map (λ (p : TileState × Surroundings). p.0.bank) (tile_step d t v a Bank choice)
        ≡ option_map (λ (p : TileState × Surroundings). p.0.bank) (tile_step d t w b Bank choice) }
{}

/// A choice that is enabled in two states leaves them the same at the end of the channel, or in the
/// word, that it wants, where they were the same there and so was the agent.
pub fn choices_change_their_own_part_alike()
    ensures processor { (d : Design) (t : ℕ) (v w : TileState) (a b : Surroundings)
        (choice : Choice) (p q : TileState × Surroundings) (want : Want)
        → v.processor ≡ w.processor → length a.words ≡ length b.words
        → tile_step d t v a Processor choice ≡ Some p → tile_step d t w b Processor choice ≡ Some q
        → processor_wants (tiles_of d.shape) d.words t v.processor choice ≡ Some want
        → SameWhereWanted a b (processor_wiring d.shape t) want
        → SameWhereWanted p.1 q.1 (processor_wiring d.shape t) want }
    ensures router { (d : Design) (t : ℕ) (v w : TileState) (a b : Surroundings) (choice : Choice)
        (p q : TileState × Surroundings) (want : Want)
        → v.router ≡ w.router → length a.words ≡ length b.words
        → tile_step d t v a Router choice ≡ Some p → tile_step d t w b Router choice ≡ Some q
        → router_wants d.shape t v.router choice ≡ Some want
        → SameWhereWanted a b (router_wiring d.shape t) want
        → SameWhereWanted p.1 q.1 (router_wiring d.shape t) want }
    ensures bank { (d : Design) (t : ℕ) (v w : TileState) (a b : Surroundings) (choice : Choice)
        (p q : TileState × Surroundings) (want : Want)
        → v.bank ≡ w.bank → length a.words ≡ length b.words
        → tile_step d t v a Bank choice ≡ Some p → tile_step d t w b Bank choice ≡ Some q
        → bank_wants (tiles_of d.shape) t v.bank choice ≡ Some want
        → SameWhereWanted a b (bank_wiring d.shape t) want
        → SameWhereWanted p.1 q.1 (bank_wiring d.shape t) want }
{}

/// A step touches one agent: the other tiles stay, and so do the other agents of its tile; of the
/// channels and words it changes what the agent wanted, which is one end of a channel or one word.
pub fn steps_touch_one_agent()
    ensures tiles { (d : Design) (s : State) (attempt : Step) (next : State) (u : ℕ)
        → step d s attempt ≡ Some next → u ≢ agent_tile attempt.agent
        → slice_get next.tiles u ≡ slice_get s.tiles u }
    ensures processor { (d : Design) (t : ℕ) (tile : TileState) (around : Surroundings)
        (choice : Choice) (left : TileState) (after : Surroundings)
        → tile_step d t tile around Processor choice ≡ Some (left, after)
        → ProcessorAlone d t tile around choice left after }
    ensures router { (d : Design) (t : ℕ) (tile : TileState) (around : Surroundings)
        (choice : Choice) (left : TileState) (after : Surroundings)
        → tile_step d t tile around Router choice ≡ Some (left, after)
        → RouterAlone d t tile around choice left after }
    ensures bank { (d : Design) (t : ℕ) (tile : TileState) (around : Surroundings) (choice : Choice)
        (left : TileState) (after : Surroundings)
        → tile_step d t tile around Bank choice ≡ Some (left, after)
        → BankAlone d t tile around choice left after }
{}

/// In every state that a run reaches each agent finds what it asks for: a router flits that name
/// tiles, a processor and a bank the next flits of packets to them, and room for what they note.
pub fn agents_find_what_they_ask()
    ensures router { (l : Load) → IsAcceptedLoad l →
        (steps : List Step) (n t : ℕ) (tile : TileState)
        → slice_get (state_after l steps n).tiles t ≡ Some tile
        → RouterAsks (design_of l) t (state_after l steps n).around }
    ensures processor { (l : Load) → IsAcceptedLoad l →
        (steps : List Step) (n t : ℕ) (tile : TileState)
        → slice_get (state_after l steps n).tiles t ≡ Some tile
        → ProcessorAsks (design_of l) (script_of l.scripts t) t tile.processor
        (state_after l steps n).around }
    ensures bank { (l : Load) → IsAcceptedLoad l → (steps : List Step) (n t : ℕ) (tile : TileState)
        → slice_get (state_after l steps n).tiles t ≡ Some tile
        → BankAsks (design_of l) l.scripts t tile.bank (state_after l steps n).around }
{}

/// The flights of every run, that is the machine without its network and the packets on their way, go
/// from where nothing has happened by found moves: so each law of such courses holds of the run.
pub fn runs_are_courses()
    ensures { (l : Load) → IsAcceptedLoad l → (steps : List Step) (n : ℕ)
        → IsCourse (tiles_of l.shape) l.tags l.opening l.scripts (flight_after l steps)
        (move_after l steps) n }
{}

/// Each step is an event of the network that may happen, or none; the network after these events
/// mirrors the machine's channels and agents, and no two packets mix or lose their way in it.
pub fn steps_are_events_of_the_network()
    ensures may { (l : Load) → IsAcceptedLoad l → (steps : List Step) (n : ℕ)
        → IfSome (event_by l (state_after l steps n) (slice_get steps n))
        (CanHappen (net_of (design_of l)) (noted l steps n).net.lines) }
    ensures mirrors { (l : Load) → IsAcceptedLoad l → (steps : List Step) (n : ℕ)
        → Mirrors (design_of l) (state_after l steps n) (noted l steps n).net.lines }
    ensures words { (l : Load) → IsAcceptedLoad l → (steps : List Step) (n : ℕ)
        → Words (net_of (design_of l)) (noted l steps n).net }
    ensures routes { (l : Load) → IsAcceptedLoad l → (steps : List Step) (n : ℕ)
        → Routes (net_of (design_of l)) (noted l steps n).net }
{}

/// Who holds a tag has its request or the response to it on the way, and as many tags of a processor
/// are out as of its operations await an answer.
pub fn held_tags_have_packets_on_the_way()
    ensures { (l : Load) → IsAcceptedLoad l → (steps : List Step) (n : ℕ)
        → HavePackets (flight_after l steps n) }
{}

/// Each processor's follower shows the operations that the processor has issued in the run.
pub fn followers_show_what_was_issued()
    ensures { (l : Load) → IsAcceptedLoad l → (steps : List Step) (n p : ℕ) (lines : List Line)
        → slice_get l.scripts p ≡ Some lines
        → ShowsOperations (run_of l steps) n p lines
        (processor_at (flight_after l steps n) p).following }
{}
