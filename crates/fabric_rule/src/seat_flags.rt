//! Which choices of a seat's agents count as asleep, kept as its tiles are stepped.

ghost use Rattle.std.specs.Prelude.{◌≡◌, ◌≢◌, ◌<◌, ◌≤◌, ◌↔◌, ◌++◌, ℕ, [], ◌∷◌, List, length};
ghost use Rattle.std.specs.Prelude.{IfOk, IsTrue, MatchOption, Some, true, false};
ghost use Rattle.std.specs.Slice.Scan.{HoldsNowhere, IsFirstPlace};
ghost use Rattle.torus.specs.Shape.{dims_of, tiles_of};
ghost use Rattle.torus.specs.declared.step.Step.{Step};
ghost use Rattle.channel_number.specs.Ports.{port_count};
ghost use Rattle.tile.specs.declared.agent.Agent.TheVariants.{Router};
ghost use Rattle.tile.specs.Agents.{TilePlace, agent_kind, agent_tile};
ghost use Rattle.tile.specs.Choices.{has_choice};
ghost use Rattle.core_laws.specs.Core.{Load, design_of};
ghost use Rattle.core_laws.specs.Runs.{IsAcceptedLoad};
ghost use Rattle.core_laws.specs.Routers.{of_router};
ghost use Rattle.machine_parts.specs.Awake.{is_choice_awake};
ghost use Rattle.machine_parts.specs.Ports.{flags_of};
ghost use Rattle.fabric_rule.specs.Known.{known, enabled, op_of};
ghost use Rattle.fabric_rule.specs.Groups.{In, Others};
ghost use Rattle.fabric_rule.specs.Border.{AreOf};
ghost use Rattle.fabric_rule.specs.Counted.{AreRight, ChoiceFalls, Falls, IsInnerTake, PortFalls};

use crate::border::{border, is_lowered};
use flit_buffer::WordOp;
use machine_parts::{Agent, PortSet, RouterFlags, WakeFlags, agent_kind, agent_tile};
use std::alloc::{AllocError, Allocator, Global};
use std::marker::Model;
use torus::{Choice, Step, Torus};

/// Of the agents of a seat's tiles which choices count as awake, and which latches as full. What is of
/// other tiles counts as awake and full.
#[derive(Drop)]
pub struct SeatFlags<A: Allocator = Global> {
    awake: WakeFlags<A>,
    ports: RouterFlags<A>,
    // The inputs and outputs that another seat can disturb.
    border_takes: PortSet,
    border_credits: PortSet,
}

impl<A: Allocator> Model for SeatFlags<A> {
    ghost use Rattle.fabric_rule.specs.Counted.{Counted};

    ghost Value = { Counted };

    ghost view = { λ f. record {
      awake = f.awake;
      ports = f.ports;
      border_takes = f.border_takes;
      border_credits = f.border_credits;
    } };

    ghost invariant = { λ f. Unit {0} };
}

impl<A: Allocator + Copy> SeatFlags<A> {
    /// The flags of a seat that has the tiles from `first` on, below `end`, and knows the empty run of a
    /// load, with channels of this depth, 1 to 8, and so many words, at most 65536: all choices count as
    /// awake, and no latch of its own tiles as full.
    ///
    /// Errors: out of memory.
    pub fn new(
        alloc: A,
        torus: Torus,
        depth: u32,
        words: u32,
        first: usize,
        end: usize,
    ) -> Result<SeatFlags<A>, AllocError>
        requires some { 0 < depth }
        requires few { depth ≤ 8 }
        requires words { words ≤ 65536 }
        requires tiles { (first ≤ end) × (end ≤ tiles_of torus) }
        ensures right { IfOk result (λ f. (load : Load) (gs : List (List ℕ))
            → load.shape ≡ torus → load.depth ≡ depth → length load.opening ≡ words
            → AreOf gs first end → AreRight load [] gs f) }
    {
        let _tiles = torus.tiles();
        let (border_takes, border_credits) = border(&torus, first as u32, end as u32);
        let awake = WakeFlags::new(alloc, torus, depth, words)?;
        let mut ports = RouterFlags::new(alloc, torus, depth, words)?;
        fill_tiles(&mut ports, 0, first);
        fill_tiles(&mut ports, end, 64);
        Ok(SeatFlags {
            awake,
            ports,
            border_takes,
            border_credits,
        })
    }
}

// Counts each latch of a tile's router as full, as a take of each input leaves it.
fn fill<A: Allocator>(ports: &mut RouterFlags<A>, tile: usize)
    requires { tile < 64 }
    ensures design { ports.new.design ≡ ports.old.design }
    ensures takes { (u i : ℕ) → (flags_of ports.old).takes u i ≡ true
        → (flags_of ports.new).takes u i ≡ true }
    ensures puts { (u i : ℕ) → (flags_of ports.old).puts u i ≡ true
        → (flags_of ports.new).puts u i ≡ true }
    ensures credits { (u o : ℕ) → (flags_of ports.old).credits u o ≡ true
        → (flags_of ports.new).credits u o ≡ true }
    ensures full { (u i : ℕ) → (flags_of ports.old).full u i ≡ true
        → (flags_of ports.new).full u i ≡ true }
    ensures filled { (i : ℕ) → (flags_of ports.new).full tile i ≡ true }
{
    for input in 0..32 {
        ports.router_moved(tile, Choice::TakeFrom(input), WordOp::Load(0));
    }
}

// Counts each latch of the routers of the tiles from one on, below another, as full.
fn fill_tiles<A: Allocator>(ports: &mut RouterFlags<A>, from: usize, to: usize)
    requires { to ≤ 64 }
    ensures design { ports.new.design ≡ ports.old.design }
    ensures takes { (u i : ℕ) → (flags_of ports.old).takes u i ≡ true
        → (flags_of ports.new).takes u i ≡ true }
    ensures puts { (u i : ℕ) → (flags_of ports.old).puts u i ≡ true
        → (flags_of ports.new).puts u i ≡ true }
    ensures credits { (u o : ℕ) → (flags_of ports.old).credits u o ≡ true
        → (flags_of ports.new).credits u o ≡ true }
    ensures full { (u i : ℕ) → (flags_of ports.old).full u i ≡ true
        → (flags_of ports.new).full u i ≡ true }
    ensures filled { (u i : ℕ) → from ≤ u → u < to → (flags_of ports.new).full u i ≡ true }
{
    for tile in from..to {
        fill(ports, tile);
    }
}

impl<A: Allocator> SeatFlags<A> {
    /// Whether a choice of a processor or a bank counts as awake.
    #[inline(always)]
    pub fn is_choice_awake(&self, agent: usize, choice: Choice) -> bool
        requires { agent < 192 }
        ensures { result ≡ is_choice_awake self.now.awake agent choice }
    {
        self.awake.is_choice_awake(agent, choice)
    }

    /// The first take of a tile's router, from an input on and below so many, that counts as awake.
    #[inline(always)]
    pub fn next_take(&self, tile: usize, from: u32, ports: u32) -> Option<u32>
        requires tile { tile < 64 }
        requires ports { ports < 32 }
        ensures { MatchOption result
            (HoldsNowhere ((flags_of self.now.ports).takes tile) from ports)
            (λ i. (i < ports) × IsFirstPlace ((flags_of self.now.ports).takes tile) from ports i) }
    {
        self.ports.next_take(tile, from, ports)
    }

    /// The first put of a tile's router, from an input on and below so many, that counts as awake.
    #[inline(always)]
    pub fn next_put(&self, tile: usize, from: u32, ports: u32) -> Option<u32>
        requires tile { tile < 64 }
        requires ports { ports < 32 }
        ensures { MatchOption result
            (HoldsNowhere ((flags_of self.now.ports).puts tile) from ports)
            (λ i. (i < ports) × IsFirstPlace ((flags_of self.now.ports).puts tile) from ports i) }
    {
        self.ports.next_put(tile, from, ports)
    }

    /// The first credit of a tile's router, from an output on and below so many, that counts as awake.
    #[inline(always)]
    pub fn next_credit(&self, tile: usize, from: u32, ports: u32) -> Option<u32>
        requires tile { tile < 64 }
        requires ports { ports < 32 }
        ensures { MatchOption result
            (HoldsNowhere ((flags_of self.now.ports).credits tile) from ports)
            (λ o. (o < ports)
            × IsFirstPlace ((flags_of self.now.ports).credits tile) from ports o) }
    {
        self.ports.next_credit(tile, from, ports)
    }

    /// Whether a step is a take that no other seat can enable: of a processor or a bank, or of a router at an
    /// input below 31 that comes from a tile of the seat's.
    #[inline(always)]
    pub fn is_inner_take(&self, step: Step) -> bool
        requires { step.agent < 192 }
        ensures { IsTrue result ↔ IsInnerTake self.now (agent_tile step.agent) step.choice }
    {
        match step.choice {
            Choice::Take => true,
            Choice::TakeFrom(input) => {
                is_lowered(&self.border_takes, agent_tile(step.agent) as usize, input)
            }
            _ => false,
        }
    }

    /// After a move of the seat's by this operation: those choices count as awake too that it can enable.
    #[inline(always)]
    pub fn moved(&mut self, step: Step, op: WordOp)
        requires { step.agent < 192 }
        ensures right { (load : Load) → IsAcceptedLoad load
            → (run between : List Step) (gs : List (List ℕ)) (p : TilePlace)
            → AreRight load run gs self.old → Others gs between → In gs (agent_tile step.agent)
            → known load run (agent_tile step.agent) ≡ Some p → op_of p step ≡ Some op
            → enabled load (run ++ between) step ≡ true
            → AreRight load ((run ++ between) ++ step ∷ []) gs self.new }
    {
        self.awake.moved(step.agent as usize, op);
        match agent_kind(step.agent) {
            Agent::Router => {
                self.ports
                    .router_moved(agent_tile(step.agent) as usize, step.choice, op);
            }
            Agent::Processor => self.ports.wake(op),
            Agent::Bank => self.ports.wake(op),
        }
    }

    /// After an attempt of the seat's that isn't enabled: its choice counts as asleep, where no other seat
    /// can enable it.
    #[inline(always)]
    pub fn rests(&mut self, step: Step)
        requires { step.agent < 192 }
        ensures right { (load : Load) (run : List Step) (gs : List (List ℕ))
            → AreRight load run gs self.old → In gs (agent_tile step.agent)
            → has_choice (port_count (dims_of load.shape)) (agent_kind step.agent) step.choice ≡ true
            → enabled load run step ≡ false → AreRight load run gs self.new }
        ensures falls { Falls step self.old self.new }
    {
        match agent_kind(step.agent) {
            Agent::Router => self.port_rests(agent_tile(step.agent) as usize, step.choice),
            Agent::Processor => self.choice_rests(step.agent as usize, step.choice),
            Agent::Bank => self.choice_rests(step.agent as usize, step.choice),
        }
    }

    // After an attempt of a processor or a bank that isn't enabled: its choice counts as asleep. A look at
    // the done word never does.
    #[inline(always)]
    fn choice_rests(&mut self, agent: usize, choice: Choice)
        requires { agent < 192 }
        ensures right { (load : Load) (run : List Step) (gs : List (List ℕ))
            → AreRight load run gs self.old → In gs (agent_tile agent) → agent_kind agent ≢ Router
            → has_choice (port_count (dims_of load.shape)) (agent_kind agent) choice ≡ true
            → enabled load run (record { agent = agent; choice = choice }) ≡ false
            → AreRight load run gs self.new }
        ensures falls { ChoiceFalls agent choice self.old self.new }
    {
        match choice {
            Choice::Look => {}
            other => self.awake.rest_choice(agent, other),
        }
    }

    // After an attempt of a tile's router that isn't enabled: its choice counts as asleep, where no other
    // seat can enable it.
    #[inline(always)]
    fn port_rests(&mut self, tile: usize, choice: Choice)
        requires { tile < 64 }
        ensures right { (load : Load) (run : List Step) (gs : List (List ℕ))
            → AreRight load run gs self.old → In gs tile
            → enabled load run (of_router tile choice) ≡ false → AreRight load run gs self.new }
        ensures falls { PortFalls tile choice self.old self.new }
    {
        match choice {
            Choice::TakeFrom(input) => {
                if is_lowered(&self.border_takes, tile, input) {
                    self.ports.rest_take(tile, input);
                }
            }
            Choice::Put(input) => self.ports.rest_put(tile, input),
            Choice::CreditOf(output) => {
                if is_lowered(&self.border_credits, tile, output) {
                    self.ports.rest_credit(tile, output);
                }
            }
            _ => {}
        }
    }

    /// All choices count as awake and all latches as full: so the flags are right for a seat that has
    /// these tiles and more, whatever run it knows.
    pub fn rouse(&mut self)
        ensures right { (load : Load) (run now : List Step) (gs more : List (List ℕ))
            → AreRight load run gs self.old → ((t : ℕ) → In gs t → In more t)
            → AreRight load now more self.new }
    {
        self.awake.rouse_all();
        self.ports.rouse_all();
        fill_tiles(&mut self.ports, 0, 64);
    }
}
