ghost use Rattle.std.specs.Prelude.{◌≡◌, ◌+◌, ◌<◌, ◌≤◌, ◌↔◌, false, List, [], ◌∷◌, ◌++◌, IsTrue};
ghost use Rattle.std.specs.Prelude.{IfOk, IfErr, length};
ghost use Rattle.std.specs.Prelude.{slice_get};
ghost use Rattle.std.specs.Option.{option_copied};
ghost use Rattle.torus.specs.declared.step.Step.{Step};
ghost use Rattle.one_order.specs.Following.{is_finished};
ghost use Rattle.machine_parts.specs.AbstractScripts.{AreFinished};
ghost use Rattle.machine_parts.specs.Rounds.{moves_in};
ghost use Rattle.machine_parts.specs.Core.{Load, run_of, step};
ghost use Rattle.machine_parts.specs.Row.{row_of};
ghost use Rattle.machine_parts.specs.Machine.{IsAfter, RunsOn};
ghost use Rattle.machine_parts.specs.Machine.{HasOneOrderSoFar, Steps};
ghost use Rattle.machine_parts.specs.Machine.{core_after, shown};
ghost use Rattle.machine_parts.specs.Machine.{built_to, all_finished};
ghost use Rattle.machine_parts.specs.ProgressMoves.{IsLive, moves_left};
ghost use Rattle.machine_core.specs.Rounds.{rounds_of, NeedsRounds};

use home_bank::Entry;
use machine_parts::{Agent, RouterFlags, TileAgents, WakeFlags, agent_kind, agent_tile};
use one_order::{Answer, Ordered};
use order_book::EventBook;
use std::alloc::{Allocator, Global};
use std::marker::Model;
use torus::{Fault, Step, Stepped, Torus};

/// A machine: the agents of all tiles, the row of words that they share (the places of the
/// channels, the memory, and the done word), the book of the events so far, how many operations each of
/// its scripts can make at most, how many moves they still allow, and which agents and which choices of
/// routers count as awake: all others are asleep, that is not enabled.
#[derive(Drop)]
pub struct Machine<A: Allocator = Global> {
    pub(crate) torus: Torus,
    pub(crate) depth: u32,
    pub(crate) tags: u32,
    pub(crate) opening: Vec<u64, A>,
    pub(crate) tiles: Vec<TileAgents<A>, A>,
    pub(crate) row: Vec<u64, A>,
    pub(crate) book: EventBook<A>,
    pub(crate) allowed: Vec<usize, A>,
    pub(crate) left: u64,
    pub(crate) awake: WakeFlags<A>,
    pub(crate) ports: RouterFlags<A>,
}

impl<A: Allocator> Model for Machine<A> {
    ghost use Rattle.machine_parts.specs.Machine.{Core};

    ghost Value = { Core };

    ghost use Rattle.machine_core.specs.Inside.{core_of, IsMachine};

    ghost view = { core_of };

    ghost invariant = { IsMachine };
}

impl<A: Allocator> Machine<A> {
    /// Attempts one choice of one agent: at most one operation on one word of the row. `Moved`
    /// exactly when it is enabled, with the stated change; a step that names no agent, or a choice
    /// that the agent doesn't have, is `Idle`.
    pub fn step(&mut self, step: Step) -> Stepped
        ensures step { Steps self.old self.new result step }
        ensures runs_on { RunsOn self.old self.new (step ∷ []) }
    {
        let tile = agent_tile(step.agent) as usize;
        if tile >= self.tiles.len() {
            return Stepped::Idle;
        }
        match agent_kind(step.agent) {
            Agent::Processor => self.step_processor_by(tile, step.choice),
            Agent::Router => self.step_router_by(tile, step.choice),
            Agent::Bank => self.step_bank_by(tile, step.choice),
        }
    }

    /// Attempts the steps, one after the other. After any steps that led here from a load, these
    /// lead on: the run of both has one legal order, and every processor has followed its script.
    pub fn run(&mut self, steps: &[Step])
        ensures state { self.new ≡ core_after self.old steps.now }
        ensures runs_on { RunsOn self.old self.new steps.now }
    {
        self.rouse();
        for step in steps {
            let _ = self.step(*step);
        }
    }

    /// Makes rounds until every script is finished, and answers how many: the least number that does,
    /// which is at most the moves that were left.
    pub fn finish(&mut self) -> u64
        ensures state { self.new ≡ core_after self.old (rounds_of self.old.shape result) }
        ensures needed { NeedsRounds self.old result }
        ensures few { (l : Load) (steps : List Step) → IsAfter l self.old steps
            → result ≤ moves_left l steps (length steps) }
        ensures left { result ≤ self.old.moves_left }
        ensures runs_on { RunsOn self.old self.new (rounds_of self.old.shape result) }
        ensures scripts { (l : Load) (before : List Step) → IsAfter l self.old before
            → AreFinished (run_of l (before ++ rounds_of self.old.shape result))
            (length (before ++ rounds_of self.old.shape result)) l.scripts }
    {
        self.reached();
        let mut rounds = 0;
        while !self.finished() {
            self.round();
            rounds += 1;
        }
        rounds
    }

    /// The machine stands where some steps lead from a load that was accepted, and its operations have
    /// one legal order.
    pub fn reached(&self)
        ensures after { (l : Load) × (steps : List Step) × IsAfter l self.now steps }
        ensures one_order { HasOneOrderSoFar self.now }
    {
        let _ = &self.torus;
    }

    /// The torus that was loaded.
    pub fn torus(&self) -> &Torus
        ensures { result.now ≡ self.now.shape }
    {
        &self.torus
    }

    /// The number of words that was loaded, 1 to 65536.
    pub fn words(&self) -> u32
        ensures { result ≡ length self.now.opening }
    {
        self.opening.len() as u32
    }

    /// The word that an address held at first; `None` exactly where there is no such address.
    pub fn opening(&self, address: u32) -> Option<u64>
        ensures { result ≡ slice_get self.now.opening address }
    {
        self.opening.get(address as usize).copied()
    }

    /// A processor's answers, in the order of answering; `None` exactly where there is no such
    /// processor.
    pub fn answers(&self, processor: u32) -> Option<&[Answer]>
        ensures { option_copied result ≡ slice_get (shown self.now).answers processor }
    {
        let at = processor as usize;
        if at < self.tiles.len() {
            Some(self.tiles[at].answers())
        } else {
            None
        }
    }

    /// A bank's entries, in the order of its services; `None` exactly where there is no such bank.
    pub fn bank(&self, bank: u32) -> Option<&[Entry]>
        ensures { option_copied result ≡ slice_get (shown self.now).entries bank }
    {
        let at = bank as usize;
        if at < self.tiles.len() {
            Some(self.tiles[at].entries())
        } else {
            None
        }
    }

    /// The word of an address; `None` exactly where there is no such address.
    pub fn word(&self, address: u32) -> Option<u64>
        ensures { result ≡ slice_get (shown self.now).memory address }
    {
        let words = self.opening.len();
        if address as usize >= words {
            return None;
        }
        let base = self.row.len() - words - 1;
        Some(self.row[base + address as usize])
    }

    /// The word at this place of the row: first the places of each channel, in the order of the
    /// channels, then the memory, then the done word (`laws::rows_show_machines` has it in full).
    /// `None` exactly behind the row's end.
    pub fn row(&self, at: u32) -> Option<u64>
        ensures value { result ≡ slice_get (row_of (built_to self.now) self.now.state) at }
    {
        self.row.get(at as usize).copied()
    }

    /// How many moves the scripts still allow: 241 for each operation that they allow, and 2 for each
    /// tile, less the moves made. No list of steps makes more.
    pub fn moves_left(&self) -> u64
        ensures value { result ≡ self.now.moves_left }
        ensures left { (l : Load) (steps : List Step) → IsAfter l self.now steps
            → result ≡ moves_left l steps (length steps) }
        ensures most { (more : List Step)
            → moves_in (step (built_to self.now)) self.now.state more ≤ result }
    {
        self.left
    }

    /// Whether every script is finished: all its operations are issued and answered, and no spin
    /// wants another load. Until then some step of a round is enabled.
    pub fn finished(&self) -> bool
        ensures value { result ≡ all_finished self.now.state }
        ensures live { result ≡ false → IsLive (built_to self.now) self.now.state }
        ensures scripts { (l : Load) (steps : List Step) → IsAfter l self.now steps
            → IsTrue result ↔ AreFinished (run_of l steps) (length steps) l.scripts }
    {
        self.tiles.iter().all(
            |agents|
                ensures { result
                    ≡ is_finished agents.now.place.processor.state.operations.following }
            { agents.is_finished() },
        )
    }

    /// The rows of the one legal order of the operations so far, to look at: by the services, with the numbers
    /// of the events.
    #[inline(always)]
    pub fn rows(&self) -> &[Ordered]
        ensures { result.now ≡ self.now.book.rows }
    {
        self.book.rows()
    }

    /// The one legal order of the operations so far, by the services, with the numbers of the events.
    ///
    /// Errors: `Fault::Memory` alone.
    pub fn order<B: Allocator + Copy>(&self, alloc: B) -> Result<Vec<Ordered, B>, Fault>
        ensures rows { IfOk result (λ rows. rows.items ≡ self.now.book.rows) }
        ensures fault { IfErr result (λ fault. fault ≡ Fault.Memory) }
    {
        match Vec::from_slice(alloc, self.rows()) {
            Ok(rows) => Ok(rows),
            Err(_) => Err(Fault::Memory),
        }
    }
}
