ghost use Rattle.std.specs.Prelude.{◌≡◌, ◌<◌, ◌≤◌, None, length, IfOk, IfSome, IsSome, MatchOption};
ghost use Rattle.std.specs.Prelude.{vec_len, slice_index, is_some};
ghost use Rattle.torus.specs.Shape.{tiles_of};
ghost use Rattle.torus.specs.declared.step.Stepped.TheVariants as stepped;
ghost use Rattle.script_lines.specs.Lines.{operation_count};
ghost use Rattle.flit_buffer.specs.Tries.{performed_by};
ghost use Rattle.flit_buffer.specs.Words.{word_of};
ghost use Rattle.one_order.specs.Scripts.{IsFollowable};
ghost use Rattle.tile.specs.declared.agent.Agent.TheVariants.{Processor as ProcessorAgent};
ghost use Rattle.tile.specs.declared.agent.Agent.TheVariants.{Router as RouterAgent};
ghost use Rattle.tile.specs.declared.agent.Agent.TheVariants.{Bank as BankOfTile};
ghost use Rattle.tile.specs.Agents.{agent_op, tile_next_op, tile_absorbed, agent_kind};
ghost use Rattle.tile.specs.Placed.{with_place, first_tile, IsAcceptableTo, HasRoomForEntry};
ghost use Rattle.tile.specs.Placed.{agent_attempted, tile_attempted};

use crate::{Agent, Processor, agent_kind, agent_tile};
use flit_buffer::WordOp;
use home_bank::BankAgent;
use router::Router;
use script_lines::Line;
use std::alloc::{AllocError, Allocator, Global};
use std::marker::Model;
use torus::{Choice, Step, Stepped, Torus};

/// The three agents of a tile: its processor, its router and its bank, each with the ends of its
/// channels. Tile t has the agents 3t, 3t + 1 and 3t + 2, in this order.
#[derive(Drop)]
pub struct TileAgents<A: Allocator = Global> {
    pub(crate) tile: u32,
    pub(crate) depth: u32,
    pub(crate) processor: Processor<A>,
    pub(crate) router: Router<A>,
    pub(crate) bank: BankAgent<A>,
}

impl<A: Allocator> Model for TileAgents<A> {
    ghost use Rattle.tile.specs.Placed.{PlacedTile};

    ghost Value = { PlacedTile };

    ghost use Rattle.tile.specs.Inside.{placed_of, AreOfOneTile};

    ghost view = { placed_of };

    ghost invariant = { AreOfOneTile };
}

impl<A: Allocator + Copy> TileAgents<A> {
    /// A tile whose agents have made no step, over channels of this depth that are all empty, with so
    /// many words in the memory, the script of its processor, and room for so many entries in its
    /// bank. The depth is 1 to 8, the tags are 1 to 16, the script has at most 4096 operations, and
    /// the room is at most 65536.
    ///
    /// Errors: out of memory.
    pub fn new(
        alloc: A,
        torus: Torus,
        words: u32,
        tile: u32,
        depth: u32,
        tags: u32,
        lines: Vec<Line, A>,
        room: usize,
    ) -> Result<TileAgents<A>, AllocError>
        requires tile { tile < tiles_of torus }
        requires some { 0 < depth }
        requires few { depth ≤ 8 }
        requires some_tags { 1 ≤ tags }
        requires few_tags { tags ≤ 16 }
        requires followable { IsFollowable lines.items }
        requires count { operation_count lines.items ≤ 4096 }
        requires room { room ≤ 65536 }
        ensures { IfOk result
            (λ v. v ≡ first_tile (record { shape = torus; depth = depth; words = words }) tile tags
            lines.items room) }
    {
        let bank = BankAgent::new(alloc, &torus, tile, depth, room)?;
        let processor = Processor::new(alloc, &torus, words, tile, depth, tags, lines)?;
        let router = Router::new(alloc, torus, tile, depth)?;
        Ok(TileAgents {
            tile,
            depth,
            processor,
            router,
            bank,
        })
    }
}

impl<A: Allocator> TileAgents<A> {
    /// The word operation of a step; None exactly when the step is of another tile, or its agent
    /// hasn't that choice, or the choice's condition fails.
    #[inline(always)]
    pub fn next_op(&self, step: Step) -> Option<WordOp>
        ensures { result ≡ tile_next_op self.now.place step }
    {
        if agent_tile(step.agent) != self.tile {
            return None;
        }
        match agent_kind(step.agent) {
            Agent::Processor => self.processor.next_op(step.choice),
            Agent::Router => self.router.next_op(step.choice),
            Agent::Bank => self.bank.next_op(step.choice),
        }
    }

    /// The word operation of a choice of the processor; None exactly where it hasn't that choice or the
    /// choice's condition fails.
    #[inline(always)]
    pub fn processor_op(&self, choice: Choice) -> Option<WordOp>
        ensures { result ≡ agent_op self.now.place ProcessorAgent choice }
    {
        self.processor.next_op(choice)
    }

    /// The word operation of a choice of the router.
    #[inline(always)]
    pub fn router_op(&self, choice: Choice) -> Option<WordOp>
        ensures { result ≡ agent_op self.now.place RouterAgent choice }
    {
        self.router.next_op(choice)
    }

    /// The word operation of a choice of the bank.
    #[inline(always)]
    pub fn bank_op(&self, choice: Choice) -> Option<WordOp>
        ensures { result ≡ agent_op self.now.place BankOfTile choice }
    {
        self.bank.next_op(choice)
    }

    /// Takes the word that the operation of a step found. What is taken is as the step's agent asks,
    /// and a service has room for its entry.
    #[inline(always)]
    pub fn absorb(&mut self, step: Step, got: u64) -> Stepped
        requires tried { IsSome (tile_next_op self.old.place step) }
        requires flit { IsAcceptableTo self.old.place (agent_kind step.agent) step.choice
            got }
        requires entries { HasRoomForEntry self.old (agent_kind step.agent) step.choice }
        ensures { MatchOption (tile_absorbed self.old.place step got)
            ((result ≡ stepped.Idle) × (self.new ≡ self.old))
            (λ p. (result ≡ stepped.Moved) × (self.new ≡ with_place self.old p)) }
    {
        if agent_tile(step.agent) != self.tile {
            return Stepped::Idle;
        }
        match agent_kind(step.agent) {
            Agent::Processor => self.processor.absorb(step.choice, got),
            Agent::Router => self.router.absorb(step.choice, got),
            Agent::Bank => self.bank.absorb(step.choice, got),
        }
    }

    /// Tries a choice of the processor over a row, at once: performs its operation, if it has one, and
    /// takes the word found. Answers the operation by which the choice moved; None exactly where it is
    /// idle.
    #[inline(always)]
    pub fn attempt_processor<B: Allocator>(
        &mut self,
        choice: Choice,
        row: &mut Vec<u64, B>,
    ) -> Option<WordOp>
        requires room { IfSome (agent_op self.old.place ProcessorAgent choice)
            (λ o. word_of o < vec_len row.old) }
        requires flit { IfSome (agent_op self.old.place ProcessorAgent choice)
            (λ o. IsAcceptableTo self.old.place ProcessorAgent choice
            (slice_index row.old.items (word_of o))) }
        ensures row { row.new.items
            ≡ performed_by row.old.items (agent_op self.old.place ProcessorAgent choice) }
        ensures step { MatchOption
            (agent_attempted self.old.place ProcessorAgent choice row.old.items)
            ((result ≡ None) × (self.new ≡ self.old))
            (λ p. (result ≡ agent_op self.old.place ProcessorAgent choice)
            × (self.new ≡ with_place self.old p)) }
    {
        self.processor.attempt(choice, row)
    }

    /// Tries a choice of the router over a row, at once.
    #[inline(always)]
    pub fn attempt_router<B: Allocator>(
        &mut self,
        choice: Choice,
        row: &mut Vec<u64, B>,
    ) -> Option<WordOp>
        requires room { IfSome (agent_op self.old.place RouterAgent choice)
            (λ o. word_of o < vec_len row.old) }
        requires flit { IfSome (agent_op self.old.place RouterAgent choice)
            (λ o. IsAcceptableTo self.old.place RouterAgent choice
            (slice_index row.old.items (word_of o))) }
        ensures row { row.new.items
            ≡ performed_by row.old.items (agent_op self.old.place RouterAgent choice) }
        ensures step { MatchOption (agent_attempted self.old.place RouterAgent choice row.old.items)
            ((result ≡ None) × (self.new ≡ self.old))
            (λ p. (result ≡ agent_op self.old.place RouterAgent choice)
            × (self.new ≡ with_place self.old p)) }
    {
        self.router.attempt(choice, row)
    }

    /// Tries a choice of the bank over a row, at once. A service has room for its entry.
    #[inline(always)]
    pub fn attempt_bank<B: Allocator>(
        &mut self,
        choice: Choice,
        row: &mut Vec<u64, B>,
    ) -> Option<WordOp>
        requires room { IfSome (agent_op self.old.place BankOfTile choice)
            (λ o. word_of o < vec_len row.old) }
        requires flit { IfSome (agent_op self.old.place BankOfTile choice)
            (λ o. IsAcceptableTo self.old.place BankOfTile choice
            (slice_index row.old.items (word_of o))) }
        requires entries { HasRoomForEntry self.old BankOfTile choice }
        ensures row { row.new.items
            ≡ performed_by row.old.items (agent_op self.old.place BankOfTile choice) }
        ensures step { MatchOption (agent_attempted self.old.place BankOfTile choice row.old.items)
            ((result ≡ None) × (self.new ≡ self.old))
            (λ p. (result ≡ agent_op self.old.place BankOfTile choice)
            × (self.new ≡ with_place self.old p)) }
    {
        self.bank.attempt(choice, row)
    }

    /// Tries a step over a row, at once: performs its operation, if it has one, and takes the word
    /// found. Answers the operation by which the step moved; None exactly where it is idle, as it is
    /// at another tile.
    pub fn attempt<B: Allocator>(&mut self, step: Step, row: &mut Vec<u64, B>) -> Option<WordOp>
        requires room { IfSome (tile_next_op self.old.place step)
            (λ o. word_of o < vec_len row.old) }
        requires flit { IfSome (tile_next_op self.old.place step)
            (λ o. IsAcceptableTo self.old.place (agent_kind step.agent) step.choice
            (slice_index row.old.items (word_of o))) }
        requires entries { HasRoomForEntry self.old (agent_kind step.agent) step.choice }
        ensures row { row.new.items
            ≡ performed_by row.old.items (tile_next_op self.old.place step) }
        ensures step { MatchOption (tile_attempted self.old.place step row.old.items)
            ((result ≡ None) × (self.new ≡ self.old))
            (λ p. (result ≡ tile_next_op self.old.place step)
            × (self.new ≡ with_place self.old p)) }
    {
        if agent_tile(step.agent) != self.tile {
            return None;
        }
        match agent_kind(step.agent) {
            Agent::Processor => self.attempt_processor(step.choice, row),
            Agent::Router => self.attempt_router(step.choice, row),
            Agent::Bank => self.attempt_bank(step.choice, row),
        }
    }

    /// Whether an attempt of a step over a row would move; a step of another tile would not. Nothing
    /// changes.
    pub fn would_move<B: Allocator>(&self, step: Step, row: &Vec<u64, B>) -> bool
        requires room { IfSome (tile_next_op self.now.place step)
            (λ o. word_of o < vec_len row.now) }
        ensures { result ≡ is_some (tile_attempted self.now.place step row.now.items) }
    {
        if agent_tile(step.agent) != self.tile {
            return false;
        }
        match agent_kind(step.agent) {
            Agent::Processor => self.processor.would_move(step.choice, row),
            Agent::Router => self.router.would_move(step.choice, row),
            Agent::Bank => self.bank.would_move(step.choice, row),
        }
    }
}
