ghost use Rattle.std.specs.Prelude.{◌≡◌, ◌<◌, ◌≤◌, ◌+◌, ◌==◌, Option, None, is_some, unwrap_or};
ghost use Rattle.std.specs.Prelude.{true};
ghost use Rattle.std.specs.Prelude.{vec_len, slice_index, IsTrue, IfOk, IfSome, IsSome};
ghost use Rattle.std.specs.Prelude.{MatchOption};
ghost use Rattle.torus.specs.Shape.{tiles_of};
ghost use Rattle.torus.specs.declared.step.Choice.TheVariants as chosen;
ghost use Rattle.torus.specs.declared.step.Stepped.TheVariants as stepped;
ghost use Rattle.packet.specs.declared.kinds.Operation.{Operation};
ghost use Rattle.packet.specs.Flit.{field};
ghost use Rattle.script_lines.specs.Lines.{operation_count};
ghost use Rattle.flit_buffer.specs.Agent.{next_op, absorbed, attempted};
ghost use Rattle.flit_buffer.specs.Channel.{first_of};
ghost use Rattle.flit_buffer.specs.Tries.{performed_by};
ghost use Rattle.flit_buffer.specs.Words.{word_of};
ghost use Rattle.flit_buffer.specs.Wants.{HasPort};
ghost use Rattle.one_order.specs.Scripts.{IsFollowable};
ghost use Rattle.one_order.specs.Following.{is_finished};
ghost use Rattle.one_order.specs.ProcessorRecord.{ready};
ghost use Rattle.one_order.specs.ProcessorTable.{request_flits, flits_due, processor_wants};
ghost use Rattle.one_order.specs.ProcessorTable.{processor_after};
ghost use Rattle.net_interface.specs.Beginning.{first_processor, processor_ports};
ghost use Rattle.net_interface.specs.Place.{processor_with_agent, is_tagged, accepts};
ghost use Rattle.net_interface.specs.Place.{IsAcceptableToProcessor};

use crate::record::Record;
use crate::requests::request_flits;
use crate::start::processor_ports;
use arrayvec::ArrayVec;
use flit_buffer::{Ports, Want, WordOp};
use packet::{Assembler, Op, Operation};
use script_lines::Line;
use std::alloc::{AllocError, Allocator, Global};
use std::marker::Model;
use tag_table::Tag;
use torus::{Choice, Stepped, Torus};

/// The processor of a tile: it follows its script, sends the requests of its operations, takes their
/// replies, reports when its script is finished, and looks whether all scripts are.
#[derive(Drop)]
pub struct Processor<A: Allocator = Global> {
    pub(crate) tiles: u32,
    pub(crate) words: u32,
    pub(crate) tile: u32,
    pub(crate) operations: Record<A>,
    /// With no request in course: the operation that is ready, and the tag that it would take.
    pub(crate) next: Option<(Tag, Operation)>,
    /// The flits of the request in course; with none, those of the operation that is ready.
    pub(crate) flits: ArrayVec<u64, 5>,
    /// How many of these flits are put. A request is in course while some are.
    pub(crate) put: usize,
    pub(crate) assembler: Assembler,
    /// The head flit of the reply that has begun to come in.
    pub(crate) begun: Option<u64>,
    pub(crate) reported: bool,
    pub(crate) seen: bool,
    pub(crate) ports: Ports<A>,
}

impl<A: Allocator> Model for Processor<A> {
    ghost use Rattle.net_interface.specs.Place.{ProcessorPlace};

    ghost Value = { ProcessorPlace };

    ghost use Rattle.net_interface.specs.Inside.{processor_place_of, IsProcessor};

    ghost view = { processor_place_of };

    ghost invariant = { IsProcessor };
}

/// The tag that a head flit carries.
pub(crate) fn tag_told(head: u64) -> Tag
    ensures { result.0 ≡ field head 41 4 }
{
    Tag(((head >> 41) % 16) as u32)
}

impl<A: Allocator + Copy> Processor<A> {
    /// The processor of a tile that has made no step of its script, over channels of this depth that
    /// are all empty, with so many words in the memory. The depth is 1 to 8, the tags are 1 to 16,
    /// and the script has at most 4096 operations. The places of each channel stand in the row from
    /// its place among the channels times the depth on, and the words behind them.
    ///
    /// Errors: out of memory.
    pub fn new(
        alloc: A,
        torus: &Torus,
        words: u32,
        tile: u32,
        depth: u32,
        tags: u32,
        lines: Vec<Line, A>,
    ) -> Result<Processor<A>, AllocError>
        requires tile { tile < tiles_of torus.now }
        requires some { 0 < depth }
        requires few { depth ≤ 8 }
        requires some_tags { 1 ≤ tags }
        requires few_tags { tags ≤ 16 }
        requires followable { IsFollowable lines.items }
        requires count { operation_count lines.items ≤ 4096 }
        ensures { IfOk result
            (λ p. p ≡ record {
              tiles = tiles_of torus.now;
              words = words;
              tile = tile;
              agent = record {
                state = first_processor tags lines.items;
                ports = processor_ports torus.now tile depth;
              };
            }) }
    {
        let tiles = torus.tiles();
        let ports = processor_ports(alloc, torus, tile, depth)?;
        let operations = Record::new(alloc, tags, lines)?;
        let next = operations.ready();
        let flits = request_flits(tiles, tile, next);
        Ok(Processor {
            tiles,
            words,
            tile,
            operations,
            next,
            flits,
            put: 0,
            assembler: Assembler::new(),
            begun: None,
            reported: false,
            seen: false,
            ports,
        })
    }
}

impl<A: Allocator> Processor<A> {
    /// The flit to be sent next: of the request in course or, with none, of the operation that is
    /// ready under a free tag.
    #[inline(always)]
    fn next_flit(&self) -> Option<u64>
        ensures { result ≡ first_of
            (flits_due self.now.tiles self.now.words self.now.tile self.now.agent.state.to_put
            (ready self.now.agent.state.operations)) }
    {
        if self.put < self.flits.len() {
            Some(self.flits[self.put])
        } else {
            None
        }
    }

    /// What a choice wants.
    #[inline(always)]
    fn wants(&self, choice: Choice) -> Option<Want>
        ensures value { result
            ≡ processor_wants self.now.tiles self.now.words self.now.tile self.now.agent.state
            choice }
        ensures port { IfSome result (HasPort self.now.agent.ports) }
    {
        match choice {
            Choice::Send => {
                let flit = self.next_flit()?;
                Some(Want::Put(0, flit))
            }
            Choice::Take => Some(Want::Take(0)),
            Choice::Credit => Some(Want::Credit(0)),
            Choice::Done => {
                if self.operations.is_finished() && !self.reported {
                    Some(Want::Access(self.words, Op::Add(1)))
                } else {
                    None
                }
            }
            Choice::Look => {
                if self.reported && !self.seen {
                    Some(Want::Await(self.words, u64::from(self.tiles)))
                } else {
                    None
                }
            }
            _ => None,
        }
    }

    /// The operation of a choice; None exactly when the processor hasn't that choice or its condition
    /// fails.
    #[inline(always)]
    pub fn next_op(&self, choice: Choice) -> Option<WordOp>
        ensures { result ≡ next_op (processor_wants self.now.tiles self.now.words self.now.tile)
            self.now.agent choice }
    {
        let want = self.wants(choice)?;
        self.ports.op(want)
    }

    /// Whether the tag in the head flit of a reply is out: of the one that has begun to come in, else
    /// of this flit.
    fn is_tagged(&self, flit: u64) -> bool
        ensures value { result ≡ is_tagged self.now.agent.state flit }
        ensures acceptable { IsTrue result →
            IsAcceptableToProcessor self.now.agent.state chosen.Take flit }
    {
        let head = self.begun.unwrap_or(flit);
        self.holder(tag_told(head)).is_some()
    }

    /// Whether a word may be taken that the operation of a choice found: it is no flit that is taken, or
    /// the tag is out that stands in the head flit of the packet that it begins or goes on with.
    pub fn is_acceptable(&self, choice: Choice, got: u64) -> bool
        ensures value { result ≡ accepts self.now.agent.state choice got }
        ensures acceptable { IsTrue result →
            IsAcceptableToProcessor self.now.agent.state choice got }
    {
        match choice {
            Choice::Take => got == 0 || self.is_tagged(got),
            _ => true,
        }
    }

    /// Takes the word that the operation of a choice found. A reply that is whole with a flit that is
    /// taken is one to an operation that holds its tag.
    #[inline(always)]
    pub fn absorb(&mut self, choice: Choice, got: u64) -> Stepped
        requires tried { IsSome
            (next_op (processor_wants self.old.tiles self.old.words self.old.tile) self.old.agent
            choice) }
        requires flit { IsAcceptableToProcessor self.old.agent.state choice got }
        ensures { MatchOption
            (absorbed (processor_wants self.old.tiles self.old.words self.old.tile)
            (processor_after self.old.tiles self.old.words self.old.tile) self.old.agent choice
            got) ((result ≡ stepped.Idle) × (self.new ≡ self.old))
            (λ a. (result ≡ stepped.Moved) × (self.new ≡ processor_with_agent self.old a)) }
    {
        let Some(want) = self.wants(choice) else {
            return Stepped::Idle;
        };
        let Some(learned) = self.ports.absorb(want, got) else {
            return Stepped::Idle;
        };
        self.note(choice, want, learned);
        Stepped::Moved
    }

    /// Tries a choice over a row, at once: performs its operation, if it has one, and takes the word
    /// found. Answers the operation by which the choice moved; None exactly where it is idle.
    #[inline(always)]
    pub fn attempt<B: Allocator>(&mut self, choice: Choice, row: &mut Vec<u64, B>) -> Option<WordOp>
        requires room { IfSome
            (next_op (processor_wants self.old.tiles self.old.words self.old.tile) self.old.agent
            choice) (λ o. word_of o < vec_len row.old) }
        requires flit { IfSome
            (next_op (processor_wants self.old.tiles self.old.words self.old.tile) self.old.agent
            choice) (λ o. IsAcceptableToProcessor self.old.agent.state choice
            (slice_index row.old.items (word_of o))) }
        ensures row { row.new.items
            ≡ performed_by row.old.items
            (next_op (processor_wants self.old.tiles self.old.words self.old.tile) self.old.agent
            choice) }
        ensures step { MatchOption
            (attempted (processor_wants self.old.tiles self.old.words self.old.tile)
            (processor_after self.old.tiles self.old.words self.old.tile) self.old.agent choice
            row.old.items) ((result ≡ None) × (self.new ≡ self.old))
            (λ a. (result
            ≡ next_op (processor_wants self.old.tiles self.old.words self.old.tile) self.old.agent
            choice) × (self.new ≡ processor_with_agent self.old a)) }
    {
        let want = self.wants(choice)?;
        let op = self.ports.op(want)?;
        let learned = self.ports.attempt(want, row)?;
        self.note(choice, want, learned);
        Some(op)
    }

    /// Whether an attempt of a choice over a row would move. Nothing changes.
    #[inline(always)]
    pub fn would_move<B: Allocator>(&self, choice: Choice, row: &Vec<u64, B>) -> bool
        requires room { IfSome
            (next_op (processor_wants self.now.tiles self.now.words self.now.tile) self.now.agent
            choice) (λ o. word_of o < vec_len row.now) }
        ensures { result ≡ is_some
            (attempted (processor_wants self.now.tiles self.now.words self.now.tile)
            (processor_after self.now.tiles self.now.words self.now.tile) self.now.agent choice
            row.now.items) }
    {
        match self.wants(choice) {
            Some(want) => self.ports.would_grant(want, row),
            None => false,
        }
    }
}
