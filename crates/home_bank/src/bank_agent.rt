//! The bank of a tile, as an agent.

ghost use Rattle.std.specs.Prelude.{◌≡◌, ◌<◌, ◌≤◌, ◌↔◌, ◌*◌, length, IsTrue, IfOk, IfSome, IsSome, MatchOption};
ghost use Rattle.std.specs.Prelude.{vec_len, slice_index, Some, None, is_some, ◌+◌, ◌-◌};
ghost use Rattle.torus.specs.Shape.{tiles_of};
ghost use Rattle.torus.specs.declared.step.Choice.TheVariants as choice;
ghost use Rattle.torus.specs.declared.step.Stepped.TheVariants as stepped;
ghost use Rattle.flit_buffer.specs.Agent.{next_op, absorbed, attempted};
ghost use Rattle.flit_buffer.specs.Tries.{performed_by};
ghost use Rattle.flit_buffer.specs.Words.{word_of};
ghost use Rattle.flit_buffer.specs.Wants.{HasPort};
ghost use Rattle.flit_buffer.specs.declared.want.Want.{Want};
ghost use Rattle.flit_buffer.specs.declared.want.Want.TheVariants as wants_to;
ghost use Rattle.home_bank.specs.BankTable.{bank_wants, bank_after, served};
ghost use Rattle.home_bank.specs.BankAgent.{NamesWord, IsAcceptableToBank, HasRoom, bank_with_agent};
ghost use Rattle.home_bank.specs.Beginning.{empty_bank, bank_ports};

use crate::ServiceList;
use crate::flits_left::FlitsLeft;
use crate::start::bank_ports;
use flit_buffer::{Ports, Want, WordOp};
use packet::{Assembler, Head, Offered, Packet, Request, apply, flits, head};
use std::alloc::{AllocError, Allocator, Global};
use std::marker::Model;
use torus::{Choice, Class, Stepped, Torus};

/// The bank of a tile: the list of its services, the request that comes in or waits, what is left of
/// the reply in course, and the ends of the channels at its input and its output. Its words stand in
/// the row: word w has the address `tile + w * tiles`.
#[derive(Drop)]
pub struct BankAgent<A: Allocator = Global> {
    pub(crate) services: ServiceList<A>,
    pub(crate) assembler: Assembler,
    pub(crate) waiting: Option<Request>,
    pub(crate) to_put: FlitsLeft,
    pub(crate) ports: Ports<A>,
}

impl<A: Allocator> Model for BankAgent<A> {
    ghost use Rattle.home_bank.specs.BankAgent.{BankPlace};

    ghost Value = { BankPlace };

    ghost use Rattle.home_bank.specs.Inside.{bank_place_of, IsBankAgent};

    ghost view = { bank_place_of };

    ghost invariant = { IsBankAgent };
}

/// Whether a flit can be taken: it is no head flit of a request, or names a word below 65536. No
/// memory has more words.
#[tactic(auto, unfolding(packet::specs::Flit::field))]
pub fn is_acceptable(flit: u64) -> bool
    ensures { IsTrue result ↔ NamesWord flit }
{
    match head(flit) {
        Some(
            Head {
                class: Class::Request,
                ..
            },
        ) => flit % (1 << 32) < 65536,
        _ => true,
    }
}

impl<A: Allocator + Copy> BankAgent<A> {
    /// The bank of a tile that has served nothing, over channels of this depth that are all empty.
    /// The depth is 1 to 8. The places of each channel stand in the row from its place among the
    /// channels times the depth on. There is room for this many entries, at most 65536.
    ///
    /// Errors: out of memory.
    pub fn new(
        alloc: A,
        torus: &Torus,
        tile: u32,
        depth: u32,
        room: usize,
    ) -> Result<BankAgent<A>, AllocError>
        requires tile { tile < tiles_of torus.now }
        requires some { 0 < depth }
        requires few { depth ≤ 8 }
        requires room { room ≤ 65536 }
        ensures { IfOk result
            (λ b. b ≡ record {
              tiles = tiles_of torus.now;
              tile = tile;
              room = room;
              agent = record { state = empty_bank; ports = bank_ports torus.now tile depth };
            }) }
    {
        let services = ServiceList::new(alloc, tile, torus.tiles(), room)?;
        let ports = bank_ports(alloc, torus, tile, depth)?;
        Ok(BankAgent {
            services,
            assembler: Assembler::new(),
            waiting: None,
            to_put: FlitsLeft::none(),
            ports,
        })
    }
}

impl<A: Allocator> BankAgent<A> {
    /// What a choice wants.
    #[inline(always)]
    fn wants(&self, choice: Choice) -> Option<Want>
        ensures value { result
            ≡ bank_wants self.now.tiles self.now.tile self.now.agent.state choice }
        ensures port { IfSome result (HasPort self.now.agent.ports) }
    {
        match choice {
            Choice::Take => {
                if self.waiting.is_none() && self.to_put.is_empty() {
                    Some(Want::Take(0))
                } else {
                    None
                }
            }
            Choice::Serve => {
                let request = self.waiting?;
                Some(Want::Access(self.services.address_of(request.word), request.op))
            }
            Choice::Send => {
                let flit = self.to_put.first()?;
                Some(Want::Put(0, flit))
            }
            Choice::Credit => Some(Want::Credit(0)),
            _ => None,
        }
    }

    /// The operation of a choice; None exactly when the bank hasn't that choice or its condition
    /// fails.
    #[inline(always)]
    pub fn next_op(&self, choice: Choice) -> Option<WordOp>
        ensures { result ≡ next_op (bank_wants self.now.tiles self.now.tile) self.now.agent choice }
    {
        let want = self.wants(choice)?;
        self.ports.op(want)
    }

    /// Takes the word that the operation of a choice found. A head flit of a request that is taken
    /// names a word below 65536 (`is_acceptable`), and a service has room for its entry (`is_full`).
    #[inline(always)]
    pub fn absorb(&mut self, choice: Choice, got: u64) -> Stepped
        requires tried { IsSome
            (next_op (bank_wants self.old.tiles self.old.tile) self.old.agent choice) }
        requires flit { IsAcceptableToBank choice got }
        requires entries { HasRoom self.old choice }
        ensures { MatchOption
            (absorbed (bank_wants self.old.tiles self.old.tile)
            (bank_after self.old.tiles self.old.tile) self.old.agent choice got)
            ((result ≡ stepped.Idle) × (self.new ≡ self.old))
            (λ a. (result ≡ stepped.Moved) × (self.new ≡ bank_with_agent self.old a)) }
    {
        let Some(want) = self.wants(choice) else {
            return Stepped::Idle;
        };
        let Some(learned) = self.ports.absorb(want, got) else {
            return Stepped::Idle;
        };
        self.note(choice, learned);
        Stepped::Moved
    }

    /// Tries a choice over a row, at once: performs its operation, if it has one, and takes the word
    /// found. Answers the operation by which the choice moved; None exactly where it is idle.
    #[inline(always)]
    pub fn attempt<B: Allocator>(&mut self, choice: Choice, row: &mut Vec<u64, B>) -> Option<WordOp>
        requires room { IfSome
            (next_op (bank_wants self.old.tiles self.old.tile) self.old.agent choice)
            (λ o. word_of o < vec_len row.old) }
        requires flit { IfSome
            (next_op (bank_wants self.old.tiles self.old.tile) self.old.agent choice)
            (λ o. IsAcceptableToBank choice (slice_index row.old.items (word_of o))) }
        requires entries { HasRoom self.old choice }
        ensures row { row.new.items
            ≡ performed_by row.old.items
            (next_op (bank_wants self.old.tiles self.old.tile) self.old.agent choice) }
        ensures step { MatchOption
            (attempted (bank_wants self.old.tiles self.old.tile)
            (bank_after self.old.tiles self.old.tile) self.old.agent choice row.old.items)
            ((result ≡ None) × (self.new ≡ self.old))
            (λ a. (result
            ≡ next_op (bank_wants self.old.tiles self.old.tile) self.old.agent choice)
            × (self.new ≡ bank_with_agent self.old a)) }
    {
        let want = self.wants(choice)?;
        let op = self.ports.op(want)?;
        let learned = self.ports.attempt(want, row)?;
        self.note(choice, learned);
        Some(op)
    }

    /// Whether an attempt of a choice over a row would move. Nothing changes.
    #[inline(always)]
    pub fn would_move<B: Allocator>(&self, choice: Choice, row: &Vec<u64, B>) -> bool
        requires room { IfSome
            (next_op (bank_wants self.now.tiles self.now.tile) self.now.agent choice)
            (λ o. word_of o < vec_len row.now) }
        ensures { result ≡ is_some
            (attempted (bank_wants self.now.tiles self.now.tile)
            (bank_after self.now.tiles self.now.tile) self.now.agent choice row.now.items) }
    {
        match self.wants(choice) {
            Some(want) => self.ports.would_grant(want, row),
            None => false,
        }
    }

    /// What follows in the bank once a want of a choice is granted.
    fn note(&mut self, choice: Choice, learned: u64)
        requires flit { IsAcceptableToBank choice learned }
        requires entries { HasRoom self.old choice }
        ensures { (want : Want)
            → self.new ≡ bank_with_agent self.old
            (record {
              state = bank_after self.old.tiles self.old.tile self.old.agent.state choice
                  want learned;
              ports = self.old.agent.ports;
            }) }
    {
        match choice {
            Choice::Take => self.take_in(learned),
            Choice::Serve => self.serve(learned),
            Choice::Send => self.to_put.pass(),
            _ => {}
        }
    }

    /// Takes a flit of a request; the last one makes the request wait.
    #[inline(never)]
    fn take_in(&mut self, flit: u64)
        requires { NamesWord flit }
        ensures { self.new
            ≡ bank_with_agent self.old (record {
              state =
                  bank_after self.old.tiles self.old.tile self.old.agent.state choice.Take
                  (wants_to.Take 0) flit;
              ports = self.old.agent.ports;
            }) }
    {
        if let Offered::Whole(Packet::Request(request)) = self.assembler.offer(flit) {
            self.waiting = Some(request);
        }
    }

    /// Serves the request that waits, whose operation found a word: adds its entry, and begins its
    /// reply.
    #[inline(never)]
    fn serve(&mut self, found: u64)
        requires { length self.old.agent.state.entries < self.old.room }
        ensures { self.new
            ≡ bank_with_agent self.old (record {
              state =
                  served self.old.tiles self.old.tile self.old.agent.state
                  self.old.agent.state.waiting found;
              ports = self.old.agent.ports;
            }) }
    {
        let Some(request) = self.waiting else {
            return;
        };
        let (_, reply) = apply(request.op, found);
        let response = self.services.record(request, reply);
        self.waiting = None;
        self.to_put = FlitsLeft::all_of(flits(&Packet::Response(response)));
    }
}
