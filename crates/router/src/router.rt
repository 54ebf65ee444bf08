ghost use Rattle.std.specs.Prelude.{◌≡◌, ◌<◌, ◌≤◌, IsTrue, ◌↔◌, vec_len, slice_index};
ghost use Rattle.std.specs.Prelude.{Some, None, IfOk, IfSome, IsSome, MatchOption, is_some};
ghost use Rattle.torus.specs.Shape.{tiles_of, dims_of};
ghost use Rattle.torus.specs.declared.step.Stepped.TheVariants as stepped;
ghost use Rattle.flit_buffer.specs.Agent.{next_op, absorbed, attempted};
ghost use Rattle.flit_buffer.specs.Tries.{performed_by};
ghost use Rattle.flit_buffer.specs.Words.{word_of};
ghost use Rattle.flit_buffer.specs.Wants.{HasPort};
ghost use Rattle.channel_number.specs.Ports.{port_count};
ghost use Rattle.router.specs.Beginning.{router_ports};
ghost use Rattle.router.specs.Table.{empty_router, router_wants, router_after, IsRoutable};
ghost use Rattle.router.specs.Table.{NamesTile};
ghost use Rattle.router.specs.Table.{router_with_agent, latch_of};
ghost use Rattle.router.specs.Kept.{IsOfChoice, IsFlitOf};

use crate::latches::Latches;
use crate::owners::Owners;
use crate::ports::{ByPort, NetworkPorts, filled};
use crate::start::router_ports;
use crate::steering::ways_from;
use flit_buffer::{Want, WordOp};
use packet::head;
use std::alloc::{AllocError, Allocator, Global};
use std::marker::Model;
use torus::{Choice, Stepped, Torus};

/// The router of a tile: a latch for each input, the output that each input owns, and the ends of
/// the channels at its inputs and outputs.
#[derive(Drop)]
pub struct Router<A: Allocator = Global> {
    pub(crate) torus: Torus,
    pub(crate) tile: u32,
    pub(crate) latches: Latches,
    pub(crate) owners: Owners,
    /// By input the output for the head flit in its latch.
    pub(crate) targets: ByPort<u8>,
    pub(crate) ports: NetworkPorts,
    /// By tile the output for requests to it that are injected here.
    pub(crate) ways: Vec<u8, A>,
}

impl<A: Allocator> Model for Router<A> {
    ghost use Rattle.router.specs.Beginning.{router_ports};
    ghost use Rattle.router.specs.Table.{RouterPlace};

    ghost Value = { RouterPlace };

    ghost use Rattle.router.specs.Inside.{router_place_of, IsRouter};

    ghost view = { router_place_of };

    ghost invariant = { IsRouter };
}

impl<A: Allocator + Copy> Router<A> {
    /// The router of a tile with nothing in its latches, over channels of this depth that are all
    /// empty. The depth is 1 to 8. The places of each channel stand in the row from its place among
    /// the channels times the depth on.
    ///
    /// Errors: out of memory.
    pub fn new(alloc: A, torus: Torus, tile: u32, depth: u32) -> Result<Router<A>, AllocError>
        requires tile { tile < tiles_of torus }
        requires some { 0 < depth }
        requires few { depth ≤ 8 }
        ensures { IfOk result
            (λ r. r ≡ record {
              torus = torus;
              tile = tile;
              agent = record {
                state = empty_router (port_count (dims_of torus));
                ports = router_ports torus tile depth;
              };
            }) }
    {
        let count = 8 * torus.dims() as usize + 2;
        let ways = ways_from(alloc, &torus, tile)?;
        let ports = router_ports(&torus, tile, depth);
        Ok(Router {
            torus,
            tile,
            latches: Latches::new(count),
            owners: Owners::new(count),
            targets: filled(0, count),
            ports,
            ways,
        })
    }
}

impl<A: Allocator> Router<A> {
    /// What a choice wants.
    #[inline(always)]
    fn wants(&self, choice: Choice) -> Option<Want>
        ensures value { result
            ≡ router_wants self.now.torus self.now.tile self.now.agent.state choice }
        ensures port { IfSome result (HasPort self.now.agent.ports) }
        ensures kind { IfSome result (IsOfChoice choice) }
    {
        match choice {
            Choice::TakeFrom(input) => {
                if (input as usize) < self.latches.count() && self.latches.flit(input).is_none() {
                    Some(Want::Take(input))
                } else {
                    None
                }
            }
            Choice::Put(input) => {
                if (input as usize) < self.latches.count() {
                    let flit = self.latches.flit(input)?;
                    let output = self.output_for(input, flit)?;
                    Some(Want::Put(output, flit))
                } else {
                    None
                }
            }
            Choice::CreditOf(output) => {
                if (output as usize) < self.latches.count() {
                    Some(Want::Credit(output))
                } else {
                    None
                }
            }
            _ => None,
        }
    }

    /// The operation of a choice; None exactly when the router hasn't that choice or its condition
    /// fails.
    #[inline(always)]
    pub fn next_op(&self, choice: Choice) -> Option<WordOp>
        ensures { result ≡ next_op (router_wants self.now.torus self.now.tile) self.now.agent
            choice }
    {
        let want = self.wants(choice)?;
        self.ports.op(want)
    }

    /// The flit in the latch of an input; `None` where the latch is empty, or there is no such input.
    #[inline(always)]
    pub fn latched(&self, input: u32) -> Option<u64>
        ensures { result ≡ latch_of self.now.agent.state input }
    {
        if (input as usize) < self.latches.count() {
            self.latches.flit(input)
        } else {
            None
        }
    }

    /// Whether a word is no head flit or names a tile.
    pub fn is_routable(&self, flit: u64) -> bool
        ensures { IsTrue result ↔ NamesTile self.now.torus flit }
    {
        match head(flit) {
            Some(head) => (head.destination as usize) < self.ways.len(),
            None => true,
        }
    }

    /// Takes the word that the operation of a choice found. A head flit that is taken names a tile.
    #[inline(always)]
    #[tactic(auto, using(crate::proofs::Latched::flit_learned))]
    pub fn absorb(&mut self, choice: Choice, got: u64) -> Stepped
        requires tried { IsSome
            (next_op (router_wants self.old.torus self.old.tile) self.old.agent choice) }
        requires flit { IsRoutable self.old.torus choice got }
        ensures { MatchOption
            (absorbed (router_wants self.old.torus self.old.tile) router_after self.old.agent choice
            got) ((result ≡ stepped.Idle) × (self.new ≡ self.old))
            (λ a. (result ≡ stepped.Moved) × (self.new ≡ router_with_agent self.old a)) }
    {
        let Some(want) = self.wants(choice) else {
            return Stepped::Idle;
        };
        let Some(learned) = self.ports.absorb(want, got) else {
            return Stepped::Idle;
        };
        self.note(choice, want, learned);
        Stepped::Moved
    }

    /// Tries a choice over a row, at once: performs its operation, if it has one, and takes the word
    /// found. Answers the operation by which the choice moved; None exactly where it is idle.
    #[inline(always)]
    #[tactic(auto, using(crate::proofs::Latched::flit_tried))]
    pub fn attempt<B: Allocator>(&mut self, choice: Choice, row: &mut Vec<u64, B>) -> Option<WordOp>
        requires room { IfSome
            (next_op (router_wants self.old.torus self.old.tile) self.old.agent choice)
            (λ o. word_of o < vec_len row.old) }
        requires flit { IfSome
            (next_op (router_wants self.old.torus self.old.tile) self.old.agent choice)
            (λ o. IsRoutable self.old.torus choice (slice_index row.old.items (word_of o))) }
        ensures row { row.new.items
            ≡ performed_by row.old.items
            (next_op (router_wants self.old.torus self.old.tile) self.old.agent choice) }
        ensures step { MatchOption
            (attempted (router_wants self.old.torus self.old.tile) router_after self.old.agent
            choice row.old.items) ((result ≡ None) × (self.new ≡ self.old))
            (λ a. (result
            ≡ next_op (router_wants self.old.torus self.old.tile) self.old.agent choice)
            × (self.new ≡ router_with_agent self.old a)) }
    {
        let want = self.wants(choice)?;
        let op = self.ports.op(want)?;
        let learned = self.ports.attempt(want, row)?;
        self.note(choice, want, learned);
        Some(op)
    }

    /// Whether an attempt of a choice over a row would move. Nothing changes.
    #[inline(always)]
    pub fn would_move<B: Allocator>(&self, choice: Choice, row: &Vec<u64, B>) -> bool
        requires room { IfSome
            (next_op (router_wants self.now.torus self.now.tile) self.now.agent choice)
            (λ o. word_of o < vec_len row.now) }
        ensures { result ≡ is_some
            (attempted (router_wants self.now.torus self.now.tile) router_after self.now.agent
            choice row.now.items) }
    {
        match self.wants(choice) {
            Some(want) => self.ports.would_grant(want, row),
            None => false,
        }
    }

    /// What follows in the router once a want of a choice is granted.
    #[inline(always)]
    fn note(&mut self, choice: Choice, want: Want, learned: u64)
        requires wanted { router_wants self.old.torus self.old.tile self.old.agent.state choice
            ≡ Some want }
        requires port { HasPort self.old.agent.ports want }
        requires flit { IsRoutable self.old.torus choice learned }
        requires some { IsFlitOf choice learned }
        ensures { self.new
            ≡ router_with_agent self.old (record {
              state =
                  router_after self.old.agent.state choice want learned;
              ports = self.old.agent.ports;
            }) }
    {
        match (choice, want) {
            (Choice::TakeFrom(input), _) => self.latch(input, learned),
            (Choice::Put(input), Want::Put(output, flit)) => self.pass(input, output, flit),
            _ => {}
        }
    }
}
