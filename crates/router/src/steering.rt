//! The ways of packets through a router: the output for each, kept beside the latch of its head flit.

ghost use Rattle.std.specs.Prelude.{◌≡◌, ◌≢◌, ℕ, ◌<◌, ◌≤◌, length, slice_index_or, slice_set};
ghost use Rattle.std.specs.Prelude.{if◌then◌else◌};
ghost use Rattle.std.specs.Prelude.{Some, None, IfOk, IfSome};
ghost use Rattle.torus.specs.Shape.{tiles_of, dims_of};
ghost use Rattle.torus.specs.declared.shape.Class.TheVariants.{Request};
ghost use Rattle.dateline_route.specs.declared.channel.Input.TheVariants.{Inject};
ghost use Rattle.dateline_route.specs.Next.{next_of};
ghost use Rattle.packet.specs.Flits.{head_of, is_tail};
ghost use Rattle.channel_number.specs.Ports.{port_count, output_number};
ghost use Rattle.router.specs.Table.{output_for, NamesTile, router_with_agent, way_of, latch_of};
ghost use Rattle.router.specs.Owned.{MayPass};

use crate::outputs::{onward, output_at, output_number, output_numbered};
use crate::router::Router;
use dateline_route::{Input, next};
use packet::{Head, head, is_tail};
use std::alloc::{AllocError, Allocator};
use torus::{Class, Torus};

/// The number of the output for requests that are injected at a tile and go to another.
fn way_to(torus: &Torus, tile: u32, dst: u32) -> u8
    requires tile { tile < tiles_of torus.now }
    requires dst { dst < tiles_of torus.now }
    ensures { result ≡ output_number (dims_of torus.now) Request
        (next_of torus.now tile Inject dst) }
{
    let output = next(torus, tile, Input::Inject, dst, Class::Request);
    output_number(torus.dims(), Class::Request, output) as u8
}

/// The outputs for requests that are injected at a tile, by the tile that they go to.
pub(crate) fn ways_from<A: Allocator + Copy>(
    alloc: A,
    torus: &Torus,
    tile: u32,
) -> Result<Vec<u8, A>, AllocError>
    requires { tile < tiles_of torus.now }
    ensures { IfOk result
        (λ ways. (length ways.items ≡ tiles_of torus.now)
        × ((dst : ℕ) → dst < tiles_of torus.now
        → slice_index_or ways.items dst 0
        ≡ output_number (dims_of torus.now) Request (next_of torus.now tile Inject dst))) }
{
    let mut ways = Vec::new(alloc);
    for dst in 0..torus.tiles() {
        ways.push(way_to(torus, tile, dst))?;
    }
    Ok(ways)
}

impl<A: Allocator> Router<A> {
    /// The output for a packet that came by an input.
    #[inline(always)]
    pub(crate) fn way(&self, input: u32, head: Head) -> u32
        requires { head.destination < tiles_of self.now.torus }
        ensures value { result ≡ way_of self.now.torus self.now.tile input head }
        ensures within { result < port_count (dims_of self.now.torus) }
        ensures small { result < 26 }
    {
        let dims = self.torus.dims();
        let injected = u32::from(self.ways[head.destination as usize]);
        let output = onward(input, output_numbered(dims, injected));
        output_number(dims, head.class, output)
    }

    /// The output that is kept beside a flit as it is taken by an input: of a head that for its packet.
    #[inline(always)]
    pub(crate) fn target(&self, input: u32, flit: u64) -> u8
        requires input { input < port_count (dims_of self.now.torus) }
        requires flit { NamesTile self.now.torus flit }
        ensures way { IfSome (head_of flit)
            (λ head. result ≡ way_of self.now.torus self.now.tile input head) }
        ensures within { result < port_count (dims_of self.now.torus) }
    {
        match head(flit) {
            Some(head) => self.way(input, head) as u8,
            None => self.targets[input as usize],
        }
    }

    /// The output to which the flit in the latch of an input may go; None where no output is its own
    /// or free.
    #[inline(always)]
    pub(crate) fn output_for(&self, input: u32, flit: u64) -> Option<u32>
        requires input { input < port_count (dims_of self.now.torus) }
        requires flit { latch_of self.now.agent.state input ≡ Some flit }
        ensures value { result
            ≡ output_for self.now.torus self.now.tile self.now.agent.state input (head_of flit) }
        ensures within { IfSome result (λ output. output < port_count (dims_of self.now.torus)) }
    {
        let Some(_head) = head(flit) else {
            return self.owners.output_of(input);
        };
        let output = output_at(&self.targets, input);
        if self.owners.is_owned(output) {
            None
        } else {
            Some(output)
        }
    }

    /// A flit is taken into the latch of an input, and beside it stands the output for its packet.
    #[inline(always)]
    pub(crate) fn latch(&mut self, input: u32, flit: u64)
        requires input { input < port_count (dims_of self.old.torus) }
        requires flit { NamesTile self.old.torus flit }
        requires some { flit ≢ 0 }
        ensures { self.new
            ≡ router_with_agent self.old (record {
              state = record {
                latches = slice_set self.old.agent.state.latches input (Some flit);
                owned = self.old.agent.state.owned;
              };
              ports = self.old.agent.ports;
            }) }
    {
        let target = self.target(input, flit);
        self.targets[input as usize] = target;
        self.latches.fill(input, flit);
    }

    /// The flit in the latch of an input goes to an output, which the input owns from then on; or
    /// after a tail none.
    #[inline(always)]
    pub(crate) fn pass(&mut self, input: u32, output: u32, flit: u64)
        requires input { input < port_count (dims_of self.old.torus) }
        requires output { output < length self.old.agent.ports.outputs }
        requires open { MayPass self.old.agent.state.owned input output }
        ensures { self.new
            ≡ router_with_agent self.old (record {
              state = record {
                latches = slice_set self.old.agent.state.latches input None;
                owned = slice_set self.old.agent.state.owned input
                    (if is_tail flit then None else Some output);
              };
              ports = self.old.agent.ports;
            }) }
    {
        self.latches.clear(input);
        self.owners.pass(input, output, is_tail(flit));
    }
}
