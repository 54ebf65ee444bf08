//! Flits with the number of their packet: where they stand, as moves are made.

ghost use Rattle.std.specs.Prelude.{◌≡◌, ◌+◌, ◌<◌, ◌^◌, List, length, map, drop};
ghost use Rattle.std.specs.Prelude.{slice_get, slice_index, slice_index_or, slice_set, None};
ghost use Rattle.std.specs.Prelude.{IfSome};
ghost use Rattle.network_judge.specs.Table.{Table};
ghost use Rattle.network_machine.specs.declared.moves.Move.TheVariants.{Send, More, Take, Put};
ghost use Rattle.network_machine.specs.declared.moves.Move.TheVariants.{Accept};
ghost use Rattle.network_rounds.specs.declared.senders.Timed.{Timed};
ghost use Rattle.network_traffic.specs.Plans.{IsPlan, plan_table};
ghost use Rattle.network_traffic.specs.Labels.{label_added, labels_of, label_put, label_first};
ghost use Rattle.network_traffic.specs.Labels.{label_gone};
ghost use Rattle.network_traffic.specs.Labels.{label_onto, labels_spec, label_begun, labels_after};
ghost use Rattle.network_traffic.specs.Labels.{HasChannels};

use crate::plan::{Plan, next_number};
use arrayvec::ArrayVec;
use network_machine::{Move, Packet};
use std::alloc::{Allocator, Global};

/// The packets whose flits stand in the channels and latches of a network, by their numbers.
#[derive(Drop)]
pub struct Labels<A: Allocator = Global> {
    /// Those in each channel, the first to come out first.
    pub flits: Vec<ArrayVec<usize, 8>, A>,
    /// That in the latch behind each channel.
    pub latches: Vec<Option<usize>, A>,
    /// That which the sender of each channel has begun last.
    pub courses: Vec<Option<usize>, A>,
    /// How many the sender of each channel has begun.
    pub begun: Vec<usize, A>,
}

/// Adds a flit of a packet behind those of a channel, which holds 8 at most.
fn add_label(labels: &mut ArrayVec<usize, 8>, k: usize)
    ensures { labels.new.items ≡ label_added labels.old.items k }
{
    if labels.len() < 8 {
        labels.push(k);
    }
}

/// The packet of the first flit.
fn first_label(labels: &ArrayVec<usize, 8>) -> Option<usize>
    ensures { result ≡ slice_get labels.now.items 0 }
{
    if labels.is_empty() {
        return None;
    }
    Some(labels[0])
}

/// The first flit leaves.
fn drop_label(labels: &mut ArrayVec<usize, 8>)
    ensures { labels.new.items ≡ drop 1 labels.old.items }
{
    if !labels.is_empty() {
        labels.remove(0);
    }
}

/// Puts a flit of a packet, if there is one, into a channel.
fn put_label(flits: &mut [ArrayVec<usize, 8>], y: usize, of: Option<usize>)
    ensures size { length flits.new ≡ length flits.old }
    ensures value { labels_of flits.new ≡ label_put (labels_of flits.old) y of }
{
    if let Some(k) = of {
        if y < flits.len() {
            add_label(&mut flits[y], k);
        }
    }
}

/// The packet of the first flit of a channel.
pub(crate) fn first_at(flits: &[ArrayVec<usize, 8>], x: usize) -> Option<usize>
    ensures { result ≡ label_first (labels_of flits.now) x }
{
    if x >= flits.len() {
        return None;
    }
    first_label(&flits[x])
}

/// The first flit of a channel leaves.
fn drop_at(flits: &mut [ArrayVec<usize, 8>], x: usize)
    ensures size { length flits.new ≡ length flits.old }
    ensures value { labels_of flits.new ≡ label_gone (labels_of flits.old) x }
{
    if x < flits.len() {
        drop_label(&mut flits[x]);
    }
}

/// The packet at a place, if any.
pub(crate) fn packet_at(packets: &[Option<usize>], x: usize) -> Option<usize>
    ensures value { result ≡ slice_index_or packets.now x None }
    ensures within { IfSome result (λ k. x < length packets.now) }
{
    if x < packets.len() { packets[x] } else { None }
}

/// Another packet, or none, at a place.
fn set_packet(packets: &mut [Option<usize>], x: usize, of: Option<usize>)
    ensures { packets.new ≡ slice_set packets.old x of }
{
    if x < packets.len() {
        packets[x] = of;
    }
}

/// Puts a flit of a packet into a channel, if there is one.
fn put_onto(flits: &mut [ArrayVec<usize, 8>], y: Option<usize>, k: usize)
    ensures size { length flits.new ≡ length flits.old }
    ensures value { labels_of flits.new ≡ label_onto (labels_of flits.old) y k }
{
    if let Some(y) = y {
        put_label(flits, y, Some(k));
    }
}

/// The sender of a channel has begun one packet more.
fn count_begun(begun: &mut [usize], x: usize)
    requires { slice_index begun.old x + 1 < 2 ^ 64 }
    ensures { begun.new ≡ slice_set begun.old x (slice_index begun.old x + 1) }
{
    if x < begun.len() {
        begun[x] += 1;
    }
}

impl<A: Allocator> Labels<A> {
    /// The sender of a channel begins this packet, if any is left.
    fn begin(&mut self, x: usize, next: Option<usize>)
        requires { IfSome next (λ k. slice_index self.old.begun.items x + 1 < 2 ^ 64) }
        ensures { labels_spec self.new ≡ label_begun (labels_spec self.old) x next }
    {
        if next.is_none() {
            return;
        }
        put_label(&mut self.flits, x, next);
        set_packet(&mut self.courses, x, next);
        count_begun(&mut self.begun, x);
    }

    /// The sender of a channel begins its next packet.
    fn send<B: Allocator>(&mut self, plan: &Plan<B>, packet: Packet)
        requires plan { IsPlan plan.now }
        requires channels { HasChannels (labels_spec self.old) (length plan.now.kinds.now) }
        ensures { labels_spec self.new ≡ labels_after (plan_table plan.now) plan.now.packets.now
            (labels_spec self.old) (Send packet) }
    {
        let next = next_number(&plan.numbers, &self.begun, packet.from);
        self.begin(packet.from, next);
    }

    /// The sender of a channel goes on with its packet.
    fn go_on(&mut self, x: usize)
        ensures { (t : Table) (packets : List Timed) → labels_spec self.new
            ≡ labels_after t packets (labels_spec self.old) (More x) }
    {
        let of = packet_at(&self.courses, x);
        put_label(&mut self.flits, x, of);
    }

    /// The router behind a channel takes its first flit into the latch.
    fn take(&mut self, x: usize)
        ensures { (t : Table) (packets : List Timed) → labels_spec self.new
            ≡ labels_after t packets (labels_spec self.old) (Take x) }
    {
        let first = first_at(&self.flits, x);
        drop_at(&mut self.flits, x);
        set_packet(&mut self.latches, x, first);
    }

    /// The flit in the latch behind a channel goes on.
    fn put<B: Allocator>(&mut self, plan: &Plan<B>, x: usize)
        requires plan { IsPlan plan.now }
        requires channels { HasChannels (labels_spec self.old) (length plan.now.kinds.now) }
        ensures { labels_spec self.new ≡ labels_after (plan_table plan.now) plan.now.packets.now
            (labels_spec self.old) (Put x) }
    {
        let latched = packet_at(&self.latches, x);
        set_packet(&mut self.latches, x, None);
        if let Some(k) = latched {
            let y = plan.output(x, k);
            put_onto(&mut self.flits, y, k);
        }
    }

    /// The receiver of a channel takes its first flit.
    fn accept(&mut self, x: usize)
        ensures { (t : Table) (packets : List Timed) → labels_spec self.new
            ≡ labels_after t packets (labels_spec self.old) (Accept x) }
    {
        drop_at(&mut self.flits, x);
    }

    /// What becomes of the flits by a move.
    #[inline(always)]
    pub(crate) fn make<B: Allocator>(&mut self, plan: &Plan<B>, of: Move)
        requires plan { IsPlan plan.now }
        requires channels { HasChannels (labels_spec self.old) (length plan.now.kinds.now) }
        ensures value { labels_spec self.new ≡ labels_after (plan_table plan.now)
            plan.now.packets.now (labels_spec self.old) of }
        ensures channels { HasChannels (labels_spec self.new) (length plan.now.kinds.now) }
    {
        match of {
            Move::Send(packet) => self.send(plan, packet),
            Move::More(x) => self.go_on(x),
            Move::Take(x) => self.take(x),
            Move::Put(x) => self.put(plan, x),
            Move::Accept(x) => self.accept(x),
            Move::Credit(_) => {}
        }
    }
}
