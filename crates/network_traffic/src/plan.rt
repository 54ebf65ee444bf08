//! The packets of a simulation, and where the flits of each go.

ghost use Rattle.std.specs.Prelude.{◌≡◌, ◌+◌, ◌<◌, ◌^◌, [], ◌∷◌, ◌++◌, length, map};
ghost use Rattle.std.specs.Prelude.{◌≢◌, ℕ, List, IfOk, OnOk, IfSome, slice_index};
ghost use Rattle.std.specs.List.{range_with_len};
ghost use Rattle.network_traffic.specs.Plans.{output_for, all_numbers, next_number};
ghost use Rattle.network_traffic.specs.Plans.{IsPlan, plan_table, GoToReceivers};
ghost use Rattle.network_judge.specs.Table.{table_of, IsFull};

use network_judge::columns::{columns_of, ends_of};
use network_judge::walk::cell;
use network_judge::{Join, Kind};
use network_rounds::Timed;
use std::alloc::{AllocError, Allocator, Global};

/// The tables of a network and the packets that are sent through it.
#[derive(Drop)]
pub struct Plan<'a, A: Allocator = Global> {
    /// What each channel is.
    pub kinds: &'a [Kind],
    /// The source-destination pairs that packets go between.
    pub joins: &'a [Join],
    /// The routers' choices.
    pub choices: &'a [u32],
    /// The packets, in the order of their text.
    pub packets: &'a [Timed],
    /// How many ejection channels there are.
    pub width: usize,
    /// The column of each channel in the choices.
    pub columns: Vec<usize, A>,
    /// The numbers of the packets of each sender.
    pub numbers: Vec<Vec<usize, A>, A>,
}

impl<'a, A: Allocator> Plan<'a, A> {
    /// The channel into which the router behind channel x puts the flits of a packet.
    pub(crate) fn output(&self, x: usize, k: usize) -> Option<usize>
        requires plan { IsPlan self.now }
        requires x { x < length self.now.kinds.now }
        ensures { result ≡ output_for (plan_table self.now) self.now.packets.now x k }
    {
        if k >= self.packets.len() {
            return None;
        }
        let column = self.columns[self.packets[k].packet.to];
        Some(self.choices[cell(self.kinds.len(), self.width, x, column)] as usize)
    }
}

/// No numbers for each of so many channels.
///
/// Errors: out of memory.
fn no_numbers<A: Allocator + Copy>(
    alloc: A,
    channels: usize,
) -> Result<Vec<Vec<usize, A>, A>, AllocError>
    ensures { IfOk result (λ all. map (λ numbers. numbers.items) all.items
        ≡ all_numbers [] channels) }
{
    let mut all = Vec::with_capacity(alloc, channels)?;
    for _x in 0..channels {
        all.push(Vec::new(alloc))?;
    }
    Ok(all)
}

/// Adds the number of a packet behind those of its sender, if it is there.
///
/// Errors: out of memory.
fn add_number<A: Allocator>(all: &mut [Vec<usize, A>], x: usize, k: usize) -> Result<(), AllocError>
    ensures { OnOk result ((old new : ℕ → List ℕ) (channels : ℕ)
        → map (λ numbers. numbers.items) all.old ≡ map old (range_with_len 0 channels)
        → ((y : ℕ) → x ≢ y → old y ≡ new y) → new x ≡ old x ++ k ∷ []
        → map (λ numbers. numbers.items) all.new ≡ map new (range_with_len 0 channels)) }
{
    if x < all.len() {
        all[x].push(k)?;
    }
    Ok(())
}

/// The numbers of the packets of all senders: a list for each channel.
///
/// Errors: out of memory.
pub(crate) fn all_numbers<A: Allocator + Copy>(
    alloc: A,
    packets: &[Timed],
    channels: usize,
) -> Result<Vec<Vec<usize, A>, A>, AllocError>
    ensures { IfOk result (λ all. map (λ numbers. numbers.items) all.items
        ≡ all_numbers packets.now channels) }
{
    let mut all = no_numbers(alloc, channels)?;
    for k in 0..packets.len() {
        add_number(&mut all, packets[k].packet.from, k)?;
    }
    Ok(all)
}

/// The number of the packet that a sender begins next, where each has begun so many.
pub(crate) fn next_number<A: Allocator>(
    numbers: &[Vec<usize, A>],
    begun: &[usize],
    x: usize,
) -> Option<usize>
    requires { length begun.now ≡ length numbers.now }
    ensures value { result ≡ next_number (map (λ of. of.items) numbers.now) begun.now x }
    ensures few { IfSome result (λ k. slice_index begun.now x + 1 < 2 ^ 64) }
{
    if x >= numbers.len() {
        return None;
    }
    let count = begun[x];
    let of = &numbers[x];
    if count >= of.len() {
        return None;
    }
    Some(of[count])
}

/// The plan of some packets over the tables of a network.
///
/// Errors: out of memory.
pub(crate) fn open_plan<'a, A: Allocator + Copy>(
    alloc: A,
    kinds: &'a [Kind],
    joins: &'a [Join],
    choices: &'a [u32],
    packets: &'a [Timed],
) -> Result<Plan<'a, A>, AllocError>
    requires full { IsFull (table_of kinds.now joins.now choices.now) }
    requires ends { GoToReceivers (table_of kinds.now joins.now choices.now) packets.now }
    ensures plan { IfOk result IsPlan }
    ensures table { IfOk result (λ plan. plan_table plan
        ≡ table_of kinds.now joins.now choices.now) }
    ensures packets { IfOk result (λ plan. plan.packets.now ≡ packets.now) }
{
    Ok(Plan {
        kinds,
        joins,
        choices,
        packets,
        width: ends_of(alloc, kinds)?.len(),
        columns: columns_of(alloc, kinds)?,
        numbers: all_numbers(alloc, packets, kinds.len())?,
    })
}
