//! Packets that senders begin from some round on.

ghost use Rattle.std.specs.Prelude.{◌≡◌, ◌+◌, ◌≤◌, ◌<◌, ◌++◌, ◌∷◌, [], length, take, slice_index};
ghost use Rattle.std.specs.Prelude.{IfOk};
ghost use Rattle.std.specs.Prelude.{ℕ, List, OnOk};
ghost use Rattle.std.specs.Prelude.{option_to_list, map};
ghost use Rattle.std.specs.List.{range_with_len};
ghost use Rattle.network_rounds.specs.Senders.{queue_of, queue_at, due_of, dues_of, AreSenders};

use network_machine::{Move, Packet};
use std::alloc::{AllocError, Allocator};

/// A packet that its sender begins in a round or later, behind its earlier packets.
#[derive(Clone, Copy)]
pub struct Timed {
    /// The round, counted from 1.
    pub round: u64,
    /// The packet.
    pub packet: Packet,
}

/// The next packet of a sender that has begun so many, if its round has come.
fn due_of(queue: &[Timed], begun: u64, round: u64) -> Option<Move>
    ensures { result ≡ due_of queue.now begun round }
{
    if begun >= queue.len() as u64 {
        return None;
    }
    let next = queue[begun as usize];
    if next.round > round {
        return None;
    }
    Some(Move::Send(next.packet))
}

/// Writes a move behind the first `count` of a list, if there is one, and answers how many there are
/// then.
fn put_if(moves: &mut [Move], count: usize, of: Option<Move>) -> usize
    requires { count < length moves.old }
    ensures few { result ≤ count + 1 }
    ensures adds { take result moves.new ≡ take count moves.old ++ option_to_list of }
{
    match of {
        None => count,
        Some(added) => {
            moves[count] = added;
            count + 1
        }
    }
}

/// Writes the packets that senders may begin in a round, where each has begun so many, and answers how
/// many these are. It takes no memory.
pub fn due_packets<A: Allocator>(
    queues: &[Vec<Timed, A>],
    senders: &[usize],
    begun: &[u64],
    round: u64,
    sends: &mut [Move],
) -> usize
    requires senders { AreSenders queues.now senders.now }
    requires begun { length begun.now ≡ length queues.now }
    requires room { length queues.now ≤ length sends.old }
    ensures few { result ≤ length queues.now }
    ensures sends { take result sends.new
        ≡ dues_of (queue_at queues.now) (slice_index begun.now) round (length queues.now) }
{
    let mut count = 0;
    for k in 0..senders.len() {
        let x = senders[k];
        count = put_if(sends, count, due_of(&queues[x], begun[x], round));
    }
    count
}

/// No packets for each of so many channels.
///
/// Errors: out of memory.
fn no_queues<A: Allocator + Copy>(
    alloc: A,
    channels: usize,
) -> Result<Vec<Vec<Timed, A>, A>, AllocError>
    ensures { IfOk result (λ queues. map (λ queue. queue.items) queues.items
        ≡ map (queue_of []) (range_with_len 0 channels)) }
{
    let mut queues = Vec::with_capacity(alloc, channels)?;
    for _x in 0..channels {
        queues.push(Vec::new(alloc))?;
    }
    Ok(queues)
}

/// Adds a packet behind those of its sender, if it is there.
///
/// Errors: out of memory.
fn add_packet<A: Allocator>(queues: &mut [Vec<Timed, A>], timed: Timed) -> Result<(), AllocError>
    ensures { OnOk result ((traffic : List Timed) (channels : ℕ)
        → map (λ queue. queue.items) queues.old ≡ map (queue_of traffic) (range_with_len 0 channels)
        → map (λ queue. queue.items) queues.new
        ≡ map (queue_of (traffic ++ timed ∷ [])) (range_with_len 0 channels)) }
{
    let x = timed.packet.from;
    if x < queues.len() {
        queues[x].push(timed)?;
    }
    Ok(())
}

/// The packets of all senders: a queue for each channel.
///
/// Errors: out of memory.
pub fn queues_of<A: Allocator + Copy>(
    alloc: A,
    traffic: &[Timed],
    channels: usize,
) -> Result<Vec<Vec<Timed, A>, A>, AllocError>
    ensures { IfOk result (λ queues. map (λ queue. queue.items) queues.items
        ≡ map (queue_of traffic.now) (range_with_len 0 channels)) }
{
    let mut queues = no_queues(alloc, channels)?;
    for k in 0..traffic.len() {
        add_packet(&mut queues, traffic[k])?;
    }
    Ok(queues)
}

/// The senders that have packets, in rising order.
///
/// Errors: out of memory.
pub fn senders_of<A: Allocator + Copy>(
    alloc: A,
    queues: &[Vec<Timed, A>],
) -> Result<Vec<usize, A>, AllocError>
    ensures { IfOk result (λ senders. AreSenders queues.now senders.items) }
{
    let mut senders = Vec::new(alloc);
    for x in 0..queues.len() {
        if !queues[x].is_empty() {
            senders.push(x)?;
        }
    }
    Ok(senders)
}
