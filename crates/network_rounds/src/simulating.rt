//! A round of a simulation, in which senders begin packets whose round has come.

ghost use Rattle.std.specs.Prelude.{◌≡◌, ◌+◌, ◌<◌, ◌≤◌, ◌^◌, ℕ, length, take};
ghost use Rattle.std.specs.Prelude.{slice_index};
ghost use Rattle.std.specs.List.{sum_by};
ghost use Rattle.network_machine.specs.Machine.{SameTables};
ghost use Rattle.network_machine.specs.Runs.{RunsTo};
ghost use Rattle.network_rounds.specs.Arbiters.{AreGrants};
ghost use Rattle.network_rounds.specs.Counts.{flits_gone, packets_begun};
ghost use Rattle.network_rounds.specs.Flags.{AreFlags, choices_of};
ghost use Rattle.network_rounds.specs.Rounds.{IsRound};
ghost use Rattle.network_rounds.specs.Senders.{AreSenders};
ghost use Rattle.network_rounds.specs.Simulations.{choices_in};

use crate::arbiter::{Arbiter, Attempt, Grants};
use crate::counting::count_moves;
use crate::flags::Flags;
use crate::round::clocked_round;
use crate::senders::{Timed, due_packets};
use network_machine::{Machine, Move};
use std::alloc::Allocator;

/// Makes a round behind so many: senders begin packets whose round has come, and what may happen then
/// is attempted. Answers how many moves it makes; these are then the first of `made`. Counts how many
/// packets each sender begins and how many flits leave each channel. It takes no memory.
pub fn simulate_round<A: Allocator, B: Allocator, C: Allocator>(
    machine: &mut Machine<A>,
    by: Arbiter,
    queues: &[Vec<Timed, B>],
    senders: &[usize],
    groups: &[Vec<Move, C>],
    flags: &mut Flags<C>,
    grants: &mut Grants<C>,
    before: u64,
    begun: &mut [u64],
    flits: &mut [u64],
    sends: &mut [Move],
    enabled: &mut [Move],
    attempts: &mut [Attempt],
    made: &mut [Move],
) -> usize
    requires before { before < 2 ^ 32 }
    requires senders { AreSenders queues.now senders.now }
    requires begun { length begun.old ≡ length queues.now }
    requires sends { length queues.now ≤ length sends.old }
    requires enabled { length queues.now + sum_by (λ group. length group.items) groups.now
        ≤ length enabled.old }
    requires flags { AreFlags machine.old (choices_of groups.now) flags.old }
    requires grants { AreGrants machine.old grants.old }
    requires attempts { length enabled.old ≤ length attempts.old }
    requires made { length enabled.old ≤ length made.old }
    ensures few { result ≤ length made.new }
    ensures round { IsRound by machine.old machine.new grants.old.lasts.items
        grants.new.lasts.items (choices_in by queues.now groups.now (slice_index begun.old) before)
        (take result made.new) }
    ensures runs { RunsTo machine.old machine.new (take result made.new) }
    ensures same { SameTables machine.old machine.new }
    ensures flags { AreFlags machine.new (choices_of groups.now) flags.new }
    ensures grants { AreGrants machine.new grants.new }
    ensures begun { (x : ℕ) → x < length begun.old
        → slice_index begun.old x + packets_begun x (take result made.new) < 2 ^ 64
        → slice_index begun.new x
        ≡ slice_index begun.old x + packets_begun x (take result made.new) }
    ensures flits { (x : ℕ) → x < length flits.old
        → slice_index flits.old x + flits_gone x (take result made.new) < 2 ^ 64
        → slice_index flits.new x ≡ slice_index flits.old x + flits_gone x (take result made.new) }
{
    let due = due_packets(queues, senders, begun, before + 1, sends);
    let count = clocked_round(
        machine,
        by,
        &sends[..due],
        groups,
        flags,
        grants,
        before,
        enabled,
        attempts,
        made,
    );
    count_moves(begun, flits, &made[..count]);
    count
}
