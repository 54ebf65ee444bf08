//! Simulations: clocked rounds one after the other, until nothing moves and no packet is to come.

ghost use Rattle.std.specs.Prelude.{◌≡◌, ◌+◌, ◌<◌, ◌≤◌, ◌^◌, ◌==◌, ◌&&◌, not, [], ℕ, length};
ghost use Rattle.std.specs.Prelude.{slice_get, slice_index, if◌then◌else◌};
ghost use Rattle.std.specs.List.{sum_by};
ghost use Rattle.network_rounds.specs.Arbiters.{AreGrants, no_grants};
ghost use Rattle.network_rounds.specs.Flags.{AreFlags, choices_of};
ghost use Rattle.network_rounds.specs.Senders.{AreSenders};
ghost use Rattle.network_traffic.specs.Plans.{IsPlan, plan_table};
ghost use Rattle.network_traffic.specs.Labels.{labels_spec, HasChannels};
ghost use Rattle.network_traffic.specs.Watches.{ShowsCourse};
ghost use Rattle.network_traffic.specs.Simulated.{is_later, some_later, IsSimulated};

use crate::plan::Plan;
use crate::watch::Watch;
use network_machine::{Machine, Move};
use network_rounds::{Arbiter, Attempt, Flags, Grants, Timed, simulate_round};
use std::alloc::Allocator;

/// How far a simulation goes.
#[derive(Clone, Copy)]
pub struct Extent {
    /// How many rounds are made.
    pub rounds: u64,
    /// The last of them that makes a move, 0 if none does.
    pub last: u64,
    /// Whether the last one makes no move, and no packet is to come.
    pub is_over: bool,
}

/// Whether the next packet of a sender that has begun so many is to come behind a round.
fn is_later(queue: &[Timed], begun: u64, round: u64) -> bool
    ensures { result ≡ is_later round (slice_get queue.now begun) }
{
    if begun >= queue.len() as u64 {
        return false;
    }
    round < queue[begun as usize].round
}

/// Whether some packet is to come behind a round, where each sender has begun so many.
fn some_later<A: Allocator>(queues: &[Vec<Timed, A>], begun: &[u64], round: u64) -> bool
    requires { length begun.now ≡ length queues.now }
    ensures { result ≡ some_later queues.now (slice_index begun.now) round }
{
    for x in 0..queues.len() {
        if is_later(&queues[x], begun[x], round) {
            return true;
        }
    }
    false
}

/// Whether a simulation is over behind a round of so many moves.
fn ends<A: Allocator>(queues: &[Vec<Timed, A>], begun: &[u64], round: u64, count: usize) -> bool
    requires { length begun.now ≡ length queues.now }
    ensures { result ≡ (count == 0 && not (some_later queues.now (slice_index begun.now) round)) }
{
    count == 0 && !some_later(queues, begun, round)
}

/// The last round that makes a move, behind one of so many moves.
fn last_of(count: usize, last: u64, round: u64) -> u64
    ensures { result ≡ (if count == 0 then last else round) }
{
    if count == 0 { last } else { round }
}

/// Makes clocked rounds, at most so many, until one makes no move and no packet is to come, and notes
/// them. Counts how many packets each sender begins and how many flits leave each channel. It takes no
/// memory.
pub(crate) fn watch_rounds<A: Allocator, B: Allocator>(
    machine: &mut Machine<A>,
    by: Arbiter,
    plan: &Plan<B>,
    queues: &[Vec<Timed, B>],
    senders: &[usize],
    groups: &[Vec<Move, B>],
    choices: &mut Flags<B>,
    grants: &mut Grants<B>,
    most: u64,
    begun: &mut [u64],
    flits: &mut [u64],
    sends: &mut [Move],
    enabled: &mut [Move],
    attempts: &mut [Attempt],
    made: &mut [Move],
    watch: &mut Watch<B>,
) -> Extent
    requires plan { IsPlan plan.now }
    requires most { most < 2 ^ 32 }
    requires senders { AreSenders queues.now senders.now }
    requires flags { AreFlags machine.old (choices_of groups.now) choices.old }
    requires grants { AreGrants machine.old grants.old }
    requires none_granted { grants.old.lasts.items ≡ no_grants (length machine.old.channels) }
    requires begun { length begun.old ≡ length queues.now }
    requires none_begun { (x : ℕ) → x < length begun.old → slice_index begun.old x ≡ 0 }
    requires none_left { (x : ℕ) → x < length flits.old → slice_index flits.old x ≡ 0 }
    requires sends { length queues.now ≤ length sends.old }
    requires enabled { length queues.now + sum_by (λ group. length group.items) groups.now
        ≤ length enabled.old }
    requires attempts { length enabled.old ≤ length attempts.old }
    requires made { length enabled.old ≤ length made.old }
    requires room { length made.old < 2 ^ 31 }
    requires watch { ShowsCourse (plan_table plan.now) plan.now.packets.now [] watch.old }
    ensures { IsSimulated by (plan_table plan.now) plan.now.packets.now queues.now groups.now
        machine.old machine.new flits.new most watch.new result }
{
    let mut rounds = 0;
    let mut last = 0;
    while rounds < most {
        let count = simulate_round(
            machine, by, queues, senders, groups, choices, grants, rounds, begun, flits, sends,
            enabled, attempts, made,
        );
        rounds += 1;
        watch.note(plan, rounds, &made[..count]);
        last = last_of(count, last, rounds);
        if ends(queues, begun, rounds, count) {
            watch.settle(rounds);
            return Extent {
                rounds,
                last,
                is_over: true,
            };
        }
    }
    watch.settle(rounds);
    Extent {
        rounds,
        last,
        is_over: false,
    }
}
