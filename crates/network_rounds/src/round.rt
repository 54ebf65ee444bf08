//! One clocked round.

ghost use Rattle.std.specs.Prelude.{◌≡◌, ◌+◌, ◌≤◌, ◌++◌, length, take};
ghost use Rattle.std.specs.List.{sum_by};
ghost use Rattle.network_machine.specs.Machine.{SameTables};
ghost use Rattle.network_machine.specs.Runs.{RunsTo};
ghost use Rattle.network_rounds.specs.Arbiters.{AreGrants, turn_by};
ghost use Rattle.network_rounds.specs.Flags.{AreFlags, choices_of};
ghost use Rattle.network_rounds.specs.Rounds.{IsRound, turned_groups};

use crate::arbiter::{Arbiter, Attempt, Grants};
use crate::attempting::attempt_moves;
use crate::flags::Flags;
use crate::picking::{pick_groups, pick_moves};
use network_machine::{Machine, Move};
use std::alloc::Allocator;

/// Makes one clocked round behind so many, over some packets that senders may begin and some groups of
/// moves: what is enabled now, and what of it an arbiter chooses, is attempted once, in this order. A
/// choice whose flag is down is not looked at. The moves that are made are then the first of `made`;
/// the answer is how many they are. The lists have room for all choices. It takes no memory.
pub fn clocked_round<A: Allocator, B: Allocator>(
    machine: &mut Machine<A>,
    by: Arbiter,
    sends: &[Move],
    groups: &[Vec<Move, B>],
    flags: &mut Flags<B>,
    grants: &mut Grants<B>,
    before: u64,
    enabled: &mut [Move],
    attempts: &mut [Attempt],
    made: &mut [Move],
) -> usize
    requires enabled { length sends.now + sum_by (λ group. length group.items) groups.now
        ≤ length enabled.old }
    requires attempts { length enabled.old ≤ length attempts.old }
    requires flags { AreFlags machine.old (choices_of groups.now) flags.old }
    requires grants { AreGrants machine.old grants.old }
    requires made { length enabled.old ≤ length made.old }
    ensures few { result ≤ length made.new }
    ensures round { IsRound by machine.old machine.new grants.old.lasts.items
        grants.new.lasts.items (sends.now ++ turned_groups (turn_by by before) groups.now)
        (take result made.new) }
    ensures runs { RunsTo machine.old machine.new (take result made.new) }
    ensures same { SameTables machine.old machine.new }
    ensures flags { AreFlags machine.new (choices_of groups.now) flags.new }
    ensures grants { AreGrants machine.new grants.new }
{
    let sending = pick_moves(machine, sends, enabled, 0);
    let turn = by.turn(before);
    let count = pick_groups(machine, groups, &flags.up, turn, enabled, sending);
    let chosen = grants.choose(machine, by, &enabled[..count], attempts);
    attempt_moves(machine, flags, grants, &attempts[..chosen], made)
}
